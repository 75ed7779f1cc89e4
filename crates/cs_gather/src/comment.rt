//! Places as comments.
ghost use Rattle.std.specs.Prelude.{◌≡◌, ◌<◌, ◌++◌, OnOk};
ghost use Rattle.cs_gather.specs.Gathered.{place_text, user_text};

use cs_civil::push_number;
use cs_place::{push_hex, push_shown};
use std::alloc::{AllocError, Global};

/// Adds the name of a user as one word: as [`push_shown`] does, and a blank as `\x20`.
pub(crate) fn push_user(alloc: Global, text: &mut Vec<u8>, name: &[u8]) -> Result<(), AllocError>
    ensures { OnOk result (text.new.items ≡ text.old.items ++ user_text name.now) }
{
    let mut shown = Vec::new(alloc);
    push_shown(&mut shown, name)?;
    let bytes = shown.as_slice();
    for byte in bytes {
        if *byte == b' ' {
            push_hex(text, b' ')?;
        } else {
            text.push(*byte)?;
        }
    }
    Ok(())
}

/// Adds `NAME:LINE`.
pub(crate) fn push_place(
    alloc: Global,
    text: &mut Vec<u8>,
    name: &[u8],
    number: u32,
) -> Result<(), AllocError>
    ensures { OnOk result (text.new.items ≡ text.old.items ++ place_text name.now number) }
{
    push_shown(text, name)?;
    text.push(b':')?;
    push_number(alloc, text, u128::from(number))
}
