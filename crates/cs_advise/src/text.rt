//! Texts with one part replaced.
ghost use Rattle.std.specs.Prelude.{◌≡◌, ◌++◌, IfOk, IfSome};
ghost use Rattle.cs_advise.specs.Replaced.{IsReplaced};

use cs_diagnostics::Span;
use std::alloc::{AllocError, Global};

pub(crate) fn joined(
    alloc: Global,
    front: &[u8],
    part: &[u8],
    back: &[u8],
) -> Result<Vec<u8>, AllocError>
    ensures { IfOk result (λ text. text.items ≡ front.now ++ (part.now ++ back.now)) }
{
    let mut text = Vec::from_slice(alloc, front)?;
    text.extend_from_slice(part)?;
    text.extend_from_slice(back)?;
    Ok(text)
}

/// Replaces the part at a place; none if another text is there.
pub(crate) fn replaced(
    alloc: Global,
    text: &[u8],
    place: usize,
    part: &[u8],
    put: &[u8],
) -> Result<Option<Vec<u8>>, AllocError>
    ensures { IfOk result (λ found. IfSome found
        (λ new. IsReplaced text.now part.now put.now new.items)) }
{
    let front = Span::between(0, place).bytes(text);
    let back = Span::between(place.saturating_add(part.len()), text.len()).bytes(text);
    if joined(alloc, front, part, back)?.as_slice() != text {
        return Ok(None);
    }
    Ok(Some(joined(alloc, front, put, back)?))
}
