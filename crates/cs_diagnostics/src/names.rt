//! Names in words: how one is shown, and which one may be meant by another.
use crate::findings::Words;
use crate::span::Span;
use cs_place::harmful;
use std::alloc::{AllocError, Global};
use strsim::levenshtein;

/// The most bytes of a name that are shown.
const MAX_SHOWN: usize = 60;

/// The longest name that is compared, in bytes.
const MAX_COMPARED: usize = 24;

/// The most edits between a name and the one that may be meant.
const MAX_EDITS: usize = 3;

/// Adds bytes with `?` for each control byte, for each character that a terminal may obey, and
/// `tab` for a tab. The only error is out of memory.
pub(crate) fn push_clean(text: &mut Vec<u8>, bytes: &[u8], tab: u8) -> Result<(), AllocError> {
    let mut left = 0;
    for (index, byte) in bytes.iter().enumerate() {
        if left == 0 {
            left = harmful(Span::of(index, 3).bytes(bytes));
            let clean = match *byte {
                b'\t' => tab,
                byte if 0 < left || byte < b' ' || byte == 0x7f => b'?',
                byte => byte,
            };
            text.push(clean)?;
        }
        left = left.saturating_sub(1);
    }
    Ok(())
}

/// A name as a terminal may show it: with `?` for each control byte and for each character that a
/// terminal may obey, and `...` after 60 bytes. The only error is out of memory.
pub fn shown(alloc: Global, name: &[u8]) -> Words {
    let front = &name[..name.len().min(MAX_SHOWN)];
    let mut clean = Vec::new(alloc);
    push_clean(&mut clean, front, b'?')?;
    if front.len() < name.len() {
        clean.extend_from_slice(b"...")?;
    }
    String::from_utf8_lossy(alloc, clean.as_slice())
}

/// [`shown`] in double quotes. The only error is out of memory.
pub fn quoted(alloc: Global, name: &str) -> Words {
    let text = shown(alloc, name.as_bytes())?;
    format!(in alloc; "\"{text}\"")
}

/// The known name that may be meant: the first with the fewest edits, at most three and at most
/// half as many as its bytes. The only error is out of memory.
pub fn nearest<'n>(
    alloc: Global,
    name: &str,
    known: &[&'n str],
) -> Result<Option<&'n str>, AllocError> {
    let (mut best, mut least) = (None, MAX_EDITS.saturating_add(1));
    if name.len() > MAX_COMPARED {
        return Ok(best);
    }
    for candidate in known {
        let edits = levenshtein(alloc, name, candidate)?;
        if edits < least && edits.saturating_mul(2) <= candidate.len() {
            least = edits;
            best = Some(*candidate);
        }
    }
    Ok(best)
}

/// `did you mean NAME?` if a known name may be meant; else `otherwise` and all of them. Blanks
/// separate the known names. The only error is out of memory.
pub fn meant(alloc: Global, name: &str, quote: &str, known: &str, otherwise: &str) -> Words {
    let known = known.split_whitespace().collect::<Vec<&str>>(alloc)?;
    if let Some(near) = nearest(alloc, name, known.as_slice())? {
        return format!(in alloc; "did you mean {quote}{near}{quote}?");
    }
    let mut text = String::from_str(alloc, otherwise)?;
    let last = known.len().saturating_sub(1);
    for (i, name) in known.iter().enumerate() {
        let before = match i {
            0 => " ",
            _ if i == last => " and ",
            _ => ", ",
        };
        text = format!(in alloc; "{text}{before}{quote}{name}{quote}")?;
    }
    Ok(text)
}
