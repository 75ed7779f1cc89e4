//! Commands as cron logs them.
use cs_civil::Bytes;
use std::alloc::{AllocError, Global};

/// Adds a byte: `^I`, `^?` or `\303` where it can't be printed.
fn push_shown(text: &mut Vec<u8>, byte: u8) -> Result<(), AllocError> {
    if byte < 32 {
        return text.extend_from_slice(&[b'^', byte + 64]);
    }
    if byte < 127 {
        return text.extend_from_slice(&[byte]);
    }
    if byte == 127 {
        return text.extend_from_slice(&[b'^', b'?']);
    }
    text.extend_from_slice(&[
        b'\\',
        b'0' + byte / 64,
        b'0' + byte / 8 % 8,
        b'0' + byte % 8,
    ])
}

/// A command as Debian's cron or cronie logs it: up to the first `%` without a backslash. A
/// backslash before `%` is dropped, and by Debian's cron one before a backslash too.
pub(crate) fn logged(alloc: Global, debian: bool, command: &[u8]) -> Result<Bytes, AllocError> {
    let mut text = Vec::new(alloc);
    let mut escaped = false;
    for byte in command {
        if *byte == b'%' && !escaped {
            return Ok(Bytes::from_vec(text));
        }
        if escaped && *byte != b'%' && !(debian && *byte == b'\\') {
            text.push(b'\\')?;
        }
        escaped = *byte == b'\\' && !escaped;
        if !escaped {
            push_shown(&mut text, *byte)?;
        }
    }
    if escaped {
        text.push(b'\\')?;
    }
    Ok(Bytes::from_vec(text))
}
