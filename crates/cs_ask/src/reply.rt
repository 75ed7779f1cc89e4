//! A daemon's answer to a request to read its files again.
ghost use Rattle.std.specs.Prelude.{◌≡◌, ◌≢◌, ◌+◌, [], IfOk, MatchOption, ℕ, List};
ghost use Rattle.cs_files.specs.Response.{status_of};
ghost use Rattle.cs_files.specs.declared.response.Status.{Status};
ghost use Rattle.cs_ask.specs.Reloading.{reply_text};

use cs_files::Status;
use std::alloc::{AllocError, Global};

/// A status, and the text with it.
#[derive(Clone, Copy)]
pub(crate) struct Reply<'a> {
    pub(crate) status: Status,
    pub(crate) text: &'a [u8],
}

fn status_of_digit(digit: u8) -> Option<Status>
    ensures { MatchOption result ((s : Status) → digit ≢ 48 + status_of s)
        (λ s. digit ≡ 48 + status_of s) }
{
    match digit {
        b'0' => Some(Status::Done),
        b'1' => Some(Status::Refused),
        b'2' => Some(Status::Unknown),
        b'3' => Some(Status::BadInput),
        b'4' => Some(Status::NoCall),
        b'5' => Some(Status::NoMemory),
        b'6' => Some(Status::DeviceFailed),
        _ => None,
    }
}

/// Returns the text of an answer: the digit of its status, a newline, and two texts.
pub fn reply_text(
    alloc: Global,
    status: Status,
    first: &[u8],
    second: &[u8],
) -> Result<Vec<u8>, AllocError>
    ensures { IfOk result (λ text. text.items ≡ reply_text status first.now second.now) }
{
    let mut text = Vec::from_slice(alloc, &[b'0' + status.code(), b'\n'])?;
    text.extend_from_slice(first)?;
    text.extend_from_slice(second)?;
    Ok(text)
}

pub(crate) fn read_reply(text: &[u8]) -> Option<Reply<'_>>
    ensures { MatchOption result
        ((s : Status) (told : List ℕ) → text.now ≢ reply_text s told [])
        (λ reply. text.now ≡ reply_text reply.status reply.text.now []) }
{
    let [digit, b'\n', told @ ..] = text else {
        return None;
    };
    let status = status_of_digit(*digit)?;
    Some(Reply { status, text: told })
}
