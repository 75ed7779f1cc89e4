ghost use Rattle.std.specs.Prelude.{◌≡◌, ◌++◌, IfOk, OnOk};
ghost use Rattle.cs_report.specs.Reply.{reply_text, refused_text, taken_text};

use cs_civil::Bytes;
use cs_history::{Refusal, Reply};
use std::alloc::{AllocError, Global};

fn taken_text(reply: Reply) -> &'static str
    ensures { result.now ≡ taken_text reply }
{
    match reply {
        Reply::Clock => "clock",
        Reply::Started(_) => "started",
        Reply::Waiting => "waiting",
        Reply::Skipped => "skipped",
        Reply::Ended(true) => "ended in time",
        Reply::Ended(false) => "ended late",
        Reply::Went => "went",
        Reply::Came => "came",
    }
}

fn push_refusal(text: &mut Vec<u8>, refusal: Refusal) -> Result<(), AllocError>
    ensures { OnOk result (text.new.items ≡ text.old.items ++ refused_text refusal) }
{
    match refusal {
        Refusal::OutOfMemory => text.extend_from_slice(b"out of memory"),
        Refusal::NotUp
        | Refusal::AlreadyUp
        | Refusal::WrongMinute
        | Refusal::NotSettled
        | Refusal::NotDue
        | Refusal::LockHeld
        | Refusal::NotWaiting
        | Refusal::NotRunning
        | Refusal::NotCatchable
        | Refusal::OutOfRange
        | Refusal::HistoryFull => {
            text.extend_from_slice(b"refused ")?;
            text.extend_from_slice(refusal.text().as_bytes())
        }
    }
}

/// Adds the text of an answer, as [`reply_text`] formats it.
pub fn push_reply(text: &mut Vec<u8>, answer: Result<Reply, Refusal>) -> Result<(), AllocError>
    ensures { OnOk result (text.new.items ≡ text.old.items ++ reply_text answer) }
{
    match answer {
        Ok(reply) => text.extend_from_slice(taken_text(reply).as_bytes()),
        Err(refusal) => push_refusal(text, refusal),
    }
}

/// Formats the answer to an event, without a newline: `clock`, `started`, `waiting`, `skipped`,
/// `ended in time`, `ended late`, `went` or `came`; a refusal as `refused 4 NotSettled`, or as
/// `out of memory`.
pub fn reply_text(alloc: Global, answer: Result<Reply, Refusal>) -> Result<Bytes, AllocError>
    ensures { IfOk result (λ text. text ≡ reply_text answer) }
{
    let mut text = Vec::new(alloc);
    push_reply(&mut text, answer)?;
    Ok(Bytes::from_vec(text))
}
