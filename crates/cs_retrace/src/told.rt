//! What a line of a daemon's log reports, after its time.
use crate::words::{behind, is_word, number, split};
use cs_civil::read_minute;
use std::alloc::{AllocError, Global};

/// What a line reports of a run.
#[derive(Clone, Copy)]
pub enum Verb {
    /// A worker has taken it.
    Started,
    /// It waits for its group's lock.
    Waiting,
    /// It is skipped.
    Skipped,
    /// It has ended.
    Ended,
    /// It couldn't be started.
    NotStarted,
    /// It has passed its declared time.
    Overrun,
}

/// A run, and what a line reports of it.
#[derive(Clone, Copy)]
pub struct RunTold<'t> {
    /// What is reported.
    pub verb: Verb,
    /// The number of its line, if it is of the crontab.
    pub line: Option<u64>,
    /// The digits of that, or the identifier of its job as the log shows it.
    pub name: &'t [u8],
    /// The minute in which it was due, or that in which a job started, since 1970-01-01 00:00.
    pub at: u64,
}

fn verb_of(word: &[u8]) -> Option<Verb> {
    match word {
        _ if is_word(word, b"started") => Some(Verb::Started),
        _ if is_word(word, b"waiting") => Some(Verb::Waiting),
        _ if is_word(word, b"skipped") => Some(Verb::Skipped),
        _ if is_word(word, b"ended") => Some(Verb::Ended),
        _ if is_word(word, b"not") => Some(Verb::NotStarted),
        _ if is_word(word, b"overrun") => Some(Verb::Overrun),
        _ => None,
    }
}

/// Since 1970-01-01 00:00, with what follows it.
fn minute(text: &[u8]) -> Option<(u64, &[u8])> {
    let (front, rest) = text.split_at_checked(16)?;
    Some((read_minute(front).ok()?.number(), rest))
}

fn run_told(verb: Verb, text: &[u8]) -> Option<RunTold<'_>> {
    let (kind, rest) = split(b' ', text)?;
    let (name, rest) = split(b' ', rest)?;
    let (line, rest) = match kind {
        _ if is_word(kind, b"line") => (Some(number(name)?), behind(b"due ", rest)?),
        _ if is_word(kind, b"job") => (None, behind(b"at ", rest)?),
        _ => return None,
    };
    let (at, _rest) = minute(rest)?;
    Some(RunTold {
        verb,
        line,
        name,
        at,
    })
}

/// Returns what a line such as `started line 1 due 2024-09-13 23:30` or
/// `ended job backup at 2024-09-13 23:30 status 0` reports of a run. What follows isn't looked at.
pub fn told(text: &[u8]) -> Option<RunTold<'_>> {
    let (word, rest) = split(b' ', text)?;
    let verb = verb_of(word)?;
    let rest = match verb {
        Verb::NotStarted => behind(b"started ", rest)?,
        _ => rest,
    };
    run_told(verb, rest)
}

#[derive(Clone, Copy)]
pub(crate) enum Fate {
    /// It has ended before the daemon began.
    CutOff,
    /// The daemon waits for it.
    StillRunning,
    /// It has ended meanwhile.
    NoLonger,
}

/// In a line such as `cut off line 1 due 2024-09-13 23:30`.
pub(crate) fn fate_in(text: &[u8]) -> Option<(Fate, RunTold<'_>)> {
    let (what, rest) = if let Some(rest) = behind(b"cut off ", text) {
        (Fate::CutOff, rest)
    } else if let Some(rest) = behind(b"still running ", text) {
        (Fate::StillRunning, rest)
    } else {
        (Fate::NoLonger, behind(b"no longer running ", text)?)
    };
    Some((what, run_told(Verb::Ended, rest)?))
}

/// The byte that `\xNN` at the front stands for, and what follows it.
fn escaped(text: &[u8]) -> Option<(u8, &[u8])> {
    let [b'\\', b'x', high, low, rest @ ..] = text else {
        return None;
    };
    let high = char::from(*high).to_digit(16)?;
    let low = char::from(*low).to_digit(16)?;
    Some((u8::try_from(16 * high + low).ok()?, rest))
}

/// The bytes of an identifier that a log shows with `\xNN` for some of them.
pub(crate) fn identifier(alloc: Global, shown: &[u8]) -> Result<Vec<u8>, AllocError> {
    let mut bytes = Vec::new(alloc);
    let mut rest = shown;
    for _ in 0..shown.len() {
        let [byte, others @ ..] = rest else {
            break;
        };
        let (byte, others) = match escaped(rest) {
            Some(found) => found,
            None => (*byte, others),
        };
        bytes.push(byte)?;
        rest = others;
    }
    Ok(bytes)
}

/// The minutes of an outage: the last one before it, and the first one after it.
pub(crate) fn outage(text: &[u8]) -> Option<(u64, u64)> {
    let (from, rest) = minute(behind(b"outage ", text)?)?;
    let (to, _rest) = minute(behind(b" to ", rest)?)?;
    Some((from, to))
}

/// Of a plan that follows another.
pub(crate) fn first_minute(text: &[u8]) -> Option<u64> {
    let (at, _rest) = minute(behind(b"begins in ", text)?)?;
    Some(at)
}

/// Whether a daemon begins.
pub fn begins(text: &[u8]) -> bool {
    behind(b"running ", text).is_some()
}

/// Whether a daemon starts nothing more: it is asked to stop, its minutes are over, it has accepted
/// other files, or it ends.
pub(crate) fn is_end(text: &[u8]) -> bool {
    is_word(text, b"asked to stop")
        || is_word(text, b"the minutes of --minutes are over")
        || is_word(text, b"reload accepted, the runs under way end first")
        || is_word(text, b"stopped")
        || behind(b"ended, for ", text).is_some()
}
