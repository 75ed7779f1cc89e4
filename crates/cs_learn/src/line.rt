//! What a line of a log says of a run.
use crate::journal::journal;
use cs_civil::Bytes;
use cs_retrace::Moment;
use cs_retrace::stamp::{moment_of_year, time_and_rest};
use cs_retrace::told::{Verb, told};
use cs_retrace::words::{behind, is_word, number, split};
use cs_table::text::is_among;
use std::alloc::{AllocError, Global};

/// Whether a run begins or ends.
#[derive(Clone, Copy)]
pub enum Sign {
    /// It begins.
    Begin,
    /// It ends, by the number of its beginning.
    End,
    /// It ends, by the number of the parent of its process.
    EndByParent,
}

/// What a line of a log says of a run.
#[derive(Drop)]
pub struct LogLine {
    /// When the line was written.
    pub at: Moment,
    /// Whether the run begins or ends.
    pub sign: Sign,
    /// The number of the run's process, or of its parent; in this program's log that of its line.
    pub number: u64,
    /// In this program's log its due minute, since 1970-01-01 00:00.
    pub due: Option<u64>,
    /// Its user; empty where the log has none.
    pub user: Bytes,
    /// Its command as the log has it, or the identifier of an anacron job; empty where the log has
    /// none.
    pub command: Bytes,
    /// Whether anacron wrote the line.
    pub is_anacron: bool,
    /// Whether it is in this program's log, with the command from its list of the table.
    pub is_listed: bool,
}

/// The user, whether the run begins or ends, and the text in the second parentheses: `CMD` begins a
/// run; `END` (Debian's cron) and `CMDEND` (cronie) end it.
fn message_parts(text: &[u8]) -> Option<(&[u8], Sign, &[u8])> {
    let (user, rest) = split(b')', behind(b"(", text)?)?;
    let (word, rest) = split(b'(', rest)?;
    let sign = match word {
        _ if is_word(word, b" CMD ") => Sign::Begin,
        _ if is_word(word, b" END ") => Sign::EndByParent,
        _ if is_word(word, b" CMDEND ") => Sign::EndByParent,
        _ => return None,
    };
    Some((user, sign, rest.strip_suffix(b")".as_slice())?))
}

/// The number of the job's own process, and the command, of `[4321] command`.
fn numbered(text: &[u8]) -> Option<(u64, &[u8])> {
    let (digits, rest) = split(b']', behind(b"[", text)?)?;
    Some((number(digits)?, behind(b" ", rest)?))
}

/// A message of cron such as `(root) CMD (command)`, by the process `writer`. Where both messages
/// have the job's own number, it names the run.
fn of_cron(
    alloc: Global,
    at: Moment,
    writer: u64,
    text: &[u8],
) -> Result<Option<LogLine>, AllocError> {
    let Some((user, sign, text)) = message_parts(text) else {
        return Ok(None);
    };
    let (sign, number, command) = match (numbered(text), sign) {
        (None, _) => (sign, writer, text),
        (Some((own, command)), Sign::Begin) => (Sign::Begin, own, command),
        (Some((own, command)), _) => (Sign::End, own, command),
    };
    Ok(Some(LogLine {
        at,
        sign,
        number,
        due: None,
        user: Bytes::from_slice(alloc, user)?,
        command: Bytes::from_slice(alloc, command)?,
        is_anacron: false,
        is_listed: false,
    }))
}

/// The identifier, and whether the job begins or ends, of ``Job `cron.daily' started`` or ``Job
/// `cron.daily' terminated (exit status: 1)``.
fn job_parts(text: &[u8]) -> Option<(&[u8], Sign)> {
    let (quoted, rest) = split(b' ', behind(b"Job `", text)?)?;
    let identifier = quoted.strip_suffix(b"'".as_slice())?;
    if is_word(rest, b"started") {
        return Some((identifier, Sign::Begin));
    }
    match behind(b"terminated", rest)?.first() {
        None | Some(b' ') => Some((identifier, Sign::End)),
        Some(_) => None,
    }
}

fn of_anacron(
    alloc: Global,
    at: Moment,
    writer: u64,
    text: &[u8],
) -> Result<Option<LogLine>, AllocError> {
    let Some((identifier, sign)) = job_parts(text) else {
        return Ok(None);
    };
    Ok(Some(LogLine {
        at,
        sign,
        number: writer,
        due: None,
        user: Bytes::new(alloc),
        command: Bytes::from_slice(alloc, identifier)?,
        is_anacron: true,
        is_listed: false,
    }))
}

/// What a message of `program`, by the process `writer`, says.
pub(crate) fn message(
    alloc: Global,
    at: Moment,
    program: &[u8],
    writer: u64,
    text: &[u8],
) -> Result<Option<LogLine>, AllocError> {
    if is_word(program, b"anacron") {
        of_anacron(alloc, at, writer, text)
    } else {
        of_cron(alloc, at, writer, text)
    }
}

/// The program, the number of its process, and its message, of `host CRON[1234]: message`.
fn tagged(text: &[u8]) -> Option<(&[u8], u64, &[u8])> {
    let (_host, rest) = split(b' ', text)?;
    let (name, rest) = split(b'[', rest)?;
    let (digits, rest) = split(b']', rest)?;
    let names: &[&[u8]] = &[b"CRON", b"CROND", b"anacron"];
    if !is_among(names, name) {
        return None;
    }
    Some((name, number(digits)?, behind(b": ", rest)?))
}

fn of_program(alloc: Global, at: Moment, text: &[u8]) -> Result<Option<LogLine>, AllocError> {
    match tagged(text) {
        None => Ok(None),
        Some((program, writer, text)) => message(alloc, at, program, writer, text),
    }
}

/// A line of this program's log, after its time.
fn of_own(alloc: Global, at: Moment, text: &[u8]) -> Option<LogLine> {
    let run = told(text)?;
    let sign = match run.verb {
        Verb::Started => Sign::Begin,
        Verb::Ended => Sign::End,
        _ => return None,
    };
    Some(LogLine {
        at,
        sign,
        number: run.line?,
        due: Some(run.at),
        user: Bytes::new(alloc),
        command: Bytes::new(alloc),
        is_anacron: false,
        is_listed: false,
    })
}

/// What a line of a log, without its newline, says of a run; none if it says nothing.
///
/// Reads lines of Debian's cron, cronie and anacron from syslog, with its time, that of RFC 3339 or
/// that of `journalctl -o short-iso`; of `journalctl -o json`; and of this program's log. A line of
/// PAM that closes a session is no end: it has only the user and the parent of the job's process,
/// and of two sessions that one user begins at once the earlier parent may have the later job.
pub(crate) fn read_line(alloc: Global, text: &[u8]) -> Result<Option<LogLine>, AllocError> {
    if text.starts_with(b"{") {
        return journal(alloc, text);
    }
    if let Some((at, words)) = time_and_rest(text) {
        return match of_own(alloc, at, words) {
            Some(line) => Ok(Some(line)),
            None => of_program(alloc, at, words),
        };
    }
    match moment_of_year(text) {
        Some((at, words)) => of_program(alloc, at, words),
        None => Ok(None),
    }
}
