//! The text of a daemon's state: one JSON object in one line.
use crate::line_text::moment_text;
use crate::output::output_path;
use crate::records::JobRecord;
use crate::setup::{JobNote, Setup, end_of, peers_of};
use crate::shell::is_text;
use crate::state::State;
use crate::told_file::MEBIBYTE;
use cs_civil::{Bytes, Minute, date_text, push_number};
use cs_place::{push_byte, push_hex, push_shown};
use cs_wall::push_wall;
use std::alloc::{AllocError, Global};

#[derive(Clone, Copy)]
enum Told<'a> {
    Text(&'a [u8]),
    /// `null` where there is none, and after the year 9999.
    Moment(Option<u64>),
    Count(u64),
    /// In minutes.
    Offset(i16),
    Flag(bool),
    Null,
}

fn text_if_any(text: &Option<Bytes>) -> Told<'_> {
    match text {
        Some(text) => Told::Text(text.as_slice()),
        None => Told::Null,
    }
}

/// As [`push_shown`] does, and of bytes that aren't UTF-8 each from 128 on as `\xNN` too.
fn push_utf8(text: &mut Vec<u8>, bytes: &[u8]) -> Result<(), AllocError> {
    if is_text(bytes) {
        return push_shown(text, bytes);
    }
    for byte in bytes {
        if byte.is_ascii() {
            push_byte(text, *byte)?;
        } else {
            push_hex(text, *byte)?;
        }
    }
    Ok(())
}

/// Control characters and `\` are in it as `\xNN`.
fn push_text(alloc: Global, text: &mut Vec<u8>, words: &[u8]) -> Result<(), AllocError> {
    let mut shown = Vec::new(alloc);
    push_utf8(&mut shown, words)?;
    text.extend_from_slice(b"\"")?;
    for byte in shown.as_slice() {
        if *byte == b'"' || *byte == b'\\' {
            text.push(b'\\')?;
        }
        text.push(*byte)?;
    }
    text.extend_from_slice(b"\"")
}

fn push_offset(alloc: Global, text: &mut Vec<u8>, offset: i16) -> Result<(), AllocError> {
    if offset < 0 {
        text.push(b'-')?;
    }
    push_number(alloc, text, u128::from(offset.unsigned_abs()))
}

fn push_value(alloc: Global, text: &mut Vec<u8>, value: Told<'_>) -> Result<(), AllocError> {
    match value {
        Told::Text(words) => push_text(alloc, text, words),
        Told::Moment(at) => match at.and_then(moment_text) {
            Some(moment) => push_text(alloc, text, &moment),
            None => text.extend_from_slice(b"null"),
        },
        Told::Count(count) => push_number(alloc, text, u128::from(count)),
        Told::Offset(offset) => push_offset(alloc, text, offset),
        Told::Flag(true) => text.extend_from_slice(b"true"),
        Told::Flag(false) => text.extend_from_slice(b"false"),
        Told::Null => text.extend_from_slice(b"null"),
    }
}

fn push_members(
    alloc: Global,
    text: &mut Vec<u8>,
    members: &[(&str, Told<'_>)],
) -> Result<(), AllocError> {
    for (name, value) in members {
        if !text.ends_with(b"{") {
            text.extend_from_slice(b",")?;
        }
        push_text(alloc, text, name.as_bytes())?;
        text.extend_from_slice(b":")?;
        push_value(alloc, text, *value)?;
    }
    Ok(())
}

/// In the order in which they started.
fn push_running<'x>(
    alloc: Global,
    text: &mut Vec<u8>,
    jobs: &'x [JobNote],
    state: &'x State,
) -> Result<(), AllocError> {
    let mut front = b"{".as_slice();
    for (name, since) in state.starts.as_slice() {
        let name = name.as_slice();
        let late = state.is_late(name);
        let peers = if late {
            peers_of(jobs, name)
        } else {
            b"".as_slice()
        };
        let members = [
            ("run", Told::Text(name)),
            ("since", Told::Moment(Some(*since))),
            ("until", Told::Moment(end_of(jobs, name, *since))),
            ("late", Told::Flag(late)),
            ("may_meet", Told::Text(peers)),
        ];
        text.extend_from_slice(front)?;
        push_members(alloc, text, &members)?;
        text.extend_from_slice(b"}")?;
        front = b",{".as_slice();
    }
    Ok(())
}

fn push_left(alloc: Global, text: &mut Vec<u8>, left: &[Bytes]) -> Result<(), AllocError> {
    let mut front = b",\"left_running\":[".as_slice();
    for run in left {
        text.extend_from_slice(front)?;
        push_text(alloc, text, run.as_slice())?;
        front = b",".as_slice();
    }
    if left.is_empty() {
        return Ok(());
    }
    text.extend_from_slice(b"]")
}

/// The first job in the first minute in which one is due.
fn first_due<'a>(jobs: &'a [JobNote], records: &[JobRecord]) -> Option<(&'a JobNote, Minute)> {
    let mut first = None;
    let mut end = u64::MAX;
    for (note, record) in jobs.iter().zip(records) {
        if let Some(due) = record.due {
            if due.number() < end {
                end = due.number();
                first = Some((note, due));
            }
        }
    }
    first
}

/// A member such as `2024-07-01 02:30 CEST`, if the clock of the job's zone shows another minute.
fn push_local(
    alloc: Global,
    text: &mut Vec<u8>,
    note: &JobNote,
    minute: Minute,
) -> Result<(), AllocError> {
    let mut local = Vec::new(alloc);
    push_wall(&mut local, &note.zone, note.other_clock.as_slice(), minute)?;
    match local.as_slice() {
        [b' ', b'(', shown @ .., b')'] => {
            push_members(alloc, text, &[("next_due_local", Told::Text(shown))])
        }
        _ => Ok(()),
    }
}

/// `null` if nothing is due.
fn push_next(
    alloc: Global,
    text: &mut Vec<u8>,
    jobs: &[JobNote],
    records: &[JobRecord],
) -> Result<(), AllocError> {
    let Some((note, minute)) = first_due(jobs, records) else {
        return text.extend_from_slice(b"null");
    };
    let mut name = Vec::from_slice(alloc, note.front.as_slice())?;
    name.extend_from_slice(&date_text(minute))?;
    push_text(alloc, text, name.as_slice())?;
    push_local(alloc, text, note, minute)
}

/// None too if a run's file can't have its name, or memory runs out.
fn output_of(
    alloc: Global,
    folder: Option<&str>,
    note: &JobNote,
    record: &JobRecord,
) -> Option<String> {
    let (Some(folder), Some(run)) = (folder, &record.run) else {
        return None;
    };
    output_path(alloc, folder, run.as_slice(), note.name.as_slice()).ok()
}

/// Such as `line 3` or `job backup`.
fn job_in(front: &[u8]) -> &[u8] {
    let job = front.strip_suffix(b" due ").or(front.strip_suffix(b" at "));
    job.unwrap_or(front)
}

fn push_known(alloc: Global, text: &mut Vec<u8>, note: &JobNote) -> Result<(), AllocError> {
    let members = [
        ("job", Told::Text(job_in(note.front.as_slice()))),
        ("name", Told::Text(note.name.as_slice())),
        ("command", Told::Text(note.command.as_slice())),
        ("user", text_if_any(&note.user)),
    ];
    push_members(alloc, text, &members)
}

fn push_last(alloc: Global, text: &mut Vec<u8>, record: &JobRecord) -> Result<(), AllocError> {
    let seconds = match record.seconds {
        Some(seconds) => Told::Count(seconds),
        None => Told::Null,
    };
    let members = [
        ("last_run", text_if_any(&record.run)),
        ("last_start", Told::Moment(record.start)),
        ("last_end", Told::Moment(record.end)),
        ("last_status", text_if_any(&record.status)),
        ("last_seconds", seconds),
    ];
    push_members(alloc, text, &members)
}

fn push_due(
    alloc: Global,
    text: &mut Vec<u8>,
    note: &JobNote,
    due: Option<Minute>,
) -> Result<(), AllocError> {
    text.extend_from_slice(b",\"next_due\":")?;
    let Some(minute) = due else {
        return text.extend_from_slice(b"null");
    };
    push_text(alloc, text, &date_text(minute))?;
    push_local(alloc, text, note, minute)
}

fn push_output(
    alloc: Global,
    text: &mut Vec<u8>,
    folder: Option<&str>,
    note: &JobNote,
    record: &JobRecord,
) -> Result<(), AllocError> {
    let output = output_of(alloc, folder, note, record);
    let told = match &output {
        Some(path) => Told::Text(path.as_bytes()),
        None => Told::Null,
    };
    push_members(alloc, text, &[("last_output", told)])
}

fn push_job(
    alloc: Global,
    text: &mut Vec<u8>,
    folder: Option<&str>,
    note: &JobNote,
    record: &JobRecord,
) -> Result<(), AllocError> {
    text.extend_from_slice(b"{")?;
    push_known(alloc, text, note)?;
    push_last(alloc, text, record)?;
    push_output(alloc, text, folder, note, record)?;
    push_members(alloc, text, &[("failures", Told::Count(record.failures))])?;
    push_due(alloc, text, note, record.due)?;
    text.extend_from_slice(b"}")
}

fn push_jobs(
    alloc: Global,
    text: &mut Vec<u8>,
    setup: &Setup<'_>,
    records: &[JobRecord],
) -> Result<(), AllocError> {
    let mut front = b"".as_slice();
    text.extend_from_slice(b",\"jobs\":[")?;
    for (note, record) in setup.jobs.iter().zip(records) {
        text.extend_from_slice(front)?;
        push_job(alloc, text, setup.output, note, record)?;
        front = b",".as_slice();
    }
    text.extend_from_slice(b"]")
}

/// Leaves the jobs out if the whole would be too long to be read back.
fn end_object(
    alloc: Global,
    text: &mut Vec<u8>,
    setup: &Setup<'_>,
    records: &[JobRecord],
) -> Result<(), AllocError> {
    let length = text.len();
    push_jobs(alloc, text, setup, records)?;
    if text.len() as u64 + 2 > MEBIBYTE {
        text.truncate(length);
    }
    text.extend_from_slice(b"}\n")
}

fn push_setup(
    alloc: Global,
    text: &mut Vec<u8>,
    setup: &Setup<'_>,
    state: &State,
    at: u64,
) -> Result<(), AllocError> {
    let digits = hex::encode(alloc, &setup.digest)?;
    let jobs = match setup.anacrontab {
        Some(path) => Told::Text(path.as_bytes()),
        None => Told::Null,
    };
    let front = [
        ("version", Told::Text(setup.version.as_bytes())),
        ("at", Told::Moment(Some(at))),
        ("since", Told::Moment(state.since)),
        ("table", Told::Text(setup.table.as_bytes())),
        ("declarations", Told::Text(setup.declarations.as_bytes())),
        ("certificate", Told::Text(setup.certificate.as_bytes())),
    ];
    push_members(alloc, text, &front)?;
    let digest = [("certificate_sha256", Told::Text(digits.as_bytes()))];
    push_members(alloc, text, &digest)?;
    let rest = [
        ("anacrontab", jobs),
        ("capacity", Told::Count(setup.capacity)),
        ("offset", Told::Offset(setup.offset)),
        ("stopping", Told::Flag(state.is_stopping)),
    ];
    push_members(alloc, text, &rest)
}

/// It is there only while those files are run.
fn push_accepted(alloc: Global, text: &mut Vec<u8>, state: &State) -> Result<(), AllocError> {
    if !state.has_last_accepted {
        return Ok(());
    }
    let accepted = [("last_accepted", Told::Flag(true))];
    push_members(alloc, text, &accepted)
}

/// At a moment in seconds since 1970-01-01 00:00 UTC. The names of runs are in it as a log shows
/// them.
pub(crate) fn state_text(
    alloc: Global,
    setup: &Setup<'_>,
    state: &State,
    at: u64,
) -> Result<Vec<u8>, AllocError> {
    let counts = [
        ("skipped", Told::Count(state.counts.skipped)),
        ("overruns", Told::Count(state.counts.overruns)),
        ("outages", Told::Count(state.counts.outages)),
        ("missed", Told::Count(state.missed)),
        ("not_started", Told::Count(state.counts.not_started)),
        (
            "stamps_not_written",
            Told::Count(state.counts.stamps_not_written),
        ),
        ("stamp_fault_at", Told::Moment(state.stamp_fault_at)),
    ];
    let mut text = Vec::from_slice(alloc, b"{".as_slice())?;
    push_setup(alloc, &mut text, setup, state, at)?;
    push_accepted(alloc, &mut text, state)?;
    text.extend_from_slice(b",\"running\":[")?;
    push_running(alloc, &mut text, setup.jobs, state)?;
    text.extend_from_slice(b"],\"waiting\":[")?;
    for name in state.waiting.as_slice() {
        if !text.ends_with(b"[") {
            text.extend_from_slice(b",")?;
        }
        push_text(alloc, &mut text, name.as_slice())?;
    }
    text.extend_from_slice(b"]")?;
    push_left(alloc, &mut text, state.left.as_slice())?;
    text.extend_from_slice(b",\"next_due\":")?;
    push_next(alloc, &mut text, setup.jobs, state.records.as_slice())?;
    push_members(alloc, &mut text, &counts)?;
    if setup.has_limits {
        let limits = [("ended_at_limit", Told::Count(state.counts.limits))];
        push_members(alloc, &mut text, &limits)?;
    }
    end_object(alloc, &mut text, setup, state.records.as_slice())?;
    Ok(text)
}
