ghost use Rattle.std.specs.Prelude.{◌≡◌, ◌-◌, ◌/◌, IfOk, IfSome, false};
ghost use Rattle.std.specs.List.{list_any};
ghost use Rattle.cs_place.specs.Places.{is_control};
ghost use Rattle.cs_machine.specs.Report.{has_fault, is_old};
ghost use Rattle.cs_machine.specs.RunLog.{moment_text};

use crate::line_text::moment_text;
use crate::state::LAST_ACCEPTED;
use cs_civil::{push_number, read_minute};
use cs_json::{BAD_SHAPE, Misread, member, member_or, parse, value_at};
use serde_json::Value;
use std::alloc::{AllocError, Global};

/// A daemon's state at a moment, read back.
#[derive(Drop)]
pub struct Report {
    /// In seconds since 1970-01-01 00:00 UTC.
    at: u64,
    is_stopping: bool,
    has_late: bool,
    /// Whether a job's last run failed.
    has_failed: bool,
    has_last_accepted: bool,
    stamp_fault_at: Option<u64>,
    /// Its text for people.
    lines: Vec<u8>,
}

/// So long a state is fresh, and a stamp that couldn't be written counts.
const SECONDS: u64 = 120;

/// In seconds since 1970-01-01 00:00 UTC, from 1970-01-02 on, of a text like
/// `2024-09-13T23:30:01Z`.
pub(crate) fn read_moment(text: &[u8]) -> Option<u64>
    ensures { IfSome result (λ at. text.now ≡ moment_text at) }
{
    let (front, behind) = text.split_at_checked(16)?;
    let [_, tens, ones, _] = behind else {
        return None;
    };
    let mut minute = [b' '; 16];
    minute.copy_from_slice(front);
    minute[10] = b' ';
    let minute = read_minute(&minute).ok()?;
    let (tens, ones) = (tens.checked_sub(b'0')?, ones.checked_sub(b'0')?);
    let at = minute.number() * 60 + u64::from(tens) * 10 + u64::from(ones);
    let moment = moment_text(at)?;
    if text == moment.as_slice() {
        Some(at)
    } else {
        None
    }
}

fn has_control(bytes: &[u8]) -> bool
    ensures { result ≡ list_any is_control bytes.now }
{
    bytes.iter().any(|byte| *byte < 32 || *byte == 127)
}

fn plain_text(value: &Value) -> Result<&str, Misread>
    ensures { IfOk result (λ text. list_any is_control text.now ≡ false) }
{
    match value.as_str() {
        Some(text) if !has_control(text.as_bytes()) => Ok(text),
        _ => Err(BAD_SHAPE),
    }
}

/// None if it is null, or absent, as in earlier versions.
fn text_if_told(told: Option<&Value>) -> Result<Option<&str>, Misread> {
    let Some(told) = told else {
        return Ok(None);
    };
    if told.is_null() {
        return Ok(None);
    }
    Ok(Some(plain_text(told)?))
}

fn text_at<'v>(value: &'v Value, name: &str) -> Result<&'v str, Misread> {
    plain_text(value_at(value, name)?)
}

fn seconds_at(value: &Value, name: &str) -> Result<u64, Misread> {
    read_moment(text_at(value, name)?.as_bytes()).ok_or(BAD_SHAPE)
}

fn seconds_if_told(moment: Option<&str>) -> Result<Option<u64>, Misread> {
    let Some(moment) = moment else {
        return Ok(None);
    };
    match read_moment(moment.as_bytes()) {
        Some(at) => Ok(Some(at)),
        None => Err(BAD_SHAPE),
    }
}

/// Earlier versions write none; else it has 64 hexadecimal digits, in lower case.
fn see_checksum(value: &Value) -> Result<(), Misread> {
    let Some(told) = value.get("certificate_sha256") else {
        return Ok(());
    };
    let text = plain_text(told)?.as_bytes();
    for byte in text {
        if !matches!(*byte, b'0'..=b'9' | b'a'..=b'f') {
            return Err(BAD_SHAPE);
        }
    }
    if text.len() == 64 {
        Ok(())
    } else {
        Err(BAD_SHAPE)
    }
}

fn items_at<'v>(value: &'v Value, name: &str) -> Result<&'v [Value], Misread> {
    match value_at(value, name)?.as_array() {
        Some(items) => Ok(items.as_slice()),
        None => Err(BAD_SHAPE),
    }
}

fn push_told(lines: &mut Vec<u8>, texts: &[(&str, Option<&str>)]) -> Result<(), AllocError> {
    for (front, told) in texts {
        if let Some(told) = told {
            lines.extend_from_slice(front.as_bytes())?;
            lines.extend_from_slice(told.as_bytes())?;
        }
    }
    Ok(())
}

/// Numbers below 2^64, each after its front.
fn push_counts(
    lines: &mut Vec<u8>,
    value: &Value,
    members: &[(&str, &str)],
) -> Result<(), Misread> {
    let alloc = *lines.allocator();
    for (front, name) in members {
        let count = value_at(value, name)?.as_u64().ok_or(BAD_SHAPE)?;
        lines.extend_from_slice(front.as_bytes())?;
        push_number(alloc, lines, u128::from(count))?;
    }
    Ok(())
}

fn push_head(lines: &mut Vec<u8>, value: &Value) -> Result<(), Misread> {
    let (since, at) = (text_at(value, "since")?, text_at(value, "at")?);
    let table = text_at(value, "table")?;
    let declarations = text_at(value, "declarations")?;
    let certificate = text_at(value, "certificate")?;
    let jobs = text_if_told(Some(value_at(value, "anacrontab")?))?;
    let told = [
        ("running since ", Some(since)),
        (", seen at ", Some(at)),
        ("\n", Some(table)),
        (" with ", Some(declarations)),
        (" and ", Some(certificate)),
        (" and ", jobs),
    ];
    push_told(lines, &told)?;
    push_counts(lines, value, &[(", capacity ", "capacity")])?;
    lines.extend_from_slice(b"\n")?;
    Ok(())
}

/// Returns whether the run is late.
fn push_run(alloc: Global, lines: &mut Vec<u8>, run: &Value) -> Result<bool, Misread> {
    seconds_at(run, "since")?;
    let until = text_if_told(run.get("until"))?;
    seconds_if_told(until)?;
    let peers = match run.get("may_meet") {
        Some(told) => plain_text(told)?,
        None => "",
    };
    let late = member(alloc, run, "late")?;
    let (name, since) = (text_at(run, "run")?, text_at(run, "since")?);
    let told = [
        ("", Some(name)),
        (" runs since ", Some(since)),
        (" until ", until),
        (", late", if late { Some("") } else { None }),
        (
            ", may meet ",
            if peers.is_empty() { None } else { Some(peers) },
        ),
        ("\n", Some("")),
    ];
    push_told(lines, &told)?;
    Ok(late)
}

fn push_running(alloc: Global, lines: &mut Vec<u8>, value: &Value) -> Result<bool, Misread> {
    let mut has_late = false;
    for run in items_at(value, "running")? {
        has_late |= push_run(alloc, lines, run)?;
    }
    Ok(has_late)
}

/// It is there only while a daemon waits for runs of an earlier one.
fn push_left(lines: &mut Vec<u8>, value: &Value) -> Result<(), Misread> {
    if value.get("left_running").is_none() {
        return Ok(());
    }
    for run in items_at(value, "left_running")? {
        let front = "waiting for a run of an earlier daemon: ";
        push_told(lines, &[(front, Some(plain_text(run)?)), ("\n", Some(""))])?;
    }
    Ok(())
}

/// When that is by the clock of the zone, in brackets, if that shows another minute.
fn push_local(lines: &mut Vec<u8>, value: &Value) -> Result<(), Misread> {
    let Some(local) = text_if_told(value.get("next_due_local"))? else {
        return Ok(());
    };
    push_told(lines, &[(" (", Some(local)), (")", Some(""))])?;
    Ok(())
}

fn push_waiting(lines: &mut Vec<u8>, value: &Value) -> Result<(), Misread> {
    for name in items_at(value, "waiting")? {
        let name = plain_text(name)?;
        push_told(lines, &[(name, Some(" waits\n"))])?;
    }
    let Some(next) = text_if_told(value.get("next_due"))? else {
        return Ok(());
    };
    push_told(lines, &[("next is ", Some(next))])?;
    push_local(lines, value)?;
    lines.extend_from_slice(b"\n")?;
    Ok(())
}

/// Earlier versions write no `missed`; `ended_at_limit` is there only if runs are ended in time.
fn push_faults(alloc: Global, lines: &mut Vec<u8>, value: &Value) -> Result<(), Misread> {
    let members = [
        ("skipped ", "skipped"),
        (", overruns ", "overruns"),
        (", not started ", "not_started"),
        (", outages ", "outages"),
        (", stamps not written ", "stamps_not_written"),
    ];
    push_counts(lines, value, &members)?;
    let missed = match value.get("missed") {
        Some(count) => count.as_u64().ok_or(BAD_SHAPE)?,
        None => 0,
    };
    lines.extend_from_slice(b", missed ")?;
    push_number(alloc, lines, u128::from(missed))?;
    if value.get("ended_at_limit").is_some() {
        push_counts(
            lines,
            value,
            &[(", ended at their limit ", "ended_at_limit")],
        )?;
    }
    lines.extend_from_slice(b"\n")?;
    Ok(())
}

/// The name too, unless that ends the front of its runs' names, as of a job of the anacrontab.
fn push_job_name(lines: &mut Vec<u8>, job: &Value) -> Result<(), Misread> {
    let (front, name) = (text_at(job, "job")?, text_at(job, "name")?);
    let name = if front.ends_with(name) {
        None
    } else {
        Some(name)
    };
    push_told(lines, &[("", Some(front)), (" ", name), (":", Some(""))])?;
    Ok(())
}

/// When a job is due next, and when its last run began.
fn push_runs(lines: &mut Vec<u8>, job: &Value) -> Result<(), Misread> {
    let next = text_if_told(job.get("next_due"))?;
    let last = text_if_told(job.get("last_start"))?;
    let comma = if next.is_some() { "," } else { "" };
    let front = if last.is_some() {
        " last "
    } else {
        " no run yet"
    };
    let last = last.unwrap_or("");
    push_told(lines, &[(" next ", next)])?;
    push_local(lines, job)?;
    push_told(lines, &[(comma, Some(front)), ("", Some(last))])?;
    Ok(())
}

/// How a job's last run ended, unless a later one goes on.
fn push_end(alloc: Global, lines: &mut Vec<u8>, job: &Value) -> Result<(), Misread> {
    let start = seconds_if_told(text_if_told(job.get("last_start"))?)?;
    let end = seconds_if_told(text_if_told(job.get("last_end"))?)?;
    let Some(status) = text_if_told(job.get("last_status"))? else {
        return Ok(());
    };
    if end.unwrap_or(0) < start.unwrap_or(0) {
        return Ok(());
    }
    let front = if status.as_bytes().contains(&b' ') {
        ", "
    } else {
        ", status "
    };
    push_told(lines, &[(front, Some(status))])?;
    let Some(seconds) = value_at(job, "last_seconds")?.as_u64() else {
        return Ok(());
    };
    push_told(lines, &[(" after ", Some(""))])?;
    push_number(alloc, lines, u128::from(seconds))?;
    push_told(lines, &[(" s", Some(""))])?;
    Ok(())
}

/// Returns whether there are any.
fn push_failures(alloc: Global, lines: &mut Vec<u8>, job: &Value) -> Result<bool, Misread> {
    let failures = value_at(job, "failures")?.as_u64().ok_or(BAD_SHAPE)?;
    if failures == 1 {
        lines.extend_from_slice(b", failed once")?;
    }
    if failures > 1 {
        lines.extend_from_slice(b", failed ")?;
        push_number(alloc, lines, u128::from(failures))?;
        lines.extend_from_slice(b" times in a row")?;
    }
    Ok(failures > 0)
}

/// Earlier versions write none. Returns whether a job's last run failed.
fn push_jobs(alloc: Global, lines: &mut Vec<u8>, value: &Value) -> Result<bool, Misread> {
    let mut has_failed = false;
    if value.get("jobs").is_none() {
        return Ok(has_failed);
    }
    for job in items_at(value, "jobs")? {
        push_job_name(lines, job)?;
        push_runs(lines, job)?;
        push_end(alloc, lines, job)?;
        has_failed |= push_failures(alloc, lines, job)?;
        let output = text_if_told(job.get("last_output"))?;
        push_told(lines, &[(", output ", output), ("\n", Some(""))])?;
    }
    Ok(has_failed)
}

fn report_of(alloc: Global, value: &Value) -> Result<Report, Misread> {
    let at = seconds_at(value, "at")?;
    seconds_at(value, "since")?;
    let stamp_fault_at = text_if_told(Some(value_at(value, "stamp_fault_at")?))?;
    let stamp_fault_at = seconds_if_told(stamp_fault_at)?;
    see_checksum(value)?;
    let is_stopping = member(alloc, value, "stopping")?;
    let has_last_accepted = member_or(alloc, value, "last_accepted", false)?;
    let mut lines = Vec::new(alloc);
    push_head(&mut lines, value)?;
    if has_last_accepted {
        lines.extend_from_slice(LAST_ACCEPTED)?;
        lines.extend_from_slice(b"\n")?;
    }
    if is_stopping {
        lines.extend_from_slice(b"nothing more is started\n")?;
    }
    push_left(&mut lines, value)?;
    let has_late = push_running(alloc, &mut lines, value)?;
    push_waiting(&mut lines, value)?;
    push_faults(alloc, &mut lines, value)?;
    let has_failed = push_jobs(alloc, &mut lines, value)?;
    Ok(Report {
        at,
        is_stopping,
        has_late,
        has_failed,
        has_last_accepted,
        stamp_fault_at,
        lines,
    })
}

/// Reads the text of a daemon's state. A fault if it isn't JSON, a member is absent or has another
/// form, or a text in it holds a control character; other members are ignored. `next_due`,
/// `next_due_local`, `missed`, `ended_at_limit`, `certificate_sha256`, `left_running`,
/// `last_accepted`, `jobs`, and a run's `until` and `may_meet` may be absent.
pub fn read_report(alloc: Global, state: &[u8]) -> Result<Report, Misread> {
    let value = parse(alloc, state)?;
    report_of(alloc, &value)
}

impl Report {
    /// Returns its text for people, in lines.
    pub fn into_lines(self) -> Vec<u8> {
        self.lines
    }

    /// Whether a run is late, a job's last run failed, the files that were accepted last are run, or
    /// a stamp couldn't be written in the two minutes before this state.
    pub fn has_fault(&self) -> bool
        ensures { result ≡ has_fault self.now.at self.now.stamp_fault_at self.now.has_late
            self.now.has_failed self.now.has_last_accepted }
    {
        match self.stamp_fault_at {
            Some(fault_at) if self.at.saturating_sub(fault_at) <= SECONDS => true,
            _ => self.has_late || self.has_failed || self.has_last_accepted,
        }
    }

    /// How many whole minutes old it is at this moment, in seconds since 1970-01-01 00:00 UTC. 0 if
    /// the clock was put back.
    pub fn minutes_old(&self, now: u64) -> u64
        ensures { result ≡ (now - self.now.at) / 60 }
    {
        now.saturating_sub(self.at) / 60
    }

    /// Whether it is more than two minutes old at this moment, in the same seconds, and its daemon
    /// still starts runs.
    pub fn is_old(&self, now: u64) -> bool
        ensures { result ≡ is_old self.now.is_stopping self.now.at now }
    {
        !self.is_stopping && now.saturating_sub(self.at) > SECONDS
    }
}
