//! The report on jobs and logs, a line each.
use crate::clock::push_moment;
use crate::evidence::{Evidence, Ran};
use crate::job::Job;
use crate::learned::max_of_job;
use crate::log::Log;
use crate::max::Factor;
use cs_civil::{Bytes, push_number};
use cs_crontab::{Line, When};
use cs_place::{Place, place_of, push_place_text, push_shown};
use cs_retrace::{JobName, LONGEST_MAX};
use cs_schedule::least_gap;
use std::alloc::{AllocError, Global};

/// Fewer runs than this say little of how long a job may take.
const FEW_RUNS: u64 = 10;

const NO_ENDS: &[u8] = b"note: the logs tell when jobs start, and never when they end. \
    Debian's cron logs the ends too, with one number for both, \
    with EXTRA_OPTS=\"-L 15\" in /etc/default/cron\n";

const LOST: &[u8] = b"note: ends left out, since no line tells of the start: ";

const UNENDED: &[u8] = b"note: starts of which no line tells the end: ";

const UNCLEAR: &[u8] =
    b"note: ends left out, since the clock went back or the log doesn't tell the year: ";

const TOO_LONG: &[u8] = b"note: lines left out, since they have more than 8192 bytes: ";

const NO_STARTS: &[u8] =
    b"note: no line of the logs tells that a job starts. learn reads syslog files, \
    journalctl -o short, short-iso or json, and logs of run\n";

/// So many lines and jobs without runs are listed.
const MOST_LISTED: u64 = 20;

type Done = Result<(), AllocError>;

/// `1 run`, or `2 runs`.
fn counted(alloc: Global, count: u64, what: &str) -> Result<String, AllocError> {
    let ending = if count == 1 { "" } else { "s" };
    format!(in alloc; "{count} {what}{ending}")
}

/// Adds `line 3`, or `job cron.daily`, as a terminal can show it.
fn push_name(alloc: Global, text: &mut Vec<u8>, name: &JobName) -> Done {
    push_shown(text, name.text(alloc)?.as_slice())
}

/// Begins a note: `note: line 3: `.
fn push_note(alloc: Global, text: &mut Vec<u8>, name: &JobName) -> Done {
    text.extend_from_slice(b"note: ")?;
    push_name(alloc, text, name)?;
    text.extend_from_slice(b": ")
}

/// Adds a time in hours, minutes and seconds, without those that are 0: `20 s`, `1 h 3 min 16 s`.
fn push_time(alloc: Global, text: &mut Vec<u8>, seconds: u64) -> Done {
    if seconds == 0 {
        return text.extend_from_slice(b"0 s");
    }
    let parts = [
        (seconds / 3_600, "h"),
        (seconds / 60 % 60, "min"),
        (seconds % 60, "s"),
    ];
    let mut blank = "";
    for (count, unit) in parts {
        if count > 0 {
            text.extend_from_slice(format!(in alloc; "{blank}{count} {unit}")?.as_bytes())?;
            blank = " ";
        }
    }
    Ok(())
}

/// `2 runs (fewer than 10), median 20 s, longest 1 min 30 s from Nov  7 09:17:01`
fn push_runs(alloc: Global, text: &mut Vec<u8>, evidence: &Evidence, longest: Ran) -> Done {
    text.extend_from_slice(counted(alloc, evidence.count, "run")?.as_bytes())?;
    if evidence.count < FEW_RUNS {
        text.extend_from_slice(format!(in alloc; " (fewer than {FEW_RUNS})")?.as_bytes())?;
    }
    match evidence.median() {
        Some(259_201) => text.extend_from_slice(b", median more than 72 h")?,
        Some(median) => {
            text.extend_from_slice(b", median ")?;
            push_time(alloc, text, median)?;
        }
        None => {}
    }
    text.extend_from_slice(b", longest ")?;
    push_time(alloc, text, longest.seconds)?;
    text.extend_from_slice(b" from ")?;
    push_moment(text, longest.began)
}

/// `line 3: 2 runs (fewer than 10), .., max 3 min`, with the line's place after its number, if it
/// has one: `, /etc/cron.d/munin:12 (munin)`. Nothing where no run has ended.
fn push_row(
    alloc: Global,
    text: &mut Vec<u8>,
    place: Option<&Place>,
    job: &Job,
    factor: Factor,
) -> Done {
    let Some(longest) = job.evidence.longest else {
        return Ok(());
    };
    push_name(alloc, text, &job.name)?;
    if let Some(place) = place {
        text.extend_from_slice(b", ")?;
        push_place_text(text, place)?;
    }
    text.extend_from_slice(b": ")?;
    push_runs(alloc, text, &job.evidence, longest)?;
    if let Some(max) = max_of_job(&job.evidence, factor) {
        text.extend_from_slice(b", max ")?;
        push_number(alloc, text, u128::from(max))?;
        text.extend_from_slice(b" min")?;
    }
    text.extend_from_slice(b"\n")
}

/// `3 lines and 1 job`, or either alone.
fn lines_and_jobs(alloc: Global, lines: u64, others: u64) -> Result<String, AllocError> {
    let of_lines = counted(alloc, lines, "line")?;
    let of_jobs = counted(alloc, others, "job")?;
    match (lines, others) {
        (_, 0) => Ok(of_lines),
        (0, _) => Ok(of_jobs),
        _ => format!(in alloc; "{of_lines} and {of_jobs}"),
    }
}

/// Adds the number of the line, or the identifier.
fn push_listed(alloc: Global, text: &mut Vec<u8>, name: &JobName) -> Done {
    match name {
        JobName::Line(number) => push_number(alloc, text, u128::from(*number)),
        JobName::Identifier(identifier) => push_shown(text, identifier.as_slice()),
    }
}

/// `no ended runs of 3 lines and 1 job: 1, 4, 7, cron.daily`, and after the first 20 ` and 3 more`.
fn push_without_runs(alloc: Global, text: &mut Vec<u8>, jobs: &[Job]) -> Done {
    let mut listed = Vec::new(alloc);
    let (mut count, mut others) = (0u64, 0u64);
    for job in jobs {
        if job.evidence.longest.is_none() {
            count = count.saturating_add(1);
            others = others.saturating_add(if job.is_anacron() { 1 } else { 0 });
            if count <= MOST_LISTED {
                listed.extend_from_slice(if count == 1 { b" " } else { b", ".as_slice() })?;
                push_listed(alloc, &mut listed, &job.name)?;
            }
        }
    }
    if count == 0 {
        return Ok(());
    }
    text.extend_from_slice(b"no ended runs of ")?;
    let counts = lines_and_jobs(alloc, count.saturating_sub(others), others)?;
    text.extend_from_slice(counts.as_bytes())?;
    text.extend_from_slice(b":")?;
    text.extend_from_slice(listed.as_slice())?;
    let more = count.saturating_sub(MOST_LISTED);
    if more > 0 {
        text.extend_from_slice(format!(in alloc; " and {more} more")?.as_bytes())?;
    }
    text.extend_from_slice(b"\n")
}

/// Notes runs that took longer than the least time to the next due minute.
fn push_overrun(alloc: Global, text: &mut Vec<u8>, line: &Line, evidence: &Evidence) -> Done {
    let When::At(schedule) = line.when() else {
        return Ok(());
    };
    let Some(gap) = least_gap(schedule) else {
        return Ok(());
    };
    let (number, count) = (line.number(), evidence.longer_than(gap));
    if count == 0 {
        return Ok(());
    }
    let runs = counted(alloc, count, "run")?;
    let note = format!(in alloc;
        "note: line {number}: {runs} took longer than the {gap} min that may lie between its due \
         minutes\n"
    )?;
    text.extend_from_slice(note.as_bytes())
}

fn push_unended(alloc: Global, text: &mut Vec<u8>, job: &Job) -> Done {
    let Some(start) = job.evidence.longest_open else {
        return Ok(());
    };
    let count = job.evidence.unended;
    let starts = match count {
        1 => "start without an end, that of",
        _ => "starts without an end, such as that of",
    };
    push_note(alloc, text, &job.name)?;
    text.extend_from_slice(format!(in alloc; "{count} {starts} ")?.as_bytes())?;
    push_moment(text, start.began)?;
    text.extend_from_slice(b"\n")
}

/// Notes a run that is too long for a max.
fn push_too_long(alloc: Global, text: &mut Vec<u8>, job: &Job) -> Done {
    let what = match job.evidence.longest_open {
        Some(start) if start.seconds / 60 >= LONGEST_MAX => {
            "the time since a start without an end may be"
        }
        _ => "its longest run makes",
    };
    push_note(alloc, text, &job.name)?;
    text.extend_from_slice(what.as_bytes())?;
    text.extend_from_slice(b" more than 4320 min, so its max isn't learned\n")
}

/// Notes runs of the line that belonged to another table.
fn push_refused(alloc: Global, text: &mut Vec<u8>, number: u32, refused: u64) -> Done {
    if refused == 0 {
        return Ok(());
    }
    let runs = counted(alloc, refused, "run")?;
    let note = format!(in alloc;
        "note: line {number}: {runs} left out, since the log lists another command for it, or none\n"
    )?;
    text.extend_from_slice(note.as_bytes())
}

/// Notes the first job above whose runs the log doesn't distinguish from this one's.
fn push_alike(
    alloc: Global,
    text: &mut Vec<u8>,
    lines: &[Line],
    jobs: &[Job],
    place: usize,
) -> Done {
    let (Some(line), Some(job)) = (lines.get(place), jobs.get(place)) else {
        return Ok(());
    };
    for (other, known) in lines.iter().zip(jobs.iter()).take(place) {
        if job.is_like(known) {
            let (first, second) = (other.number(), line.number());
            let note = format!(in alloc;
                "note: lines {first} and {second} have one command: each run counts for both\n"
            )?;
            return text.extend_from_slice(note.as_bytes());
        }
    }
    Ok(())
}

/// Adds a note and its count, unless that is 0.
fn push_left_out(alloc: Global, text: &mut Vec<u8>, told: &[u8], count: u64) -> Done {
    if count == 0 {
        return Ok(());
    }
    text.extend_from_slice(told)?;
    push_number(alloc, text, u128::from(count))?;
    text.extend_from_slice(b"\n")
}

fn push_compressed(text: &mut Vec<u8>, paths: &[Bytes]) -> Done {
    for path in paths {
        text.extend_from_slice(b"note: ")?;
        push_shown(text, path.as_slice())?;
        text.extend_from_slice(b" is compressed: give it by zcat, xzcat or zstdcat\n")?;
    }
    Ok(())
}

/// Notes what the logs lack.
fn push_tally(alloc: Global, text: &mut Vec<u8>, log: &Log) -> Done {
    let (tally, anacron) = (log.tally, log.anacron);
    push_compressed(text, log.compressed.as_slice())?;
    let mut unended = anacron.unended;
    if tally.has_no_ends() {
        text.extend_from_slice(NO_ENDS)?;
    } else {
        if tally.begun == 0 && anacron.begun == 0 && log.compressed.is_empty() {
            text.extend_from_slice(NO_STARTS)?;
        }
        unended = unended.saturating_add(tally.unended);
    }
    push_left_out(alloc, text, UNENDED, unended)?;
    let lost = tally.no_beginning.saturating_add(anacron.no_beginning);
    push_left_out(alloc, text, LOST, lost)?;
    let unclear = tally.unclear.saturating_add(anacron.unclear);
    push_left_out(alloc, text, UNCLEAR, unclear)?;
    push_left_out(alloc, text, TOO_LONG, tally.too_long)
}

/// Adds the notes on jobs; `lines` are those of the first jobs.
fn push_notes(
    alloc: Global,
    text: &mut Vec<u8>,
    lines: &[Line],
    log: &Log,
    factor: Factor,
) -> Done {
    let jobs = log.jobs();
    for (place, job) in jobs.iter().enumerate() {
        if log.logs_ends(job) {
            push_unended(alloc, text, job)?;
        }
        if job.evidence.count > 0 && max_of_job(&job.evidence, factor).is_none() {
            push_too_long(alloc, text, job)?;
        }
        if let Some(line) = lines.get(place) {
            push_overrun(alloc, text, line, &job.evidence)?;
            push_refused(alloc, text, line.number(), job.refused)?;
            push_alike(alloc, text, lines, jobs, place)?;
        }
    }
    Ok(())
}

/// The report: a line for each job, and then the notes.
pub(crate) fn summary_of(
    alloc: Global,
    lines: &[Line],
    places: &[Place],
    log: &Log,
    factor: Factor,
) -> Result<Bytes, AllocError> {
    let mut text = Vec::new(alloc);
    for (i, job) in log.jobs().iter().enumerate() {
        let place = match lines.get(i) {
            Some(line) => place_of(places, line.number()),
            None => None,
        };
        push_row(alloc, &mut text, place, job, factor)?;
    }
    push_without_runs(alloc, &mut text, log.jobs())?;
    push_notes(alloc, &mut text, lines, log, factor)?;
    push_tally(alloc, &mut text, log)?;
    Ok(Bytes::from_vec(text))
}
