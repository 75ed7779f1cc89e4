//! A daemon's state as metrics, in the text format of Prometheus.
use crate::report::read_moment;
use cs_civil::{push_number, read_minute};
use cs_json::{Misread, parse};
use serde_json::Value;
use std::alloc::{AllocError, Global};

/// How a number is in a member of the state.
#[derive(Clone, Copy)]
enum Form {
    /// In seconds since 1970-01-01 00:00 UTC.
    Moment,
    /// As that, of a minute of the operator's clock.
    Minute,
    Count,
    /// How many items it has.
    Length,
    /// 1 if it is true, else 0.
    Flag,
    /// 1 if it isn't 0, else 0.
    Any,
}

/// Its name without `cronsafe_`, the member of the state that its number is in, how, and what it is.
/// A counter ends with `_total`; the others are gauges.
#[derive(Clone, Copy)]
struct Family(&'static str, &'static str, Form, &'static str);

const UP: Family = Family(
    "up",
    "",
    Form::Flag,
    "Whether a daemon uses the folder of stamps.",
);

const OF_DAEMON: [Family; 11] = [
    Family(
        "state_timestamp_seconds",
        "at",
        Form::Moment,
        "When the daemon wrote this state.",
    ),
    Family(
        "start_timestamp_seconds",
        "since",
        Form::Moment,
        "When the daemon began with these files.",
    ),
    Family("running", "running", Form::Length, "How many runs go on."),
    Family("waiting", "waiting", Form::Length, "How many runs wait."),
    Family(
        "last_accepted",
        "last_accepted",
        Form::Flag,
        "Whether the files that were accepted last are run.",
    ),
    Family(
        "skipped_total",
        "skipped",
        Form::Count,
        "How many runs were skipped.",
    ),
    Family(
        "overruns_total",
        "overruns",
        Form::Count,
        "How many runs were late.",
    ),
    Family(
        "outages_total",
        "outages",
        Form::Count,
        "How many gaps the clock's minutes had.",
    ),
    Family(
        "missed_total",
        "missed",
        Form::Count,
        "How many runs of the crontab were missed.",
    ),
    Family(
        "not_started_total",
        "not_started",
        Form::Count,
        "How many runs couldn't be started.",
    ),
    Family(
        "stamps_not_written_total",
        "stamps_not_written",
        Form::Count,
        "How often a stamp couldn't be written.",
    ),
];

const OF_JOB: [Family; 6] = [
    Family(
        "job_last_start_timestamp_seconds",
        "last_start",
        Form::Moment,
        "When the job's last run began.",
    ),
    Family(
        "job_last_end_timestamp_seconds",
        "last_end",
        Form::Moment,
        "When the run ended that ended last.",
    ),
    Family(
        "job_last_duration_seconds",
        "last_seconds",
        Form::Count,
        "How long the run took that ended last.",
    ),
    Family(
        "job_last_failed",
        "failures",
        Form::Any,
        "Whether the run failed that ended last.",
    ),
    Family(
        "job_failures_in_a_row",
        "failures",
        Form::Count,
        "How many runs failed since the last success.",
    ),
    Family(
        "job_next_due_timestamp_seconds",
        "next_due",
        Form::Minute,
        "When the job is due next.",
    ),
];

fn text_in<'v>(value: &'v Value, name: &str) -> Option<&'v [u8]> {
    Some(value.get(name)?.as_str()?.as_bytes())
}

/// None before 1970.
fn seconds_of(minute: &[u8], offset: i64) -> Option<u64> {
    let number = i64::try_from(read_minute(minute).ok()?.number()).ok()?;
    u64::try_from(number.checked_sub(offset)?.checked_mul(60)?).ok()
}

fn is_set(flag: &Value) -> bool {
    match flag.as_bool() {
        Some(is_set) => is_set,
        None => false,
    }
}

/// None if there is none, or it has another form.
fn number_in(value: &Value, family: Family, offset: Option<i64>) -> Option<u64> {
    let Family(_, member, form, _) = family;
    let found = value.get(member);
    match form {
        Form::Moment => read_moment(found?.as_str()?.as_bytes()),
        Form::Minute => seconds_of(found?.as_str()?.as_bytes(), offset?),
        Form::Count => found?.as_u64(),
        Form::Length => Some(found?.as_array()?.len() as u64),
        Form::Flag => match found {
            Some(flag) => Some(u64::from(is_set(flag))),
            None => Some(0),
        },
        Form::Any => Some(u64::from(found?.as_u64()? > 0)),
    }
}

fn push_all(text: &mut Vec<u8>, parts: &[&str]) -> Result<(), AllocError> {
    for part in parts {
        text.extend_from_slice(part.as_bytes())?;
    }
    Ok(())
}

fn push_head(text: &mut Vec<u8>, family: Family) -> Result<(), AllocError> {
    let Family(name, _, _, help) = family;
    let kind = if name.ends_with("_total") {
        " counter\n"
    } else {
        " gauge\n"
    };
    let (front, between) = ("# HELP cronsafe_", "\n# TYPE cronsafe_");
    push_all(text, &[front, name, " ", help, between, name, kind])
}

fn push_sample(
    alloc: Global,
    text: &mut Vec<u8>,
    family: Family,
    labels: &[u8],
    number: u64,
) -> Result<(), AllocError> {
    push_all(text, &["cronsafe_", family.0])?;
    text.extend_from_slice(labels)?;
    text.extend_from_slice(b" ")?;
    push_number(alloc, text, u128::from(number))?;
    text.extend_from_slice(b"\n")
}

fn push_label(text: &mut Vec<u8>, front: &[u8], value: &[u8]) -> Result<(), AllocError> {
    text.extend_from_slice(front)?;
    for byte in value {
        if *byte == b'\n' {
            text.extend_from_slice(b"\\n")?;
            continue;
        }
        if *byte == b'"' || *byte == b'\\' {
            text.push(b'\\')?;
        }
        text.push(*byte)?;
    }
    text.extend_from_slice(b"\"")
}

/// `{job="line 3",name="backup"}`
fn labels_of(alloc: Global, job: &Value) -> Result<Vec<u8>, AllocError> {
    let mut labels = Vec::new(alloc);
    let none = b"".as_slice();
    push_label(&mut labels, b"{job=\"", text_in(job, "job").unwrap_or(none))?;
    push_label(
        &mut labels,
        b",name=\"",
        text_in(job, "name").unwrap_or(none),
    )?;
    labels.extend_from_slice(b"}")?;
    Ok(labels)
}

fn push_of_daemon(alloc: Global, text: &mut Vec<u8>, value: &Value) -> Result<(), AllocError> {
    for family in OF_DAEMON.as_slice() {
        if let Some(number) = number_in(value, *family, None) {
            push_head(text, *family)?;
            push_sample(alloc, text, *family, b"", number)?;
        }
    }
    Ok(())
}

/// The jobs of one family, after its head if there are any.
fn push_family(
    alloc: Global,
    text: &mut Vec<u8>,
    jobs: &[Value],
    family: Family,
    offset: Option<i64>,
) -> Result<(), AllocError> {
    let mut is_first = true;
    for job in jobs {
        let Some(number) = number_in(job, family, offset) else {
            continue;
        };
        if is_first {
            push_head(text, family)?;
            is_first = false;
        }
        let labels = labels_of(alloc, job)?;
        push_sample(alloc, text, family, labels.as_slice(), number)?;
    }
    Ok(())
}

fn offset_in(value: &Value) -> Option<i64> {
    value.get("offset")?.as_i64()
}

fn jobs_in(value: &Value) -> Option<&[Value]> {
    Some(value.get("jobs")?.as_array()?.as_slice())
}

fn push_of_jobs(alloc: Global, text: &mut Vec<u8>, value: &Value) -> Result<(), AllocError> {
    let Some(jobs) = jobs_in(value) else {
        return Ok(());
    };
    let offset = offset_in(value);
    for family in OF_JOB.as_slice() {
        push_family(alloc, text, jobs, *family, offset)?;
    }
    Ok(())
}

/// Reads the text of a daemon's state, and returns its metrics in the text format of Prometheus;
/// `is_up` says whether the daemon still is. A member that is absent or has another form has none.
/// A fault if the text isn't JSON.
pub fn read_metrics(alloc: Global, state: &[u8], is_up: bool) -> Result<Vec<u8>, Misread> {
    let value = parse(alloc, state)?;
    let mut text = Vec::new(alloc);
    push_head(&mut text, UP)?;
    push_sample(alloc, &mut text, UP, b"", u64::from(is_up))?;
    push_of_daemon(alloc, &mut text, &value)?;
    push_of_jobs(alloc, &mut text, &value)?;
    Ok(text)
}
