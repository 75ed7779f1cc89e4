//! Drafts the entries of anacron jobs.

use crate::layout::{COMMA, Done, add_members, add_number};
use crate::names::job_entry;
use crate::old::Old;
use crate::sheet::tell_times;
use crate::times::add_max;
use crate::told::{ANACRONTAB, tell};
use cs_anacrontab::Job;
use cs_command::{asked_for, time_limit};
use cs_diagnostics::shown;
use serde_json::Value;
use std::alloc::Global;

/// Notes that a given time is less than that of the old entry.
fn tell_lowered(alloc: Global, told: &mut Vec<u8>, old: Old<'_>, job: &Job, max: u64) -> Done {
    let Some(entry) = job_entry(old.entries, job.identifier()) else {
        return Ok(());
    };
    let before = entry.max;
    if i128::from(max) >= before {
        return Ok(());
    }
    let name = shown(alloc, job.identifier())?;
    let text = format!(in alloc; ": max {max} min in place of {before} min")?;
    tell(told, "note: job ", name.as_str(), text.as_str())
}

/// Adds what the old entry declares, except for a given time.
pub(crate) fn add_kept_job(
    alloc: Global,
    anacron: &mut Vec<u8>,
    told: &mut Vec<u8>,
    old: Old<'_>,
    job: &Job,
    time: Option<u64>,
    entry: &Value,
) -> Done {
    match time {
        Some(max) => {
            tell_lowered(alloc, told, old, job, max)?;
            add_number(alloc, anacron, "max", max)?;
        }
        None => add_members(alloc, anacron, COMMA, entry, ["max", "guess"].as_slice())?,
    }
    let names = ["weight", "group", "note"];
    add_members(alloc, anacron, COMMA, entry, names.as_slice())
}

/// Adds a new job, with the default's weight if there is a default.
pub(crate) fn add_new_job(
    alloc: Global,
    anacron: &mut Vec<u8>,
    told: &mut Vec<u8>,
    old: Old<'_>,
    job: &Job,
    time: Option<u64>,
    asked: u64,
) -> Done {
    if !old.is_draft {
        let name = shown(alloc, job.identifier())?;
        tell(told, "note: job ", name.as_str(), " is new")?;
    }
    let command = job.command();
    match time {
        Some(max) => add_number(alloc, anacron, "max", max)?,
        None => {
            let max = asked_for(asked, command);
            add_max(alloc, anacron, max, time_limit(command).is_none())?;
        }
    }
    match old.value.get("default") {
        Some(default) => add_members(alloc, anacron, COMMA, default, ["weight"].as_slice()),
        None => tell_times(alloc, told, ANACRONTAB, job.number(), command),
    }
}
