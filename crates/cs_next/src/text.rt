//! Starts in lines for people.
ghost use Rattle.std.specs.Prelude.{◌≡◌, ◌++◌, IfOk, OnOk};
ghost use Rattle.cs_next.specs.Text.{command_of, job_place, line_place, minutes_text, span_text};
ghost use Rattle.cs_next.specs.Text.{end_text, minute_shown, start_line, starts_text, when_line};

use crate::starts::Start;
use cs_civil::{Minute, date_text, push_number};
use cs_files::Tables;
use cs_place::{Place, place_of, push_place_text, push_shown};
use std::alloc::{AllocError, Global};

/// The minutes of an hour and of a day.
const HOUR: u64 = 60;

const DAY: u64 = 1_440;

/// How long after a minute another one comes: `5 min`, `2 h`, `2 h 5 min`, `1 day`, `3 days`.
fn push_span(alloc: Global, text: &mut Vec<u8>, minutes: u64) -> Result<(), AllocError>
    ensures { OnOk result (text.new.items ≡ text.old.items ++ span_text minutes) }
{
    if minutes < HOUR {
        return push_minutes(alloc, text, minutes);
    }
    if minutes < DAY {
        push_number(alloc, text, u128::from(minutes / HOUR))?;
        text.extend_from_slice(b" h")?;
        if minutes % HOUR == 0 {
            return Ok(());
        }
        text.extend_from_slice(b" ")?;
        return push_minutes(alloc, text, minutes % HOUR);
    }
    push_number(alloc, text, u128::from(minutes / DAY))?;
    let unit = if minutes < 2 * DAY { " day" } else { " days" };
    text.extend_from_slice(unit.as_bytes())
}

fn push_minutes(alloc: Global, text: &mut Vec<u8>, minutes: u64) -> Result<(), AllocError>
    ensures { OnOk result (text.new.items ≡ text.old.items ++ minutes_text minutes) }
{
    push_number(alloc, text, u128::from(minutes))?;
    text.extend_from_slice(b" min")
}

/// The command of a job of both tables.
pub(crate) fn command_of(tables: &Tables, job: u16) -> &[u8]
    ensures { result.now ≡ command_of tables.now job }
{
    let (lines, jobs) = (tables.crontab.lines(), tables.jobs.lines());
    let number = usize::from(job);
    if let Some(line) = lines.get(number) {
        return line.command();
    }
    match jobs.get(number.saturating_sub(lines.len())) {
        Some(job) => job.command(),
        None => b"",
    }
}

fn push_line_place(
    alloc: Global,
    text: &mut Vec<u8>,
    places: &[Place],
    line: u32,
) -> Result<(), AllocError>
    ensures { OnOk result (text.new.items ≡ text.old.items ++ line_place places.now line) }
{
    match place_of(places, line) {
        Some(place) => push_place_text(text, place),
        None => {
            text.extend_from_slice(b"line ")?;
            push_number(alloc, text, u128::from(line))
        }
    }
}

/// Where a job stands: `line 3`, `/etc/cron.d/munin:12 (munin)` of a gathered table, or `job ID`.
pub(crate) fn push_place(
    alloc: Global,
    text: &mut Vec<u8>,
    tables: &Tables,
    job: u16,
) -> Result<(), AllocError>
    ensures { OnOk result (text.new.items ≡ text.old.items ++ job_place tables.now job) }
{
    let (lines, jobs) = (tables.crontab.lines(), tables.jobs.lines());
    let number = usize::from(job);
    if let Some(line) = lines.get(number) {
        return push_line_place(alloc, text, tables.places.as_slice(), line.number());
    }
    text.extend_from_slice(b"job ")?;
    match jobs.get(number.saturating_sub(lines.len())) {
        Some(job) => push_shown(text, job.identifier()),
        None => Ok(()),
    }
}

#[tactic(auto, unfolding(crate::specs::Text::minute_shown))]
fn shown_minute(minute: Minute) -> [u8; 16]
    ensures { result ≡ minute_shown minute }
{
    date_text(minute)
}

/// Adds `2026-12-01 03:00, in 2 h 5 min`.
#[tactic(auto, unfolding(crate::specs::Text::when_line))]
fn push_when(
    alloc: Global,
    text: &mut Vec<u8>,
    from: Minute,
    minute: Minute,
) -> Result<(), AllocError>
    ensures { OnOk result (text.new.items ≡ text.old.items ++ when_line from minute) }
{
    text.extend_from_slice(&shown_minute(minute))?;
    text.extend_from_slice(b", in ")?;
    push_span(alloc, text, minute.number().saturating_sub(from.number()))
}

#[tactic(auto, unfolding(crate::specs::Text::start_line))]
fn push_start(
    alloc: Global,
    text: &mut Vec<u8>,
    tables: &Tables,
    from: Minute,
    start: &Start,
) -> Result<(), AllocError>
    ensures { OnOk result
        (text.new.items ≡ text.old.items ++ start_line from tables.now start.now) }
{
    push_when(alloc, text, from, start.minute)?;
    text.extend_from_slice(b", ")?;
    push_place(alloc, text, tables, start.job)?;
    text.extend_from_slice(b": ")?;
    push_shown(text, command_of(tables, start.job))?;
    text.extend_from_slice(b"\n")
}

fn push_end(text: &mut Vec<u8>, are_fewer: bool) -> Result<(), AllocError>
    ensures { OnOk result (text.new.items ≡ text.old.items ++ end_text are_fewer) }
{
    if are_fewer {
        return text.extend_from_slice(b"no further start in 28 years\n");
    }
    Ok(())
}

/// A line for each start, and one that says so if there are fewer than asked for.
pub(crate) fn starts_text(
    alloc: Global,
    tables: &Tables,
    from: Minute,
    starts: &[Start],
    count: usize,
) -> Result<Vec<u8>, AllocError>
    ensures { IfOk result (λ text. text.items ≡ starts_text from tables.now count starts.now) }
{
    let mut text = Vec::new(alloc);
    for start in starts {
        push_start(alloc, &mut text, tables, from, start)?;
    }
    push_end(&mut text, starts.len() < count)?;
    Ok(text)
}
