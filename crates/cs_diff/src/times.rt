//! When a job may run, in words.
use crate::page::Page;
use crate::side::Side;
use cs_civil::{MINUTES_OF_DAY, all_kinds};
use cs_crontab::{Line, When};
use cs_decl::is_same_when;
use cs_schedule::Schedule;
use cs_table::text::{first_line, skip_blanks, word};
use std::alloc::AllocError;

/// How many windows of a day are shown.
const MOST_WINDOWS: usize = 4;

const DAY: u32 = MINUTES_OF_DAY as u32;

fn push_two(page: &mut Page, number: u32) -> Result<(), AllocError> {
    if number < 10 {
        page.words("0")?;
    }
    page.number(u64::from(number))
}

/// Adds `22:00`.
pub(crate) fn push_clock(page: &mut Page, minute: u32) -> Result<(), AllocError> {
    push_two(page, minute / 60)?;
    page.words(":")?;
    push_two(page, minute % 60)
}

/// Adds `22:00 to 24:00`, of minutes from the start of a day on.
pub(crate) fn push_window(page: &mut Page, from: u32, minutes: u32) -> Result<(), AllocError> {
    let last = from.saturating_add(minutes).saturating_sub(1);
    push_clock(page, from)?;
    page.words(" to ")?;
    push_clock(page, last % DAY + 1)?;
    match last / DAY {
        0 => Ok(()),
        1 => page.words(" the next day"),
        days => {
            page.words(" ")?;
            page.number(u64::from(days))?;
            page.words(" days later")
        }
    }
}

/// The text of a line of a table, from its first word on.
fn line_text(text: &[u8], number: u32) -> &[u8] {
    let mut rest = text;
    for place in 1..number.saturating_add(1) {
        if rest.is_empty() {
            return b"";
        }
        let (line, behind) = first_line(rest);
        if place == number {
            return skip_blanks(line);
        }
        rest = behind;
    }
    b""
}

/// Adds the day of the month, the month and the weekday as they are written, or the word after `@`.
fn push_days(page: &mut Page, side: Side<'_>, line: &Line) -> Result<(), AllocError> {
    let text = line_text(side.text, line.number());
    if text.starts_with(b"@") {
        let (name, _) = word(text);
        return page.code(name);
    }
    let (_, rest) = word(text);
    let (_, rest) = word(skip_blanks(rest));
    let days = skip_blanks(rest);
    let (_, rest) = word(days);
    let (_, rest) = word(skip_blanks(rest));
    let (_, rest) = word(skip_blanks(rest));
    page.code(&days[..days.len().saturating_sub(rest.len())])
}

fn have_same_days(one: &Schedule, other: &Schedule) -> bool {
    for kind in all_kinds() {
        if one.is_day_due(kind) != other.is_day_due(kind) {
            return false;
        }
    }
    true
}

/// Adds the windows of a day on which a command is due.
fn push_windows(page: &mut Page, schedule: &Schedule, max: u16) -> Result<(), AllocError> {
    let times = schedule.times();
    let mut count = 0usize;
    for minute in times.iter() {
        if count < MOST_WINDOWS {
            if 0 < count {
                page.words(", ")?;
            }
            push_window(page, u32::from(minute), u32::from(max))?;
        }
        count = count.saturating_add(1);
    }
    if MOST_WINDOWS < count {
        page.words(" and ")?;
        page.number((count - MOST_WINDOWS) as u64)?;
        page.words(" more")?;
    }
    Ok(())
}

/// Adds the windows of a line, and its days if they are asked for.
fn push_line(
    page: &mut Page,
    side: Side<'_>,
    line: &Line,
    max: u16,
    with_days: bool,
) -> Result<(), AllocError> {
    let When::At(schedule) = line.when() else {
        return Ok(());
    };
    push_windows(page, schedule, max)?;
    if with_days {
        page.words(" on ")?;
        return push_days(page, side, line);
    }
    Ok(())
}

/// Adds a line if a job is due at other times.
pub(crate) fn push_times(
    page: &mut Page,
    old: Side<'_>,
    new: Side<'_>,
    was: u16,
    job: u16,
) -> Result<(), AllocError> {
    let (Some(before), Some(after)) = (old.line(was), new.line(job)) else {
        return Ok(());
    };
    let (When::At(one), When::At(other)) = (before.when(), after.when()) else {
        return Ok(());
    };
    if is_same_when(before.when(), after.when()) {
        return Ok(());
    }
    let with_days = !have_same_days(one, other);
    page.begin()?;
    page.job(new, job)?;
    page.words(": ")?;
    push_line(page, new, after, new.plan.job_at(job).max(), with_days)?;
    page.words(", was ")?;
    push_line(page, old, before, old.plan.job_at(was).max(), with_days)?;
    page.end()
}
