//! Windows of one exclusive group that meet.
ghost use Rattle.std.specs.Prelude.{◌<◌, length};

use crate::bar::{Bar, add_bar, bars_of};
use crate::row::{Name, Row};
use crate::span::DaySpan;
use std::alloc::{AllocError, Global};

/// What the windows of a job meet.
#[derive(Drop)]
pub(crate) struct Meeting<'a> {
    /// The minutes that its own windows and others hold.
    pub(crate) bars: Vec<Bar>,
    /// The others, each with the first minute of the picture that both hold.
    pub(crate) others: Vec<(Row<'a>, u32)>,
}

/// A row, and the minutes that its windows hold, a bit each.
#[derive(Drop)]
struct Holder<'a> {
    row: Row<'a>,
    held: Vec<u64>,
}

/// Whether windows of both may not meet: both are in one exclusive group, one of them is of the
/// crontab, and not both take the group's lock.
fn clash(row: &Row<'_>, other: &Row<'_>) -> bool {
    let (Some(own), Some(others)) = (row.declared, other.declared) else {
        return false;
    };
    let is_cron = match (row.name, other.name) {
        (Name::Job(_), Name::Job(_)) => false,
        _ => true,
    };
    let take_lock = own.mode.takes_lock() && others.mode.takes_lock();
    own.is_exclusive && own.place == others.place && is_cron && !take_lock
}

fn mark(marks: &mut [u64], bar: Bar) {
    for minute in bar.from..bar.to {
        let minute = minute as usize;
        if let Some(word) = marks.get_mut(minute / 64) {
            *word |= 1u64 << (minute % 64);
        }
    }
}

/// The minutes of the picture that the windows of a row hold; none if its group isn't exclusive.
fn held_minutes(alloc: Global, row: &Row<'_>, span: DaySpan) -> Result<Vec<u64>, AllocError> {
    let occupied = match (row.declared, row.occupied) {
        (Some(declared), Some(occupied)) if declared.is_exclusive => occupied,
        _ => return Ok(Vec::new(alloc)),
    };
    let mut marks = vec![in alloc; 0; span.minutes().div_ceil(64) as usize]?;
    let bars = bars_of(alloc, occupied, span)?;
    for bar in bars.as_slice() {
        mark(marks.as_mut_slice(), *bar);
    }
    Ok(marks)
}

/// Marks the minutes that both have, 64 at a time, and returns the first.
fn mark_common(marks: &mut [u64], one: &[u64], other: &[u64]) -> Option<u32> {
    let mut first = None;
    for (place, word) in marks.iter_mut().enumerate() {
        if let (Some(one), Some(other)) = (one.get(place), other.get(place)) {
            let both = *one & *other;
            *word |= both;
            if both != 0 && first.is_none() {
                let start = u32::try_from(place).unwrap_or(0).saturating_mul(64);
                first = Some(start.saturating_add(both.trailing_zeros()));
            }
        }
    }
    first
}

fn bars_of_marks(alloc: Global, marks: &[u64]) -> Result<Vec<Bar>, AllocError> {
    let mut bars = Vec::new(alloc);
    let words = u32::try_from(marks.len()).unwrap_or(u32::MAX);
    for minute in 0..words.saturating_mul(64) {
        let word = marks.get((minute / 64) as usize).copied().unwrap_or(0);
        if (word >> (minute % 64)) & 1 == 1 {
            let bar = Bar {
                from: minute,
                to: minute + 1,
            };
            add_bar(&mut bars, bar)?;
        }
    }
    Ok(bars)
}

fn meeting_of<'a>(
    alloc: Global,
    holders: &[Holder<'a>],
    place: usize,
) -> Result<Meeting<'a>, AllocError>
    requires { place < length holders.now }
{
    let own = &holders[place];
    let mut marks = vec![in alloc; 0; own.held.len()]?;
    let mut others = Vec::new(alloc);
    for (at, other) in holders.iter().enumerate() {
        if at == place || !clash(&own.row, &other.row) {
            continue;
        }
        let (held, also) = (own.held.as_slice(), other.held.as_slice());
        if let Some(first) = mark_common(marks.as_mut_slice(), held, also) {
            others.push((other.row, first))?;
        }
    }
    let bars = bars_of_marks(alloc, marks.as_slice())?;
    Ok(Meeting { bars, others })
}

/// What the windows of each row meet, in the order of rows.
pub(crate) fn meetings_of<'a>(
    alloc: Global,
    rows: &[Row<'a>],
    span: DaySpan,
) -> Result<Vec<Meeting<'a>>, AllocError> {
    let mut holders = Vec::new(alloc);
    for row in rows {
        holders.push(Holder {
            row: *row,
            held: held_minutes(alloc, row, span)?,
        })?;
    }
    let mut meetings = Vec::new(alloc);
    for place in 0..holders.len() {
        meetings.push(meeting_of(alloc, holders.as_slice(), place)?)?;
    }
    Ok(meetings)
}
