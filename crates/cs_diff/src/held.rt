//! Which minutes the windows of a job hold, for many days at once.
use cs_civil::{DayKind, MINUTES_OF_DAY};
use cs_schedule::{MinuteSet, Schedule};
use cs_windows::Occupied;
use std::alloc::{AllocError, Global};

/// The words of a day, of 64 minutes each.
const WORDS_OF_DAY: u32 = 24;

/// A window that begins on one day reaches three days on.
pub(crate) const REACHED: u32 = 3;

const DAY: u32 = MINUTES_OF_DAY as u32;

/// The windows of a job.
#[derive(Drop)]
pub(crate) struct Held {
    /// The minutes that those hold that begin on one day, on that day and each of the three after it.
    minutes: Vec<u64>,
    /// The days on which windows begin, a bit each, from three days before the first on.
    days: Vec<u64>,
}

fn word_at(words: &[u64], place: u32) -> u64 {
    match words.get(place as usize) {
        Some(word) => *word,
        None => 0,
    }
}

fn set(words: &mut [u64], bit: u32) {
    if let Some(word) = words.get_mut((bit / 64) as usize) {
        *word |= 1u64 << (bit % 64);
    }
}

/// The minutes of four days that windows of so many minutes hold, which begin at these minutes.
fn minutes_of(alloc: Global, starts: &MinuteSet, reach: u32) -> Result<Vec<u64>, AllocError> {
    let mut minutes = vec![in alloc; 0u64; 96]?;
    let mut end = 0u32;
    for minute in 0..(REACHED + 1) * DAY {
        if minute < DAY && starts.has(minute as u16) {
            end = minute.saturating_add(reach);
        }
        if minute < end {
            let bit = minute / DAY * WORDS_OF_DAY * 64 + minute % DAY;
            set(minutes.as_mut_slice(), bit);
        }
    }
    Ok(minutes)
}

fn set_due(days: &mut [u64], schedule: &Schedule, kinds: &[DayKind]) {
    let mut place = 0u32;
    for kind in kinds {
        if schedule.is_day_due(*kind) {
            set(days, place);
        }
        place = place.saturating_add(1);
    }
}

/// The windows of a job on these days.
pub(crate) fn held_by(
    alloc: Global,
    occupied: &Occupied<'_>,
    kinds: &[DayKind],
) -> Result<Held, AllocError> {
    let mut days = vec![in alloc; 0u64; kinds.len() / 64 + 2]?;
    let mut starts = MinuteSet::new();
    let reach = match occupied {
        Occupied::Cron {
            schedule,
            reach,
            ..
        } => {
            starts = schedule.times();
            set_due(days.as_mut_slice(), schedule, kinds);
            *reach
        }
        Occupied::CatchUp { from, reach } => {
            if *from < MINUTES_OF_DAY {
                starts.insert(*from);
            }
            days.as_mut_slice().fill(u64::MAX);
            *reach
        }
    };
    let minutes = minutes_of(alloc, &starts, u32::from(reach))?;
    Ok(Held { minutes, days })
}

/// 64 of the bits, from this one on.
fn bits_from(words: &[u64], bit: u32) -> u64 {
    let (place, shift) = (bit / 64, bit % 64);
    let low = word_at(words, place) >> shift;
    if shift == 0 {
        return low;
    }
    low | word_at(words, place.saturating_add(1)) << (64 - shift)
}

/// The first minute of a day that both have; `back` says how many days ago the windows began.
fn shared_minute(one: &Held, back: u32, other: &Held, other_back: u32) -> Option<u32> {
    for place in 0..WORDS_OF_DAY {
        let both = word_at(
            one.minutes.as_slice(),
            back.saturating_mul(WORDS_OF_DAY).saturating_add(place),
        ) & word_at(
            other.minutes.as_slice(),
            other_back
                .saturating_mul(WORDS_OF_DAY)
                .saturating_add(place),
        );
        if both != 0 {
            return Some(place * 64 + both.trailing_zeros());
        }
    }
    None
}

/// The first of the days from the fourth on at which windows begun so many days ago share this
/// minute, if it is before `count`.
fn first_day(one: &Held, back: u32, other: &Held, other_back: u32, count: u32) -> Option<u32> {
    let (back, other_back) = (back.min(REACHED), other_back.min(REACHED));
    for place in 0..count.div_ceil(64) {
        let bit = place.saturating_mul(64);
        let both = bits_from(one.days.as_slice(), bit.saturating_add(REACHED - back))
            & bits_from(
                other.days.as_slice(),
                bit.saturating_add(REACHED - other_back),
            );
        if both != 0 {
            let day = bit.saturating_add(both.trailing_zeros());
            return if day < count { Some(day) } else { None };
        }
    }
    None
}

/// The first day, counted from the fourth on, and below `count`, and its first minute that windows
/// of both hold.
pub(crate) fn first_shared(one: &Held, other: &Held, count: u32) -> Option<(u32, u32)> {
    let mut first = None;
    for pair in 0..(REACHED + 1) * (REACHED + 1) {
        let (back, other_back) = (pair / (REACHED + 1), pair % (REACHED + 1));
        if let Some(minute) = shared_minute(one, back, other, other_back) {
            if let Some(day) = first_day(one, back, other, other_back, count) {
                first = match first {
                    Some(found) if found <= (day, minute) => Some(found),
                    _ => Some((day, minute)),
                };
            }
        }
    }
    first
}
