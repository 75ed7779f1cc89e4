use crate::busy::{BusyTime, busy_times};
use crate::gains::{Gains, MINUTES_OF_DAY, waits_for};
use crate::numbers::{first_places, minutes_at, told_apart};
use cs_profile::{Facts, Task};
use std::alloc::{AllocError, Global};

/// How many days are searched for a minute at which a lock is free.
const MOST_DAYS: u32 = 4;

/// The end of these days, in minutes.
const LATEST: u32 = 5_760;

/// How long a run of a job may go on after it was due.
#[derive(Clone, Copy, PartialEq, Eq)]
pub(crate) struct Longest {
    /// The most minutes from a due minute to the first at which all that waited has had the lock.
    pub(crate) reach: u32,
    /// The latest such minute, counted from the start of the day of the due minute.
    pub(crate) end: u32,
}

impl Longest {
    pub(crate) const NONE: Longest = Longest { reach: 0, end: 0 };

    pub(crate) fn or(self, other: Longest) -> Longest {
        Longest {
            reach: self.reach.max(other.reach),
            end: self.end.max(other.end),
        }
    }
}

#[derive(Drop)]
struct LikeDays {
    /// The first kind of such days, by number.
    kind: usize,
    busy: Vec<BusyTime>,
    /// If the lock isn't free again on such a day, the first minute after the day at which it is,
    /// counted from the start of the day: the latest that the next days may bring.
    free_after: u32,
}

/// The days of each number. When the lock is free after them isn't known yet.
fn like_days(
    alloc: Global,
    gains: &Gains,
    carries: &[u32],
    numbers: &[u16],
) -> Result<Vec<LikeDays>, AllocError> {
    let mut days = Vec::new(alloc);
    for kind in first_places(alloc, numbers)?.as_slice() {
        let list = match gains.on(*kind) {
            Some(arrivals) => arrivals.list.as_slice(),
            None => &[],
        };
        days.push(LikeDays {
            kind: *kind,
            busy: busy_times(alloc, list, minutes_at(carries, *kind))?,
            free_after: 0,
        })?;
    }
    Ok(days)
}

/// The first minute of days of each kind at which the lock is free, by the kind's number, or four
/// days if it isn't known.
fn first_free_by_kind(
    alloc: Global,
    days: &[LikeDays],
    numbers: &[u16],
) -> Result<Vec<u32>, AllocError> {
    let mut free = Vec::new(alloc);
    for number in numbers {
        let first = match days.get(usize::from(*number)) {
            Some(day) => day.busy.as_slice().first(),
            None => None,
        };
        free.push(match first {
            Some(busy) if busy.until < MINUTES_OF_DAY => busy.until,
            Some(_) => LATEST,
            None => 0,
        })?;
    }
    Ok(free)
}

/// The latest minute at which the lock may first be free on the next day, counted from the start of
/// this day, but at most four days.
fn next_free(free: &[u32], next: &[u16]) -> u32 {
    let mut latest = 0;
    for kind in next {
        latest = minutes_at(free, usize::from(*kind)).max(latest);
    }
    latest.saturating_add(MINUTES_OF_DAY).min(LATEST)
}

/// The sorts of days that the lock sees. If the lock isn't free on a day, the days after it decide
/// when it is.
fn days_of(
    alloc: Global,
    facts: &Facts,
    gains: &Gains,
    carries: &[u32],
) -> Result<Vec<LikeDays>, AllocError> {
    let numbers = told_apart(alloc, &gains.sorts, carries)?;
    let mut days = like_days(alloc, gains, carries, numbers.as_slice())?;
    let mut free = first_free_by_kind(alloc, days.as_slice(), numbers.as_slice())?;
    for _ in 0..MOST_DAYS {
        for (kind, next) in facts.successors().iter().enumerate() {
            if minutes_at(free.as_slice(), kind) >= MINUTES_OF_DAY {
                let later = next_free(free.as_slice(), next.as_slice());
                if let Some(free) = free.get_mut(kind) {
                    *free = later;
                }
            }
        }
    }
    for (number, next) in numbers.iter().zip(facts.successors()) {
        let later = next_free(free.as_slice(), next.as_slice());
        if let Some(day) = days.get_mut(usize::from(*number)) {
            day.free_after = day.free_after.max(later);
        }
    }
    Ok(days)
}

/// How long runs of a job that are due in a busy time may go on.
fn longest_in(busy: &BusyTime, minutes: &[u16], free_after: u32) -> Longest {
    let first = minutes.partition_point(|minute| u32::from(*minute) < busy.from);
    let Some(minute) = minutes.get(first) else {
        return Longest::NONE;
    };
    let due = u32::from(*minute);
    if busy.until <= due {
        return Longest::NONE;
    }
    let end = if busy.until < MINUTES_OF_DAY {
        busy.until
    } else {
        free_after
    };
    Longest {
        reach: end.saturating_sub(due),
        end,
    }
}

/// Takes in each job that is due on such a day and waits for the lock of the group.
fn add_day(longest: &mut [Longest], facts: &Facts, group: u8, day: &LikeDays) {
    for due in facts.due_on(day.kind) {
        let place = usize::from(due.job);
        if let (Some(task), Some(longest)) = (facts.tasks().get(place), longest.get_mut(place)) {
            if waits_for(task, group) {
                for busy in day.busy.as_slice() {
                    let minutes = task.minutes(*due);
                    *longest = longest.or(longest_in(busy, minutes, day.free_after));
                }
            }
        }
    }
}

/// How long runs of each job that waits for the lock of the group may go on, by the job's number.
/// `carries` is what is left when days of each kind begin. Other jobs have [`Longest::NONE`].
pub(crate) fn longest_waits(
    alloc: Global,
    facts: &Facts,
    group: u8,
    gains: &Gains,
    carries: &[u32],
) -> Result<Vec<Longest>, AllocError> {
    let days = days_of(alloc, facts, gains, carries)?;
    let mut longest = Vec::from_elem(alloc, Longest::NONE, facts.tasks().len())?;
    for day in days.as_slice() {
        add_day(longest.as_mut_slice(), facts, group, day);
    }
    Ok(longest)
}
