use crate::clock::Clock;
use cs_civil::DayKind;
use cs_schedule::{MinuteSet, Schedule};
use std::alloc::{AllocError, Global};

/// A cron job that is due on some days, and at which of its minutes.
#[derive(Clone, Copy)]
pub struct Due {
    pub job: u16,
    /// The place of these minutes among the job's lists.
    pub list: u16,
}

fn listed(alloc: Global, minutes: &MinuteSet) -> Result<Vec<u16>, AllocError> {
    let mut list = Vec::new(alloc);
    for minute in minutes.iter() {
        list.push(minute)?;
    }
    Ok(list)
}

/// The number of these minutes among the lists, from 1, which get them if they lack them. 0 if
/// there are none.
fn number_of(
    alloc: Global,
    lists: &mut Vec<Vec<u16>>,
    minutes: &MinuteSet,
) -> Result<u16, AllocError> {
    let list = listed(alloc, minutes)?;
    if list.is_empty() {
        return Ok(0);
    }
    let mut number: u16 = 1;
    for other in lists.iter() {
        if other.as_slice() == list.as_slice() {
            return Ok(number);
        }
        number = number.saturating_add(1);
    }
    lists.push(list)?;
    Ok(number)
}

fn listed_days(
    alloc: Global,
    schedule: &Schedule,
    kinds: &[DayKind],
) -> Result<Vec<bool>, AllocError> {
    let mut days = Vec::with_capacity(alloc, kinds.len())?;
    for kind in kinds {
        days.push(schedule.is_day_due(*kind))?;
    }
    Ok(days)
}

/// Which minutes a job is due at on days of each kind: the number of their list, from 1, or 0 where
/// it isn't due. Adds the lists.
pub(crate) fn numbers_by_kind(
    alloc: Global,
    clock: &Clock,
    schedule: &Schedule,
    kinds: &[DayKind],
    lists: &mut Vec<Vec<u16>>,
) -> Result<Vec<u16>, AllocError> {
    let days = listed_days(alloc, schedule, kinds)?;
    let mut known: [Option<u16>; 32] = [None; 32];
    let mut numbers = Vec::with_capacity(alloc, kinds.len())?;
    for (place, kind) in kinds.iter().enumerate() {
        let sort = clock.sort_of(days.as_slice(), place);
        let number = match known.get(sort) {
            Some(Some(number)) => *number,
            _ => number_of(alloc, lists, &clock.zone.minutes_of(schedule, *kind))?,
        };
        if let Some(known) = known.get_mut(sort) {
            *known = Some(number);
        }
        numbers.push(number)?;
    }
    Ok(numbers)
}
