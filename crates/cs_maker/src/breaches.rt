use cs_civil::MINUTES_OF_DAY;
use cs_overlap::{Quiet, Roles};
use cs_profile::{Calendar, DAYS_BEFORE};
use cs_story::{Breach, Rule, Span};
use cs_windows::{Window, touches};
use std::alloc::{AllocError, Global};

/// A rule that the windows of a stretch break, and the first minute of its last day at which they
/// do.
#[derive(Clone, Copy)]
pub(crate) struct Found {
    pub(crate) rule: Rule,
    pub(crate) minute: u16,
    pub(crate) cause: Cause,
}

/// Two windows that may not meet, or what the windows weigh together.
#[derive(Clone, Copy)]
pub(crate) enum Cause {
    Pair(Window, Window),
    Load(u128),
}

/// What these windows of a stretch break. A rule is skipped if a quick test of them, or of longer
/// ones, finds that it is kept.
pub(crate) fn broken_by(
    alloc: Global,
    roles: &Roles,
    quiet: Quiet,
    windows: &[Window],
) -> Result<Option<Found>, AllocError> {
    if !quiet.is_apart {
        if let Some((minute, one, other)) = roles.collision(alloc, windows)? {
            return Ok(Some(Found {
                rule: Rule::Collision,
                minute,
                cause: Cause::Pair(one, other),
            }));
        }
    }
    if !quiet.is_within {
        if let Some((minute, load)) = roles.overload(alloc, windows)? {
            return Ok(Some(Found {
                rule: Rule::OverCapacity,
                minute,
                cause: Cause::Load(load),
            }));
        }
    }
    if !quiet.is_free {
        if let Some((minute, skip, other)) = roles.blocked(alloc, windows)? {
            return Ok(Some(Found {
                rule: Rule::SkipBlocked { skip: skip.job },
                minute,
                cause: Cause::Pair(skip, other),
            }));
        }
    }
    Ok(None)
}

/// The first civil day from 2024-01-01 on that is the last of days with these profiles, counted
/// from 1970-01-01. There is one within 28 years; otherwise this is the calendar's first day.
pub(crate) fn last_day(calendar: &Calendar, profiles: &[u16]) -> u64 {
    let days = calendar.profiles();
    let days_before = profiles.len().saturating_sub(1);
    let first = DAYS_BEFORE.saturating_sub(days_before);
    for place in first..days.len() {
        if days[place..].starts_with(profiles) {
            return calendar.day_at(place.saturating_add(days_before));
        }
    }
    calendar.first_day()
}

fn minute_on(day: u64, minute: u16) -> u64 {
    day.saturating_mul(u64::from(MINUTES_OF_DAY))
        .saturating_add(u64::from(minute))
}

/// The breach in these windows of the stretch that ends on this day, with the windows that hold its
/// minute.
pub(crate) fn breach_on(
    alloc: Global,
    day: u64,
    windows: &[Window],
    found: Found,
) -> Result<Breach, AllocError> {
    let mut held = Vec::new(alloc);
    for window in windows {
        if touches(window, found.minute, found.minute.saturating_add(1)) {
            let from = minute_on(day.saturating_sub(u64::from(window.day_back)), window.from);
            held.push(Span {
                job: window.job,
                from,
                to: from.saturating_add(u64::from(window.reach)),
            })?;
        }
    }
    Ok(Breach {
        rule: found.rule,
        at: minute_on(day, found.minute),
        held,
    })
}
