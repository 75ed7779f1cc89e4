//! Finds the fewest minutes from a minute at which a command is due to one at which it or another
//! one is, over all days that can follow one another.
ghost use Rattle.std.specs.Prelude.{◌≡◌, ◌+◌, ◌*◌, ◌<◌, ◌≤◌, true, All, IfSome, unwrap_or};
ghost use Rattle.std.specs.List.{list_any};
ghost use Rattle.cs_civil.specs.declared.minute.TheConstants.{MINUTES_OF_DAY};
ghost use Rattle.cs_schedule.specs.Gap.{AreApart, AreApartFrom, AreDays, NoneBelow, NoneFrom};
ghost use Rattle.cs_schedule.specs.Gap.{can_be_after, can_be_apart, can_follow, is_day_due_after};
ghost use Rattle.cs_schedule.specs.Gap.{is_followed};

use crate::minute_set::MinuteSet;
use crate::schedule::Schedule;
use cs_civil::{DayKind, MINUTES_OF_DAY, all_kinds, next_kinds};

/// The longest gap that [`least_gap`] looks for: three days.
pub const MAX_GAP: u16 = 4_320;

/// The longest distance that [`least_distance`] may look for: six days.
pub const MAX_DISTANCE: u16 = 8_640;

/// Whether the command can be due so many days after a day of this kind.
fn is_day_due_after(schedule: &Schedule, kind: DayKind, days: u8) -> bool
    ensures { result ≡ is_day_due_after schedule.now days kind }
{
    if days == 0 {
        return schedule.is_day_due(kind);
    }
    let next = next_kinds(kind);
    for kind in next.as_slice() {
        if is_day_due_after(schedule, *kind, days - 1) {
            return true;
        }
    }
    false
}

fn can_be_after(first: &Schedule, second: &Schedule, days: u8) -> bool
    ensures { result ≡ can_be_after first.now second.now days }
{
    for kind in all_kinds() {
        if first.is_day_due(kind) && is_day_due_after(second, kind, days) {
            return true;
        }
    }
    false
}

/// The same, if a distance of so many minutes reaches as far.
fn can_be_reached(first: &Schedule, second: &Schedule, days: u8, most: u16) -> bool
    requires { (days ≤ 6) × (most ≤ MAX_DISTANCE) }
    ensures { days * MINUTES_OF_DAY < most + MINUTES_OF_DAY
        → result ≡ can_be_after first.now second.now days }
{
    u16::from(days) * MINUTES_OF_DAY < most + MINUTES_OF_DAY && can_be_after(first, second, days)
}

/// The days later, as far as so many minutes reach, on which the second command can be due.
fn days_between(first: &Schedule, second: &Schedule, most: u16) -> [bool; 7]
    requires { most ≤ MAX_DISTANCE }
    ensures { AreDays first.now second.now most result }
{
    [
        can_be_reached(first, second, 0, most),
        can_be_reached(first, second, 1, most),
        can_be_reached(first, second, 2, most),
        can_be_reached(first, second, 3, most),
        can_be_reached(first, second, 4, most),
        can_be_reached(first, second, 5, most),
        can_be_reached(first, second, 6, most),
    ]
}

fn is_followed(times: &MinuteSet, days: &[bool; 7], gap: u16, minute: u16) -> bool
    requires { minute + gap < 10080 }
    ensures { result ≡ is_followed times.now days.now gap minute }
{
    let later = minute + gap;
    days[usize::from(later / MINUTES_OF_DAY)] && times.has(later % MINUTES_OF_DAY)
}

fn is_met(first: &MinuteSet, second: &MinuteSet, days: &[bool; 7], gap: u16) -> bool
    requires gap { gap ≤ MAX_DISTANCE }
    requires day { All (λ minute. minute < MINUTES_OF_DAY) first.now }
    ensures { result ≡ list_any (is_followed second.now days.now gap) first.now }
{
    for minute in first.iter() {
        if is_followed(second, days, gap, minute) {
            return true;
        }
    }
    false
}

/// Returns the fewest minutes, from `least` to `most`, from a minute at which the first command is
/// due to one at which the second is; `None` if there are no two such minutes.
pub fn least_distance(first: &Schedule, second: &Schedule, least: u16, most: u16) -> Option<u16>
    requires { most ≤ MAX_DISTANCE }
    ensures in_range { IfSome result (λ gap. (least ≤ gap) × (gap ≤ most)) }
    ensures met { IfSome result (λ gap. can_follow first.now second.now gap ≡ true) }
    ensures least { NoneFrom first.now second.now least (unwrap_or result (most + 1)) }
    ensures apart { AreApartFrom first.now second.now least (unwrap_or result (most + 1)) }
{
    let times = first.times();
    let later_times = second.times();
    let days = days_between(first, second, most);
    for gap in least..most + 1 {
        if is_met(&times, &later_times, &days, gap) {
            return Some(gap);
        }
    }
    None
}

/// Returns the fewest minutes from a minute at which the command is due to the next one, up to
/// [`MAX_GAP`]; `None` if it is never due, or if any two are further apart.
pub fn least_gap(schedule: &Schedule) -> Option<u16>
    ensures met { IfSome result (λ gap. can_be_apart schedule.now gap ≡ true) }
    ensures least { NoneBelow schedule.now (unwrap_or result (MAX_GAP + 1)) }
    ensures apart { AreApart schedule.now (unwrap_or result (MAX_GAP + 1)) }
{
    least_distance(schedule, schedule, 1, MAX_GAP)
}
