ghost use Rattle.std.specs.Prelude.{◌≡◌, ◌≤◌, ◌↔◌, IsSome, IfSome};
ghost use Rattle.cs_anacrontab.specs.declared.limits.TheConstants.{MAX_PERIOD};
ghost use Rattle.cs_anacrontab.specs.Period.{is_due, is_same_month};
ghost use Rattle.cs_anacrontab.specs.Reading.{period_of_word};

use crate::limits::MAX_PERIOD;
use cs_civil::{Day, Gregorian};
use std::marker::Model;

/// A number of days, from 1 to [`MAX_PERIOD`](crate::MAX_PERIOD).
#[derive(Clone, Copy, PartialEq, Eq)]
pub struct DayCount {
    days: u32,
}

impl Model for DayCount {
    ghost use Rattle.std.specs.Prelude.{ℕ, ◌≤◌};
    ghost use Rattle.cs_anacrontab.specs.declared.limits.TheConstants.{MAX_PERIOD};

    ghost Value = { ℕ };

    ghost view = { λ a. a.days };

    ghost invariant = { λ a. (1 ≤ a.days) × (a.days ≤ MAX_PERIOD) };

    ghost inverse = { λ n. record { days = n } };
}

impl DayCount {
    /// Returns the count; `None` if it is 0 or above [`MAX_PERIOD`](crate::MAX_PERIOD).
    pub fn new(number: u32) -> Option<DayCount>
        ensures in_range { IsSome result ↔ ((1 ≤ number) × (number ≤ MAX_PERIOD)) }
        ensures value { IfSome result (λ count. count ≡ number) }
    {
        if number < 1 || number > MAX_PERIOD {
            return None;
        }
        Some(DayCount { days: number })
    }

    /// Returns the number of days.
    pub fn number(self) -> u32
        ensures value { result ≡ self }
        ensures in_range { (1 ≤ self) × (self ≤ MAX_PERIOD) }
    {
        self.days
    }
}

/// How often a job runs (anacrontab(5)).
#[derive(Clone, Copy, PartialEq, Eq)]
pub enum Period {
    /// After that many days: `@daily` is one day, `@weekly` seven (this profile).
    Days(DayCount),
    /// Once in each calendar month: `@monthly` (this profile).
    Monthly,
}

/// `None` unless the word is `daily`, `weekly` or `monthly`.
pub(crate) fn word_period(word: &[u8]) -> Option<Period>
    ensures { result ≡ period_of_word word.now }
{
    if word == b"daily".as_slice() {
        Some(Period::Days(DayCount { days: 1 }))
    } else if word == b"weekly".as_slice() {
        Some(Period::Days(DayCount { days: 7 }))
    } else if word == b"monthly".as_slice() {
        Some(Period::Monthly)
    } else {
        None
    }
}

/// Whether a job is due today; its stamp is the day of its last run (anacron(8)).
///
/// It is due without a stamp, with one later than today (this profile), and once the period has
/// passed since its stamp: [`Monthly`](Period::Monthly) once the month or the year is another.
pub fn is_due(period: Period, stamp: Option<Day>, today: Day) -> bool
    ensures { result ≡ is_due period stamp today }
{
    let Some(stamp) = stamp else {
        return true;
    };
    if today < stamp {
        return true;
    }
    match period {
        Period::Days(count) => stamp.number() + u64::from(count.number()) <= today.number(),
        Period::Monthly => !is_same_month(stamp, today),
    }
}

fn is_same_month(one: Day, other: Day) -> bool
    ensures { result ≡ is_same_month one other }
{
    let (one, other) = (Gregorian::of_day(one), Gregorian::of_day(other));
    one.year() == other.year() && one.month() == other.month()
}
