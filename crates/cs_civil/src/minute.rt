ghost use Rattle.std.specs.Prelude.{◌≡◌, ◌<◌, ◌≤◌, ◌/◌, ◌%◌, ◌↔◌, IsSome, IfSome};
ghost use Rattle.cs_civil.specs.Calendar.{first_minute, last_minute, last_day};

use crate::Day;
use std::marker::Model;

/// The minutes of a day.
pub const MINUTES_OF_DAY: u16 = 1_440;

/// The first civil minute, 1970-01-02 00:00.
pub const FIRST_MINUTE: u64 = 1_440;

/// The last civil minute, 9999-12-31 23:59.
pub const LAST_MINUTE: u64 = 4_223_371_679;

/// A minute on the clock of the crontab's machine, at one offset from UTC all year (this profile):
/// minutes since 1970-01-01 00:00 at the offset, from [`FIRST_MINUTE`] to [`LAST_MINUTE`].
#[derive(Clone, Copy, PartialEq, Eq, PartialOrd, Ord, Hash)]
pub struct Minute {
    minutes: u64,
}

impl Model for Minute {
    ghost use Rattle.std.specs.Prelude.{ℕ, ◌≤◌};
    ghost use Rattle.cs_civil.specs.Calendar.{first_minute, last_minute};

    ghost Value = { ℕ };

    ghost view = { λ a. a.minutes };

    ghost invariant = { λ a. (first_minute ≤ a.minutes) × (a.minutes ≤ last_minute) };

    ghost inverse = { λ n. record { minutes = n } };
}

impl Minute {
    /// Returns the minute so many minutes after 1970-01-01 00:00 at the offset; `None` if it is out
    /// of range.
    pub fn new(number: u64) -> Option<Minute>
        ensures in_range { IsSome result ↔ ((first_minute ≤ number) × (number ≤ last_minute)) }
        ensures value { IfSome result (λ minute. minute ≡ number) }
    {
        if number < FIRST_MINUTE || number > LAST_MINUTE {
            return None;
        }
        Some(Minute { minutes: number })
    }

    /// Returns the minutes since 1970-01-01 00:00 at the offset.
    pub fn number(self) -> u64
        ensures value { result ≡ self }
        ensures in_range { (first_minute ≤ result) × (result ≤ last_minute) }
    {
        self.minutes
    }

    /// Returns the day that holds the minute.
    pub fn day(self) -> Day
        ensures value { result ≡ self / 1_440 }
        ensures in_range { (1 ≤ result) × (result ≤ last_day) }
    {
        Day::new(self.minutes / u64::from(MINUTES_OF_DAY)).unwrap()
    }

    /// Returns the minute of the day, from 0 to 1,439.
    pub fn minute_of_day(self) -> u16
        ensures value { result ≡ self % 1_440 }
        ensures in_range { result < 1_440 }
    {
        (self.minutes % u64::from(MINUTES_OF_DAY)) as u16
    }
}
