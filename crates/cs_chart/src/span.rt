ghost use Rattle.std.specs.Prelude.{◌≡◌, ◌+◌, ◌*◌, ◌<◌, ◌≤◌};

use cs_civil::{Day, MINUTES_OF_DAY};
use std::marker::Model;

/// 1970-01-04, the first day: its windows may begin three days before.
const FIRST_DAY: u64 = 3;

/// 9999-12-31, the last day.
const LAST_DAY: u64 = 2_932_896;

/// The most days of a picture.
pub(crate) const MOST_DAYS: u8 = 7;

/// Successive days, one to seven, from 1970-01-04 to 9999-12-31.
#[derive(Clone, Copy)]
pub(crate) struct DaySpan {
    start: Day,
    count: u8,
}

impl Model for DaySpan {
    ghost use Rattle.cs_chart.specs.Bars.{Days, AreShown};

    ghost Value = { Days };

    ghost view = { λ s. record { first = s.start; days = s.count } };

    ghost invariant = { λ s. AreShown (record { first = s.start; days = s.count }) };

    ghost inverse = { λ v. record { start = v.first; count = v.days } };
}

impl DaySpan {
    ghost use Rattle.cs_chart.specs.Bars.{AreShown, days_shown};

    /// So many days from one on, as far as they can be shown; at least one, and at most seven.
    pub(crate) fn new(from: Day, days: u8) -> DaySpan
        ensures { result ≡ days_shown from days }
    {
        let first = from.number().max(FIRST_DAY);
        let left = LAST_DAY - first + 1;
        let count = u64::from(days.clamp(1, MOST_DAYS)).min(left) as u8;
        DaySpan {
            start: Day::new(first).unwrap(),
            count,
        }
    }

    pub(crate) fn days(self) -> u8
        ensures value { result ≡ self.days }
        ensures shown { AreShown self }
    {
        self.count
    }

    pub(crate) fn minutes(self) -> u32
        ensures value { result ≡ MINUTES_OF_DAY * self.days }
        ensures few { result ≤ 10_080 }
    {
        u32::from(MINUTES_OF_DAY) * u32::from(self.days())
    }

    /// The day so many days after the first.
    pub(crate) fn day(self, place: u8) -> Day
        requires { place < self.days }
        ensures value { result ≡ self.first + place }
        ensures late { 3 ≤ result }
    {
        Day::new(self.start.number() + u64::from(place)).unwrap()
    }
}
