ghost use Rattle.std.specs.Prelude.{◌≡◌, ◌≤◌, ◌↔◌, IsSome, IfSome};
ghost use Rattle.cs_civil.specs.Calendar.{last_day};

use std::marker::Model;

/// 9999-12-31.
const LAST_DAY: u64 = 2_932_896;

/// A day of the Gregorian calendar, in days since 1970-01-01: from 0 to 2,932,896, which is
/// 9999-12-31.
#[derive(Clone, Copy, PartialEq, Eq, PartialOrd, Ord, Hash)]
pub struct Day {
    days: u64,
}

impl Model for Day {
    ghost use Rattle.std.specs.Prelude.{ℕ, ◌≤◌};
    ghost use Rattle.cs_civil.specs.Calendar.{last_day};

    ghost Value = { ℕ };

    ghost view = { λ a. a.days };

    ghost invariant = { λ a. a.days ≤ last_day };

    ghost inverse = { λ n. record { days = n } };
}

impl Day {
    /// Returns the day so many days after 1970-01-01; `None` after 9999-12-31.
    pub fn new(number: u64) -> Option<Day>
        ensures in_range { IsSome result ↔ (number ≤ last_day) }
        ensures value { IfSome result (λ day. day ≡ number) }
    {
        if number > LAST_DAY {
            return None;
        }
        Some(Day { days: number })
    }

    /// Returns the days since 1970-01-01.
    pub fn number(self) -> u64
        ensures value { result ≡ self }
        ensures in_range { result ≤ last_day }
    {
        self.days
    }
}
