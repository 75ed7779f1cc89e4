ghost use Rattle.std.specs.Prelude.{◌≡◌, ◌↔◌, IsSome, IfSome};
ghost use Rattle.cs_zone.specs.Zone.{IsJump, IsZone, no_zone};

use std::marker::Model;

/// A jump of a zone's clock (POSIX, TZ): each year on the first such weekday from a day on.
#[derive(Clone, Copy)]
pub struct Jump {
    first: u16,
    weekday: u8,
    minute_of_day: u16,
}

impl Model for Jump {
    ghost use Rattle.cs_zone.specs.Zone.{IsJump, Jump as Rule};

    ghost Value = { Rule };

    ghost view = { λ a. record {
      earliest = a.first;
      weekday = a.weekday;
      minute = a.minute_of_day;
    } };

    ghost invariant = { λ a. IsJump
        (record { earliest = a.first; weekday = a.weekday; minute = a.minute_of_day }) };

    ghost inverse = { λ j. record {
      first = j.earliest;
      weekday = j.weekday;
      minute_of_day = j.minute;
    } };
}

impl Jump {
    /// Returns the jump on the first such weekday, 0 for Sunday to 6, from a day on, counted from 1
    /// March as 0. It comes when the clock before it shows this minute of the day, from 0 to 1,440.
    /// `None` if weekday or minute are out of range.
    pub fn new(earliest: u16, weekday: u8, minute: u16) -> Option<Jump>
        ensures possible { IsSome result
            ↔ IsJump (record { earliest = earliest; weekday = weekday; minute = minute }) }
        ensures value { IfSome result
            (λ j. j ≡ record { earliest = earliest; weekday = weekday; minute = minute }) }
    {
        if weekday > 6 || minute > 1_440 {
            return None;
        }
        Some(Jump {
            first: earliest,
            weekday,
            minute_of_day: minute,
        })
    }

    /// Returns the earliest day of the jump, counted from 1 March as 0.
    pub fn earliest(self) -> u16
        ensures { result ≡ self.earliest }
    {
        self.first
    }

    /// Returns the weekday, from 0 for Sunday to 6.
    pub fn weekday(self) -> u8
        ensures value { result ≡ self.weekday }
        ensures jump { IsJump self }
    {
        self.weekday
    }

    /// Returns the minute of the day, from 0 to 1,440, on the clock before the jump.
    pub fn minute(self) -> u16
        ensures value { result ≡ self.minute }
        ensures jump { IsJump self }
    {
        self.minute_of_day
    }
}

/// A zone with summer time, seen from a clock that shows all year what the zone shows on 28
/// February: in one part of each year the zone's clock is ahead of that one or behind it.
#[derive(Clone, Copy)]
pub struct Zone {
    is_ahead: bool,
    minutes: u8,
    first: Jump,
    second: Jump,
}

impl Model for Zone {
    ghost use Rattle.cs_zone.specs.Zone.{IsZone, Zone as Rule};

    ghost Value = { Rule };

    ghost view = { λ a. record {
      ahead = a.is_ahead;
      saving = a.minutes;
      leaves = a.first;
      returns = a.second;
    } };

    ghost invariant = { λ a. IsZone
        (record { ahead = a.is_ahead; saving = a.minutes; leaves = a.first; returns = a.second }) };

    ghost inverse = { λ z. record {
      is_ahead = z.ahead;
      minutes = z.saving;
      first = z.leaves;
      second = z.returns;
    } };
}

impl Zone {
    /// Returns the zone whose clock is so many minutes ahead, or behind, from the first jump to the
    /// second. `None` if these are more than 120 minutes, or if a jump is within a week of the other
    /// one or of 1 March.
    pub fn new(ahead: bool, saving: u8, leaves: Jump, returns: Jump) -> Option<Zone>
        ensures possible { IsSome result ↔ IsZone
            (record { ahead = ahead; saving = saving; leaves = leaves; returns = returns }) }
        ensures value { IfSome result (λ z. z
            ≡ record { ahead = ahead; saving = saving; leaves = leaves; returns = returns }) }
    {
        let (from, to) = (leaves.first, returns.first);
        if saving > 120 || from < 7 || to > 351 || to < 14 || from > to - 14 {
            return None;
        }
        Some(Zone {
            is_ahead: ahead,
            minutes: saving,
            first: leaves,
            second: returns,
        })
    }

    /// Returns the zone without summer time.
    pub fn none() -> Zone
        ensures { result ≡ no_zone }
    {
        Zone {
            is_ahead: false,
            minutes: 0,
            first: Jump {
                first: 7,
                weekday: 0,
                minute_of_day: 0,
            },
            second: Jump {
                first: 200,
                weekday: 0,
                minute_of_day: 0,
            },
        }
    }

    /// Whether the clock is ahead between the jumps, and not behind.
    pub fn is_ahead(self) -> bool
        ensures { result ≡ self.ahead }
    {
        self.is_ahead
    }

    /// Returns by how many minutes the clock differs between the jumps, from 0 to 120.
    pub fn saving(self) -> u8
        ensures value { result ≡ self.saving }
        ensures zone { IsZone self }
    {
        self.minutes
    }

    /// Returns the jump from the plan's clock, the first one after 28 February.
    pub fn leaves(self) -> Jump
        ensures value { result ≡ self.leaves }
        ensures zone { IsZone self }
    {
        self.first
    }

    /// Returns the jump back to the plan's clock, the second one after 28 February.
    pub fn returns(self) -> Jump
        ensures value { result ≡ self.returns }
        ensures zone { IsZone self }
    {
        self.second
    }
}
