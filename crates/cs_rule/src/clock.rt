ghost use Rattle.std.specs.Prelude.{◌≡◌, ◌≤◌, unsigned_abs, if◌then◌else◌};
ghost use Rattle.jiff_tz.specs.Abbreviation.{abbreviation_text};

use cs_zone::Zone;
use jiff_tz::Abbreviation;
use std::marker::Model;

/// A zone's clocks: the plan's clock, which shows all year what the zone shows on 28 February, and
/// the other one, by which the zone goes in one part of the year. Without summer time they are the
/// same.
#[derive(Drop)]
pub struct Clock {
    minutes: i16,
    seen: Zone,
    plan: Abbreviation,
    other: Abbreviation,
}

impl Model for Clock {
    ghost use Rattle.std.specs.Prelude.{◌≤◌, unsigned_abs};
    ghost use Rattle.jiff_tz.specs.Abbreviation.{abbreviation_text};
    ghost use Rattle.cs_rule.specs.Rule.{Clock as Clocks};

    ghost Value = { Clocks };

    ghost view = { λ a. record {
      offset = a.minutes;
      zone = a.seen;
      plan_name = abbreviation_text a.plan;
      other_name = abbreviation_text a.other;
    } };

    ghost invariant = { λ a. unsigned_abs a.minutes ≤ 1439 };
}

impl Clock {
    pub(crate) fn new(minutes: i16, zone: Zone, plan: Abbreviation, other: Abbreviation) -> Clock
        requires { unsigned_abs minutes ≤ 1439 }
        ensures { result ≡ record {
          offset = minutes;
          zone = zone;
          plan_name = abbreviation_text plan;
          other_name = abbreviation_text other;
        } }
    {
        Clock {
            minutes,
            seen: zone,
            plan,
            other,
        }
    }

    /// Returns the minutes by which the plan's clock is ahead of UTC, from -1,439 to 1,439.
    pub fn offset(&self) -> i16
        ensures value { result ≡ self.now.offset }
        ensures bound { unsigned_abs result ≤ 1439 }
    {
        self.minutes
    }

    /// Returns the zone, seen from the plan's clock.
    pub fn zone(&self) -> Zone
        ensures { result ≡ self.now.zone }
    {
        self.seen
    }

    /// Returns the name that the zone's rule has for the plan's clock, as `CET`, or, where the zone is
    /// away from it, for the other clock, as `CEST`: 3 to 15 ASCII letters, digits, `+` and `-`.
    pub fn name(&self, is_away: bool) -> &[u8]
        ensures { result.now ≡ (if is_away then self.now.other_name else self.now.plan_name) }
    {
        if is_away {
            self.other.as_bytes()
        } else {
            self.plan.as_bytes()
        }
    }
}
