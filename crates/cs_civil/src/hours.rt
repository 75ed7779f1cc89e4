ghost use Rattle.std.specs.Prelude.{◌≡◌, ◌↔◌, IsSome, IfSome};
ghost use Rattle.cs_civil.specs.Hours.{ArePossible};

use crate::minute::MINUTES_OF_DAY;
use std::marker::Model;

/// The catch-up hours: the minutes of a day, from one up to but without another, in which an
/// anacron job may start (`START_HOURS_RANGE` of `anacrontab(5)`, in minutes).
#[derive(Clone, Copy, PartialEq, Eq)]
pub struct Hours {
    first: u16,
    end: u16,
}

impl Model for Hours {
    ghost use Rattle.cs_civil.specs.Hours.{CatchUpHours, ArePossible};

    ghost Value = { CatchUpHours };

    ghost view = { λ h. record { from = h.first; to = h.end } };

    ghost invariant = { λ h. ArePossible (record { from = h.first; to = h.end }) };

    ghost inverse = { λ v. record { first = v.from; end = v.to } };
}

impl Hours {
    /// Returns the hours between these minutes; `None` if they aren't some minutes of one day.
    pub fn new(from: u64, to: u64) -> Option<Hours>
        ensures possible { IsSome result ↔ ArePossible (record { from = from; to = to }) }
        ensures value { IfSome result (λ hours. hours ≡ record { from = from; to = to }) }
    {
        if from >= to || to > u64::from(MINUTES_OF_DAY) {
            return None;
        }
        Some(Hours {
            first: from as u16,
            end: to as u16,
        })
    }

    /// Returns the first minute of the day, from 0, in which a job may start.
    pub fn from(self) -> u16
        ensures value { result ≡ self.from }
        ensures in_range { ArePossible self }
    {
        self.first
    }

    /// Returns the end, up to 1,440: the minute of the day from which on no job may start.
    pub fn to(self) -> u16
        ensures value { result ≡ self.to }
        ensures in_range { ArePossible self }
    {
        self.end
    }
}
