//! How often a device has failed.
ghost use Rattle.std.specs.Prelude.{◌≡◌, ◌+◌, ◌<◌, ◌↔◌, IsTrue, if◌then◌else◌};
ghost use Rattle.cs_device.specs.Count.{most_failures};

use std::marker::Model;

/// How often a device has failed, up to the greatest number of 64 bits.
///
/// A device may report a failure only if its count rises; what it does on one more, it defines
/// itself.
#[derive(Clone, Copy, PartialEq, Eq)]
pub struct Failures {
    count: u64,
}

impl Model for Failures {
    ghost use Rattle.std.specs.Prelude.{ℕ, ◌≤◌};
    ghost use Rattle.cs_device.specs.Count.{most_failures};

    ghost Value = { ℕ };

    ghost view = { λ a. a.count };

    ghost invariant = { λ a. a.count ≤ most_failures };

    ghost inverse = { λ n. record { count = n } };
}

impl Failures {
    /// Returns no failures.
    pub fn none() -> Failures
        ensures { result ≡ 0 }
    {
        Failures { count: 0 }
    }

    /// Returns the number of failures.
    pub fn number(self) -> u64
        ensures { result ≡ self }
    {
        self.count
    }

    /// Counts a failure, and returns whether there was room for it.
    pub fn count(&mut self) -> bool
        ensures room { IsTrue result ↔ (self.old < most_failures) }
        ensures count { self.new ≡ (if result then self.old + 1 else self.old) }
    {
        match self.count.checked_add(1) {
            Some(count) => {
                self.count = count;
                true
            }
            None => false,
        }
    }
}
