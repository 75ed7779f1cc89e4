ghost use Rattle.std.specs.Prelude.{◌≡◌};
ghost use Rattle.cs_schedule.specs.Numbers.{has};

use crate::numbers::Numbers;
use std::marker::Model;

/// A time and date field: its numbers, and whether its text begins with `*`.
#[derive(Drop)]
pub struct Field {
    starred: bool,
    chosen: Numbers,
}

impl Model for Field {
    ghost use Rattle.cs_schedule.specs.Times.{Choice};

    ghost Value = { Choice };

    ghost view = { λ a. record { star = a.starred; numbers = a.chosen } };
}

impl Field {
    /// Returns the field with these numbers.
    pub fn new(star: bool, numbers: Numbers) -> Field
        ensures { result ≡ record { star = star; numbers = numbers } }
    {
        Field {
            starred: star,
            chosen: numbers,
        }
    }

    /// Copies the field.
    pub fn copy(&self) -> Field
        ensures { result ≡ self.now }
    {
        Field {
            starred: self.starred,
            chosen: self.chosen.copy(),
        }
    }

    /// Whether its text begins with `*`.
    pub fn begins_with_star(&self) -> bool
        ensures { result ≡ self.now.star }
    {
        self.starred
    }

    /// Returns its numbers.
    pub fn numbers(&self) -> &Numbers
        ensures { result.now ≡ self.now.numbers }
    {
        &self.chosen
    }

    /// Whether the number is one of its numbers.
    pub fn has(&self, number: u8) -> bool
        ensures { result ≡ has self.now.numbers number }
    {
        self.chosen.has(number)
    }
}
