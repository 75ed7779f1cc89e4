ghost use Rattle.std.specs.Prelude.{◌≡◌, ◌<◌, ◌≤◌, ◌||◌, ◌&&◌, [], ℕ, nat_eq, nat_le, nat_lt, All};
ghost use Rattle.cs_schedule.specs.Numbers.{has, has_bit, is_every, numbers_where, in_week, is_in_week};

use std::marker::Model;

/// Numbers below 64, a bit each.
#[derive(Drop)]
pub struct Numbers {
    word: u64,
}

impl Model for Numbers {
    ghost use Rattle.std.specs.Prelude.{ℕ, List};
    ghost use Rattle.cs_schedule.specs.Numbers.{numbers_in};

    ghost Value = { List ℕ };

    ghost view = { λ s. numbers_in s.word };
}

fn put(word: u64, number: u8) -> u64
    requires { number < 64 }
    ensures { (k : ℕ) → k < 64 → has_bit result k ≡ (nat_eq k number || has_bit word k) }
{
    word | 1u64 << number
}

fn is_every(first: u8, last: u8, step: u32, number: u8) -> bool
    requires { 0 < step }
    ensures { result ≡ is_every first last step number }
{
    first <= number && number <= last && u32::from(number - first) % step == 0
}

impl Numbers {
    fn is_in_week(&self, number: u8) -> bool
        ensures { result ≡ is_in_week self.now number }
    {
        number < 7 && (self.has(number) || (number == 0 && self.has(7)))
    }

    /// Returns the empty set.
    pub fn none() -> Numbers
        ensures { result ≡ [] }
    {
        Numbers { word: 0 }
    }

    /// Copies the numbers.
    pub fn copy(&self) -> Numbers
        ensures { result ≡ self.now }
    {
        Numbers { word: self.word }
    }

    /// Returns the first number and each `step`-th after it up to the last, of those below 64.
    pub fn every(first: u8, last: u8, step: u32) -> Numbers
        requires { 0 < step }
        ensures value { result ≡ numbers_where (is_every first last step) }
        ensures within { All (λ n. (first ≤ n) × (n ≤ last)) result }
    {
        let mut word = 0;
        for number in 0..64 {
            if is_every(first, last, step, number) {
                word = put(word, number);
            }
        }
        Numbers { word }
    }

    /// Returns the numbers of both.
    pub fn union(&self, other: &Numbers) -> Numbers
        ensures { result ≡ numbers_where (λ n. has self.now n || has other.now n) }
    {
        Numbers {
            word: self.word | other.word,
        }
    }

    /// Returns the weekdays among them, from 0 for Sunday; 7 counts as 0.
    pub fn in_week(&self) -> Numbers
        ensures value { result ≡ in_week self.now }
        ensures within { All (λ n. n ≤ 6) result }
    {
        let mut word = 0;
        for number in 0..64 {
            if self.is_in_week(number) {
                word = put(word, number);
            }
        }
        Numbers { word }
    }

    /// Returns those from `low` on and before `high`, a bit each.
    pub(crate) fn bits_between(&self, low: u16, high: u16) -> u64
        requires { (low ≤ 60) × (high ≤ 60) }
        ensures { (k : ℕ)
            → has_bit result k ≡ (nat_le low k && (nat_lt k high && has self.now k)) }
    {
        self.word & ((1u64 << high) - 1) & (u64::MAX << low)
    }

    /// Whether the number is one of these.
    pub fn has(&self, number: u8) -> bool
        ensures { result ≡ has self.now number }
    {
        number < 64 && (self.word >> number) & 1 == 1
    }
}
