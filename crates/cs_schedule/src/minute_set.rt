ghost use Rattle.std.specs.Prelude.{◌≡◌, ◌<◌, ◌≤◌, ◌+◌, ◌-◌, ◌*◌, ◌/◌, ◌%◌, [], ℕ, length, nat_eq, true, false, ◌||◌, ◌&&◌, ◌↔◌, IsTrue};
ghost use Rattle.std.specs.Iterator.{YieldsFirst, item_count};
ghost use Rattle.std.specs.Int.{bit_at};
ghost use Rattle.cs_schedule.specs.Numbers.{has, has_bit};
ghost use Rattle.cs_schedule.specs.Minutes.{is_in, is_shown, minutes_in, minutes_where};

use crate::numbers::Numbers;
use std::iter::FusedIterator;
use std::marker::Model;

/// A day has 45 blocks, from 0 for the one that begins at 00:00.
pub const MINUTES_OF_BLOCK: u16 = 32;

/// Minutes of a day, from 0 for 00:00 to 1,439 for 23:59, a bit each.
#[derive(Drop)]
pub struct MinuteSet {
    words: [u64; 23],
}

impl Model for MinuteSet {
    ghost use Rattle.std.specs.Prelude.{ℕ, List};
    ghost use Rattle.cs_schedule.specs.Minutes.{minutes_in};

    ghost Value = { List ℕ };

    ghost view = { λ s. minutes_in s.words };
}

/// Adds the minutes of the word at this place whose bits are set.
fn put(words: &mut [u64; 23], place: u16, bits: u64)
    ensures { (k : ℕ) → k < 1440
        → is_in words.new k
        ≡ (is_in words.old k || (nat_eq (k / 64) place && has_bit bits (k % 64))) }
{
    if place < 23 {
        words[place as usize] |= bits;
    }
}

/// Adds the minutes of an hour whose bits are set, from its first minute on. Those past midnight
/// count from the beginning of the day.
fn put_hour(words: &mut [u64; 23], first: u16, hour: u64)
    requires first { first < 1440 }
    requires hour { (i : ℕ) → 60 ≤ i → has_bit hour i ≡ false }
    ensures { (k : ℕ) → k < 1440
        → is_in words.new k ≡ (is_in words.old k || has_bit hour ((k + 1440 - first) % 1440)) }
{
    let (place, shift) = (first / 64, first % 64);
    put(words, place, hour << shift);
    put(words, place + 1, (hour >> 1) >> (63 - shift));
    put(words, 0, hour >> (1440 - first).min(63));
}

fn is_set(words: &[u64; 23], minute: u16) -> bool
    requires { minute < 1440 }
    ensures { result ≡ is_in words.now minute }
{
    (words[(minute / 64) as usize] >> (minute % 64)) & 1 == 1
}

/// The index of the lowest bit set; 64 if there is none.
fn lowest_bit(word: u64) -> u16
    ensures within { result ≤ 64 }
    ensures out { (i : ℕ) → i < result → bit_at word i ≡ 0 }
    ensures set { result < 64 → bit_at word result ≡ 1 }
{
    word.trailing_zeros() as u16
}

/// The first minute from this one on that is set in the same word; else the word's last.
fn near(words: &[u64; 23], minute: u16) -> u16
    requires { minute < 1440 }
    ensures from { minute ≤ result }
    ensures word { result / 64 ≡ minute / 64 }
    ensures day { result < 1440 }
    ensures out { (k : ℕ) → minute ≤ k → k < result → is_in words.now k ≡ false }
    ensures set { (k : ℕ) → minute ≤ k → k < 1440 → k / 64 ≡ minute / 64
        → is_in words.now k ≡ true → is_in words.now result ≡ true }
{
    let last = (minute / 64 * 64 + 63).min(1439);
    let clear = lowest_bit(words[(minute / 64) as usize] >> (minute % 64));
    (minute + clear).min(last)
}

fn is_alike(words: &[u64; 23], others: &[u64; 23], place: u16) -> bool
    requires { place < 23 }
    ensures { IsTrue result
        ↔ ((m : ℕ) → m < 1440 → m / 64 ≡ place → is_in words.now m ≡ is_in others.now m) }
{
    let unlike = lowest_bit(words[place as usize] ^ others[place as usize]);
    unlike == 64 || 64 * place + unlike >= 1440
}

impl MinuteSet {
    /// Returns the empty set.
    pub fn new() -> MinuteSet
        ensures { result ≡ [] }
    {
        MinuteSet { words: [0; 23] }
    }

    /// Returns the minutes in which a clock that is `turn` minutes ahead shows one of these times,
    /// from the time `from` on and before `to`.
    pub(crate) fn of_times(
        hours: &Numbers,
        minutes: &Numbers,
        turn: u16,
        from: u16,
        to: u16,
    ) -> MinuteSet
        requires { turn ≤ 1440 }
        ensures { result
            ≡ minutes_where (λ k. is_shown hours.now minutes.now from to ((k + turn) % 1440)) }
    {
        let mut words = [0u64; 23];
        let mut hour = lowest_bit(hours.bits_between(0, 24));
        while hour < 24 {
            let start = 60 * hour;
            let low = from.saturating_sub(start).min(60);
            let high = to.saturating_sub(start).min(60);
            let first = (start + 1440 - turn) % 1440;
            put_hour(&mut words, first, minutes.bits_between(low, high));
            hour = lowest_bit(hours.bits_between(hour + 1, 24));
        }
        MinuteSet { words }
    }

    /// Adds a minute of the day.
    pub fn insert(&mut self, minute: u16)
        requires { minute < 1440 }
        ensures { self.new ≡ minutes_where (λ k. nat_eq k minute || has self.old k) }
    {
        put(&mut self.words, minute / 64, 1 << (minute % 64));
    }

    /// Whether the minute is one of the set: false from 1,440 on.
    pub fn has(&self, minute: u16) -> bool
        ensures { result ≡ has self.now minute }
    {
        minute < 1_440 && is_set(&self.words, minute)
    }

    /// Returns the minutes of this block that are in the set, a bit each, the lowest for minute
    /// `MINUTES_OF_BLOCK * block`; 0 from block 45 on.
    pub fn bits_of_block(&self, block: u16) -> u32
        ensures { (place : ℕ) → place < MINUTES_OF_BLOCK
            → has_bit result place ≡ has self.now (MINUTES_OF_BLOCK * block + place) }
    {
        let words = &self.words;
        if block >= 45 {
            return 0;
        }
        let first = MINUTES_OF_BLOCK * block;
        let rest = words[(first / 64) as usize] >> (first % 64);
        (rest % (1 << MINUTES_OF_BLOCK)) as u32
    }

    /// Returns the number of minutes, at most 1,440.
    pub fn len(&self) -> usize
        ensures value { result ≡ length self.now }
        ensures within { result ≤ 1440 }
    {
        let mut count = 0;
        for minute in 0..1440 {
            if is_set(&self.words, minute) {
                count += 1;
            }
        }
        count
    }

    /// Whether there are none.
    pub fn is_empty(&self) -> bool
        ensures { IsTrue result ↔ (self.now ≡ []) }
    {
        self.len() == 0
    }

    /// Whether both sets have the same minutes.
    pub fn is_same(&self, other: &MinuteSet) -> bool
        ensures { IsTrue result ↔ ((m : ℕ) → m < 1440 → has self.now m ≡ has other.now m) }
    {
        for place in 0..23 {
            if !is_alike(&self.words, &other.words, place) {
                return false;
            }
        }
        true
    }

    /// Returns the minutes, rising.
    pub fn iter(&self) -> Minutes
        ensures { result ≡ self.now }
    {
        Minutes {
            words: self.words,
            next: 0,
        }
    }
}

/// The minutes of a set that are left, rising.
#[derive(Drop)]
pub struct Minutes {
    words: [u64; 23],
    next: u16,
}

impl Model for Minutes {
    ghost use Rattle.std.specs.Prelude.{ℕ, List, ◌≤◌};
    ghost use Rattle.cs_schedule.specs.Minutes.{minutes_from};

    ghost Value = { List ℕ };

    ghost view = { λ s. minutes_from s.words s.next };

    ghost invariant = { λ s. s.next ≤ 1440 };
}

impl Iterator for Minutes {
    type Item = u16;

    ghost next_gives = { YieldsFirst (λ s. s) };

    ghost remaining = { item_count (λ s. s) };

    fn next(&mut self) -> Option<u16> {
        while self.next < 1440 {
            let minute = near(&self.words, self.next);
            self.next = minute + 1;
            if is_set(&self.words, minute) {
                return Some(minute);
            }
        }
        None
    }
}

impl FusedIterator for Minutes {}
