ghost use Rattle.std.specs.Prelude.{◌≡◌, ◌^◌, ◌+◌, ◌-◌, ◌<◌, ◌≤◌, ◌↔◌, [], ◌∷◌, ℕ, List, IsTrue, length, slice_index, slice_set};
ghost use Rattle.cs_wait.specs.Bounds.{StepsHold, StepsHoldWithin, at, at_days, none};

use crate::backlog::{Backlog, Walk, last_fall, turn};
use cs_civil::MINUTES_OF_DAY;
use std::marker::Model;

/// For each minute of a day, the minutes of runs that may begin to wait for a group's lock.
#[derive(Drop)]
pub struct Arrivals {
    sums: [u32; 1_440],
}

impl Model for Arrivals {
    ghost Value = { List ℕ };

    ghost view = { λ a. a.sums };
}

impl Arrivals {
    /// Returns arrivals of nothing at any minute.
    pub fn none() -> Self
        ensures value { result ≡ none }
        ensures zero { (minute : ℕ) → minute < 1440 → slice_index result minute ≡ 0 }
    {
        Arrivals { sums: [0; 1_440] }
    }

    /// Adds a job that is due at a minute of the day, with runs of at most `max` minutes. Other
    /// minutes keep their arrivals.
    pub fn add(&mut self, minute: u16, max: u16)
        requires day { minute < 1440 }
        requires fits { slice_index self.old minute + max < 2 ^ 32 }
        ensures { self.new ≡ slice_set self.old minute (slice_index self.old minute + max) }
    {
        self.sums[usize::from(minute)] += u32::from(max);
    }

    /// Returns the arrivals at a minute of the day, in minutes of runs.
    pub fn at(&self, minute: u16) -> u32
        requires { minute < 1440 }
        ensures { result ≡ slice_index self.now minute }
    {
        self.sums[usize::from(minute)]
    }

    pub(crate) fn by_minute(&self) -> &[u32]
        ensures value { result.now ≡ self.now }
        ensures long { length result.now ≡ 1440 }
    {
        &self.sums
    }
}

/// The first of these minutes with arrivals, or the last of them.
pub(crate) fn next_arrival(sums: &[u32], first: u16, last: u16) -> u16
    requires { (first ≤ last) × (last < length sums.now) }
    ensures within { (first ≤ result) × (result ≤ last) }
    ensures quiet { (t : ℕ) → first ≤ t → t < result → slice_index sums.now t ≡ 0 }
{
    for minute in first..last {
        if sums[usize::from(minute)] > 0 {
            return minute;
        }
    }
    last
}

/// Checks each step from a minute of the day to the next, except over midnight: the later bound is
/// at least the earlier plus the arrivals, less one, and at least 0. Only steps with arrivals and
/// steps to a piece can fail.
pub fn steps_within(bounds: &Backlog, arrivals: &Arrivals) -> bool
    ensures { IsTrue result ↔ StepsHoldWithin (at bounds.now) (slice_index arrivals.now) }
{
    let list = bounds.pieces();
    let mut walk = turn(list, Walk { place: 0, bound: 0 }, 0);
    let mut minute = 0;
    while minute < MINUTES_OF_DAY - 1 {
        let last = last_fall(list, walk, minute);
        let step = next_arrival(&arrivals.sums, minute, last);
        let bound = walk.bound.saturating_sub(u32::from(step - minute));
        minute = step + 1;
        walk.bound = bound.saturating_sub(1);
        walk = turn(list, walk, minute);
        if !follows(bound, arrivals.sums[usize::from(step)], walk.bound) {
            return false;
        }
    }
    true
}

fn follows(before: u32, arrives: u32, bound: u32) -> bool
    ensures { IsTrue result ↔ (before + arrives - 1 ≤ bound) }
{
    u64::from(before) + u64::from(arrives) <= u64::from(bound) + 1
}

/// Checks the step from a minute of the first day, `before`, to the next minute, which after 23:59
/// is the first of the next day, `day`: the later bound is at least the earlier plus the arrivals
/// of the first day, less one, and at least 0.
pub fn step_ok(before: &Backlog, arrivals: &Arrivals, day: &Backlog, minute: u16) -> bool
    requires { minute < MINUTES_OF_DAY }
    ensures { IsTrue result ↔ (at before.now minute + slice_index arrivals.now minute - 1
        ≤ at_days (at before.now ∷ at day.now ∷ []) (minute + 1)) }
{
    let next = bound_over(before, day, minute + 1);
    follows(before.at(minute), arrivals.at(minute), next)
}

/// Checks each step of the first day, like [`step_ok`], also the one over midnight to the next day.
pub fn steps_ok(before: &Backlog, arrivals: &Arrivals, day: &Backlog) -> bool
    ensures { IsTrue result
        ↔ StepsHold (at before.now) (slice_index arrivals.now) (at day.now) }
{
    steps_within(before, arrivals) && step_ok(before, arrivals, day, MINUTES_OF_DAY - 1)
}

fn bound_over(before: &Backlog, day: &Backlog, minute: u16) -> u32
    requires { minute ≤ MINUTES_OF_DAY }
    ensures { result ≡ at_days (at before.now ∷ at day.now ∷ []) minute }
{
    if minute < MINUTES_OF_DAY {
        before.at(minute)
    } else {
        day.at(minute - MINUTES_OF_DAY)
    }
}
