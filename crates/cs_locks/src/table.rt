ghost use Rattle.std.specs.Prelude.{◌≡◌, ◌<◌, ◌++◌, ◌∷◌, [], List, not, true};
ghost use Rattle.std.specs.List.{AllByRecursion, list_any};
ghost use Rattle.cs_locks.specs.Locks.{HasRoom, IsCounted, IsWithOne, bars, frees_in, is_listed, takes};
ghost use Rattle.cs_locks.specs.declared.hold.Hold.{Hold};

use crate::hold::Hold;
use std::marker::Model;

/// The most groups of a plan.
const GROUPS: usize = 64;

/// For each group, how many runs hold its lock, or wait for it, exclusively, and how many share it.
/// No call allocates, and each takes the same time, however many runs are counted.
#[derive(Drop)]
pub struct LockTable {
    alone: [u64; GROUPS],
    shared: [u64; GROUPS],
}

impl Model for LockTable {
    ghost use Rattle.cs_locks.specs.Locks.{Counts};

    ghost Value = { Counts };

    ghost view = { λ t. record { alone = t.alone; shared = t.shared } };
}

impl LockTable {
    /// Returns an empty table.
    pub fn new() -> LockTable
        ensures { IsCounted [] result }
    {
        LockTable {
            alone: [0; GROUPS],
            shared: [0; GROUPS],
        }
    }

    /// Removes all runs from the count.
    pub fn clear(&mut self)
        ensures { IsCounted [] self.new }
    {
        *self = LockTable::new();
    }

    /// Counts a run.
    pub fn add(&mut self, hold: Hold)
        requires listed { is_listed hold ≡ true }
        requires room { HasRoom self.old }
        ensures { (hs : List Hold) → IsCounted hs self.old → IsCounted (hs ++ hold ∷ []) self.new }
    {
        match hold {
            Hold::Nothing => {}
            Hold::Alone(group) => self.alone[usize::from(group)] += 1,
            Hold::Shared(group) => self.shared[usize::from(group)] += 1,
        }
    }

    /// Removes a counted run from the count.
    pub fn take(&mut self, hold: Hold)
        requires listed { is_listed hold ≡ true }
        ensures { (hs ks : List Hold) → IsWithOne hold ks hs
            → IsCounted hs self.old → IsCounted ks self.new }
    {
        match hold {
            Hold::Nothing => {}
            Hold::Alone(group) => {
                let group = usize::from(group);
                self.alone[group] = self.alone[group].saturating_sub(1);
            }
            Hold::Shared(group) => {
                let group = usize::from(group);
                self.shared[group] = self.shared[group].saturating_sub(1);
            }
        }
    }

    /// Whether no counted run keeps the lock from a run.
    pub fn is_free(&self, hold: Hold) -> bool
        requires listed { is_listed hold ≡ true }
        ensures { (hs : List Hold) → IsCounted hs self.now
            → result ≡ not (list_any (bars hold) hs) }
    {
        match hold {
            Hold::Nothing => true,
            Hold::Alone(group) => {
                let group = usize::from(group);
                self.alone[group] == 0 && self.shared[group] == 0
            }
            Hold::Shared(group) => self.alone[usize::from(group)] == 0,
        }
    }

    /// Whether a waiting run would find its lock free.
    pub fn frees(&self, waiting: &LockTable) -> bool
        ensures { (hs ws : List Hold) → IsCounted hs self.now → IsCounted ws waiting.now
            → AllByRecursion (λ w. takes w ≡ true) ws
            → AllByRecursion (λ w. is_listed w ≡ true) ws
            → result ≡ list_any (λ w. not (list_any (bars w) hs)) ws }
    {
        for group in 0..GROUPS {
            if self.frees_in(group, waiting) {
                return true;
            }
        }
        false
    }

    fn frees_in(&self, group: usize, waiting: &LockTable) -> bool
        requires { group < 64 }
        ensures { result ≡ frees_in self.now waiting.now group }
    {
        self.alone[group] == 0
            && (waiting.shared[group] > 0 || (waiting.alone[group] > 0 && self.shared[group] == 0))
    }
}
