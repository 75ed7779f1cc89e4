//! A thread's part in the count of steps.
ghost use Rattle.std.specs.Prelude.{◌≡◌, ◌<◌, ◌^◌, MatchOption};
ghost use Rattle.cs_keep.specs.Seat.{IsSplit, joined, saturated};

use std::marker::Model;
use std::sync::ledger::{Ledger, Share};

/// Some parts of a keep's ledger, a share of its total, and the total last seen. Its type ties it
/// to its keep.
#[derive(Drop)]
pub struct Seat<L: Ledger> {
    pub(crate) mark: Share<L>,
    pub(crate) parts: u64,
    // It stays at the greatest number once there.
    pub(crate) share: u64,
    pub(crate) seen: u64,
}

impl<L: Ledger> Model for Seat<L> {
    ghost use Rattle.std.specs.Prelude.{◌≡◌, ◌<◌};
    ghost use Rattle.cs_keep.specs.Seat.{Place, saturated};

    ghost Value = { Place };

    ghost view = { λ a. record { parts = a.parts; share = a.mark.amount; seen = a.seen } };

    ghost invariant = { λ a. (a.mark.parts ≡ a.parts) × (0 < a.parts)
        × (a.share ≡ saturated a.mark.amount) };
}

impl<L: Ledger> Seat<L> {
    /// Returns how many parts it holds.
    pub fn parts(&self) -> u64
        ensures value { result ≡ self.now.parts }
        ensures some { 0 < self.now.parts }
    {
        self.parts
    }

    /// Returns how many steps were made through it; 2^64 - 1 for that many or more.
    pub fn share(&self) -> u64
        ensures { result ≡ saturated self.now.share }
    {
        self.share
    }

    /// Returns the total last seen.
    pub fn seen(&self) -> u64
        ensures { result ≡ self.now.seen }
    {
        self.seen
    }

    /// Moves one part to a new seat without a share; `None` if this one has only one part.
    pub fn split(&mut self) -> Option<Seat<L>>
        ensures { MatchOption result
            ((self.old.parts ≡ 1) × (self.new ≡ self.old))
            (λ other. (1 < self.old.parts) × IsSplit self.old other self.new) }
    {
        if self.parts == 1 {
            return None;
        }
        let mark = self.mark.split_off(1, 0);
        self.parts -= 1;
        Some(Seat {
            mark,
            parts: 1,
            share: 0,
            seen: self.seen,
        })
    }

    /// Takes over the other seat's parts and share, and keeps the greater total seen.
    pub fn join(&mut self, other: Seat<L>)
        requires { L.parts < 2 ^ 64 }
        ensures { self.new ≡ joined self.old other }
    {
        let Seat {
            mark,
            parts,
            share,
            seen,
        } = other;
        self.mark.merge(mark);
        self.parts += parts;
        self.share = self.share.saturating_add(share);
        self.seen = self.seen.max(seen);
    }
}
