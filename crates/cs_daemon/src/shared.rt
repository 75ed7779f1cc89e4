//! What all threads of a daemon share.
ghost use Rattle.std.specs.Prelude.{◌≡◌, ◌<◌, ◌≤◌, ◌^◌};

use crate::dispatch::{Dispatch, Taken};
use crate::log::Log;
use crate::plan_ledger::PlanLedger;
use cs_civil::Sequence;
use cs_keep::Seat;
use cs_owner::Owner;
use cs_plan::Plan;
use std::alloc::Global;
use std::io;
use std::sync::ledger::Ledger;
use std::sync::{Condvar, Mutex, Wait};

/// One lock is for the keep, with a bell for workers that wait for a start, and one for the log; a
/// thread holds at most one of them.
pub(crate) struct Shared<'w, J: PlanLedger, T: Ledger, R, G, O> {
    pub(crate) rt: &'w R,
    pub(crate) alloc: Global,
    pub(crate) plan: &'w Plan,
    pub(crate) owners: Sequence<Owner>,
    pub(crate) gate: &'w G,
    pub(crate) dispatch: Mutex<Dispatch<J, T>>,
    pub(crate) bell: Condvar,
    pub(crate) log: Mutex<Log<'w, O>>,
    ghost same: { plan.now ≡ J.plan },
}

impl<'w, J: PlanLedger, T: Ledger, R: Wait, G, O: io::Write> Shared<'w, J, T, R, G, O> {
    /// Waits for a start; `None` when no more will come.
    pub(crate) fn next(&self) -> Option<Taken> {
        let mut guard = self.dispatch.lock(self.rt);
        for _ in self.rt.forever() {
            let dispatch = &mut *guard;
            if let Some(taken) = dispatch.take() {
                return Some(taken);
            }
            if !dispatch.is_waiting() {
                return None;
            }
            guard = self.bell.wait(self.rt, guard);
        }
        None
    }

    /// Goes down, and lets the workers end when no start is left.
    pub(crate) fn go_down(&self, seat: &mut Seat<J>)
        ensures grows { seat.old.share ≤ seat.new.share }
        ensures parts { seat.new.parts ≡ seat.old.parts }
        ensures fits { seat.new.share < 2 ^ 64 }
    {
        self.dispatch.lock(self.rt).go_down(seat);
        self.bell.notify_all();
    }
}
