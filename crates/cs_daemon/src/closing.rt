//! What a daemon does and returns at its end.
ghost use Rattle.std.proofs.Props.{props};
ghost use Rattle.std.specs.Prelude.{◌≡◌, ◌≢◌, ◌+◌, ◌≤◌, IfSome, List, None, Option, Some, sum, ℕ};
ghost use Rattle.arrayvec.specs.ArrayVec.{array_vec_len};
ghost use Rattle.cs_check.specs.Checked.{plan_in};
ghost use Rattle.cs_daemon.specs.Rest.{IsLeftIn};
ghost use Rattle.cs_daemon.specs.Stamps.{AreWritten};
ghost use Rattle.cs_keep.specs.Closed.{checked_in, keeping_in};
ghost use Rattle.cs_keep.specs.Keeping.{IsKept};

use crate::end::{Cause, DaemonEnd};
use crate::plan_ledger::PlanLedger;
use crate::shared::Shared;
use crate::stamps::{Stored, stamps_of};
use crate::threads::Gathered;
use arrayvec::ArrayVec;
use cs_check::Checked;
use cs_civil::{Minute, Sequence};
use cs_device::StampStore;
use cs_keep::Keep;
use cs_owner::Owner;
use std::io;
use std::sync::ledger::Ledger;

/// Zeros for the clock's thread and each worker.
fn no_shares(workers: usize) -> ArrayVec<u64, 65>
    requires { workers ≤ 64 }
    ensures len { array_vec_len result ≡ workers + 1 }
    ensures sum { sum result.items ≡ 0 }
{
    let mut shares: ArrayVec<u64, 65> = ArrayVec::new();
    shares.push(0);
    for _ in 0..workers {
        shares.push(0);
    }
    shares
}

pub(crate) fn no_keep(
    cause: Cause,
    owners: Sequence<Owner>,
    workers: usize,
    stamp_faults: u64,
    log_faults: u64,
) -> DaemonEnd
    requires { workers ≤ 64 }
    ensures cause { result.cause ≡ cause }
    ensures total { result.total ≡ 0 }
    ensures len { array_vec_len result.shares ≡ workers + 1 }
    ensures sum { sum result.shares.items ≡ 0 }
    ensures keep { result.keep ≡ None }
    ensures owners { result.owners ≡ owners }
    ensures faults { result.stamp_faults ≡ stamp_faults }
    ensures rest { result.rest ≡ None }
{
    DaemonEnd {
        cause,
        total: 0,
        shares: no_shares(workers),
        keep: None,
        owners,
        not_started: 0,
        overruns: 0,
        stamp_faults,
        log_faults,
        rest: None,
    }
}

#[derive(Drop)]
pub(crate) struct Left<J: PlanLedger> {
    keep: Keep<J>,
    owners: Sequence<Owner>,
    overruns: u64,
    pub(crate) stamp_faults: u64,
    log_faults: u64,
    rest: Option<Minute>,
    ghost plan: { keep.core.plan ≡ J.plan },
    ghost left: { IfSome rest (IsLeftIn keep) } by { Prim.hlevel props },
}

impl<J: PlanLedger> Left<J> {
    /// Tries once more to write each stamp that the store lacks.
    pub(crate) fn behind<T: Ledger, R, G, S: StampStore, O: io::Write>(
        shared: Shared<'_, J, T, R, G, O>,
        store: &mut S,
        stored: Stored,
    ) -> Left<J>
        ensures written { (known : List (Option ℕ))
            × AreWritten S.writes shared.entry.plan.now.anacrontab.lines
            result.keep.core.state.stamps stored.stamps.items store.old known store.new }
        ensures owners { result.owners ≡ shared.entry.owners }
        ensures faults { result.stamp_faults + S.failures store.old
            ≤ stored.faults + S.failures store.new }
    {
        let Shared {
            rt: _,
            alloc: _,
            plan,
            owners,
            gate: _,
            dispatch,
            bell: _,
            log,
        } = shared;
        let (keep, overruns, rest) = dispatch.into_inner().into_parts();
        let mut log = log.into_inner();
        let mut stored = stored;
        let stamps = stamps_of(&keep);
        let failed = stored.write(plan, store, &stamps);
        log.write_unwritten(failed.as_slice());
        Left {
            keep,
            owners,
            overruns,
            stamp_faults: stored.faults,
            log_faults: log.faults(),
            rest,
        }
    }

    pub(crate) fn close(self, checked: Checked, gathered: Gathered<J>) -> DaemonEnd
        requires plan { plan_in checked ≡ J.plan }
        requires parts { gathered.seat.parts ≡ J.parts }
        ensures cause { result.cause ≡ gathered.cause }
        ensures shares { result.shares ≡ gathered.shares }
        ensures sum { sum result.shares.items ≡ result.total }
        ensures some { result.keep ≢ None }
        ensures checked { IfSome result.keep (λ kept. checked_in kept ≡ checked) }
        ensures kept { IfSome result.keep (λ kept. IsKept (keeping_in kept)) }
        ensures total { IfSome result.keep (λ kept. (keeping_in kept).total ≡ result.total) }
        ensures core { IfSome result.keep (λ kept. (keeping_in kept).core ≡ self.keep.core) }
        ensures owners { result.owners ≡ self.owners }
        ensures faults { result.stamp_faults ≡ self.stamp_faults }
        ensures rest { IfSome result.rest
            (λ m. IfSome result.keep (λ kept. IsLeftIn (keeping_in kept) m)) }
    {
        let Gathered {
            cause,
            seat,
            shares,
            not_started,
        } = gathered;
        let mut keep = self.keep;
        let mut seat = seat;
        keep.audit(&mut seat);
        let kept = keep.close(checked);
        let _core = kept.core();
        DaemonEnd {
            cause,
            total: kept.total(),
            shares,
            keep: Some(kept),
            owners: self.owners,
            not_started,
            overruns: self.overruns,
            stamp_faults: self.stamp_faults,
            log_faults: self.log_faults,
            rest: self.rest,
        }
    }
}
