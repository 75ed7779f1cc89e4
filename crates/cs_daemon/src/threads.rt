//! The threads of a daemon: one for each runner, and one for the clock.
ghost use Rattle.std.specs.Prelude.{◌≡◌, ◌+◌, ◌<◌, ◌≤◌, ◌^◌, [], ◌∷◌, ◌++◌, IfSome, Some, slice_index_or, sum, vec_len};
ghost use Rattle.arrayvec.specs.ArrayVec.{array_vec_len};
ghost use Rattle.cs_civil.specs.Calendar.{last_minute};
ghost use Rattle.cs_daemon.specs.Causes.{IsBack};
ghost use Rattle.cs_daemon.specs.Stamps.{HaveBeenWritten};
ghost use Rattle.cs_daemon.specs.declared.end.Cause.TheVariants.{Stopped, LastMinute, ClockBack, ClockFailed};
ghost use Rattle.cs_device.specs.declared.clock.Tick.TheVariants.{At, Stop};

use crate::clock_thread::ClockEnd;
use crate::end::Cause;
use crate::plan_ledger::PlanLedger;
use crate::shared::Shared;
use crate::stamps::Stored;
use crate::worker::WorkerEnd;
use arrayvec::ArrayVec;
use cs_civil::Minute;
use cs_device::{Clock, Gate, Runner, StampStore};
use cs_keep::Seat;
use std::sync::Wait;
use std::sync::ledger::{Ledger, Share};
use std::thread::{Scope, Threads};
use std::{io, thread};

/// What the joined threads returned. The seat holds all of their parts.
#[derive(Drop)]
pub(crate) struct Gathered<J: PlanLedger> {
    pub(crate) cause: Cause,
    pub(crate) seat: Seat<J>,
    pub(crate) shares: ArrayVec<u64, 65>,
    pub(crate) not_started: u64,
    pub(crate) ghost whole: { sum shares.items ≡ seat.share },
}

impl<J: PlanLedger> Gathered<J> {
    fn new(end: ClockEnd<J>) -> Gathered<J>
        ensures cause { result.cause ≡ end.cause }
        ensures seat { result.seat ≡ end.seat }
        ensures shares { result.shares.items ≡ end.seat.share ∷ [] }
    {
        let ClockEnd { cause, seat } = end;
        let mut shares: ArrayVec<u64, 65> = ArrayVec::new();
        shares.push(seat.share());
        Gathered {
            cause,
            seat,
            shares,
            not_started: 0,
        }
    }

    fn add(&mut self, end: WorkerEnd<J>)
        requires { (array_vec_len self.old.shares < 65) × (J.parts < 2 ^ 64) }
        ensures cause { self.new.cause ≡ self.old.cause }
        ensures parts { self.new.seat.parts ≡ self.old.seat.parts + 1 }
        ensures shares { self.new.shares.items ≡ self.old.shares.items ++ end.seat.share ∷ [] }
    {
        let WorkerEnd { seat, not_started } = end;
        self.shares.push(seat.share());
        self.seat.join(seat);
        self.not_started = self.not_started.saturating_add(not_started);
    }
}

/// Starts a thread for the first runner, goes on with the rest, and joins it. With no runner left,
/// this thread follows the clock. If a thread can't be made, the clock isn't asked.
fn with_workers<
    's,
    'a: 's,
    'w: 'a,
    J: PlanLedger + Send + Sync,
    T: Ledger + Send + Sync,
    R: Threads + Wait + Sync,
    C: Clock,
    W: Runner + Send + Drop + 'a,
    G: Gate + Sync,
    S: StampStore,
    O: io::Write + Send,
>(
    scope: &'s Scope<'s, &'a ()>,
    shared: &'a Shared<'w, J, T, R, G, O>,
    runners: Vec<W>,
    clock: &mut C,
    store: &mut S,
    stored: &mut Stored,
    seat: Seat<J>,
    time: Share<T>,
    first: Option<Minute>,
) -> Gathered<J>
    requires few { (vec_len runners ≤ 64) × (J.parts < 2 ^ 64) }
    requires whole { time.parts ≡ T.parts }
    requires now { IfSome first (λ m. time.amount ≡ m) }
    requires top { IfSome first (λ m. m ≤ C.top clock.old) }
    requires last { IfSome first (λ m. C.last clock.old ≡ Some (At m)) }
    requires parts { seat.parts ≡ vec_len runners + 1 }
    requires fresh { seat.share ≡ 0 }
    ensures stopped { result.cause ≡ Stopped → C.last clock.new ≡ Some Stop }
    ensures back { result.cause ≡ ClockBack → IsBack (C.top clock.new) (C.last clock.new) }
    ensures end { result.cause ≡ LastMinute → C.last clock.new ≡ Some (At last_minute) }
    ensures rises { result.cause ≡ Stopped
        → C.risen clock.new ≤ C.risen clock.old + slice_index_or result.shares.items 0 0 }
    ensures failures { C.failures clock.old ≤ C.failures clock.new }
    ensures failed { result.cause ≡ ClockFailed → C.failures clock.old < C.failures clock.new }
    ensures parts { result.seat.parts ≡ vec_len runners + 1 }
    ensures shares { array_vec_len result.shares ≡ vec_len runners + 1 }
    ensures written { HaveBeenWritten S.writes J.plan stored.old.stamps.items store.old
        stored.new.stamps.items store.new }
    ensures faults { stored.new.faults + S.failures store.old
        ≤ stored.old.faults + S.failures store.new }
{
    let mut rest = runners;
    let Some(runner) = rest.pop() else {
        return Gathered::new(shared.lead(clock, store, stored, seat, time, first));
    };
    let mut seat = seat;
    let Some(theirs) = seat.split() else {
        unreachable!()
    };
    let job = move || -> WorkerEnd<J>
        requires { theirs.parts ≡ 1 }
    {
        let seat = theirs;
        let mut runner = runner;
        shared.work(&mut runner, seat)
    };
    let spawned = scope.spawn(job);
    let first = if spawned.is_ok() { first } else { None };
    let mut gathered = with_workers(scope, shared, rest, clock, store, stored, seat, time, first);
    let end = match spawned {
        Ok(handle) => handle.join(shared.rt),
        Err(refused) => (refused.value)(),
    };
    gathered.add(end);
    gathered
}

// A use that does nothing, and ties a returned reference to the parameter that lent it.
fn take_back<T>(x: &mut T)
    ensures { x.new ≡ x.old }
{}

pub(crate) fn run_threads<
    'a,
    'w: 'a,
    J: PlanLedger + Send + Sync,
    T: Ledger + Send + Sync,
    R: Threads + Wait + Sync,
    C: Clock,
    W: Runner + Send + Drop + 'a,
    G: Gate + Sync,
    S: StampStore,
    O: io::Write + Send,
>(
    shared: &'a Shared<'w, J, T, R, G, O>,
    runners: Vec<W>,
    clock: &mut C,
    store: &mut S,
    stored: Stored,
    seat: Seat<J>,
    time: Share<T>,
    first: Minute,
) -> (Stored, Gathered<J>)
    requires few { (vec_len runners ≤ 64) × (J.parts < 2 ^ 64) }
    requires whole { time.parts ≡ T.parts }
    requires now { time.amount ≡ first }
    requires top { first ≤ C.top clock.old }
    requires last { C.last clock.old ≡ Some (At first) }
    requires parts { seat.parts ≡ vec_len runners + 1 }
    requires fresh { seat.share ≡ 0 }
    ensures stopped { result.1.cause ≡ Stopped → C.last clock.new ≡ Some Stop }
    ensures back { result.1.cause ≡ ClockBack → IsBack (C.top clock.new) (C.last clock.new) }
    ensures end { result.1.cause ≡ LastMinute → C.last clock.new ≡ Some (At last_minute) }
    ensures rises { result.1.cause ≡ Stopped
        → C.risen clock.new ≤ C.risen clock.old + slice_index_or result.1.shares.items 0 0 }
    ensures failures { C.failures clock.old ≤ C.failures clock.new }
    ensures failed { result.1.cause ≡ ClockFailed → C.failures clock.old < C.failures clock.new }
    ensures parts { result.1.seat.parts ≡ vec_len runners + 1 }
    ensures shares { array_vec_len result.1.shares ≡ vec_len runners + 1 }
    ensures written { HaveBeenWritten S.writes J.plan stored.stamps.items store.old
        result.0.stamps.items store.new }
    ensures faults { result.0.faults + S.failures store.old
        ≤ stored.faults + S.failures store.new }
{
    let (clock, store, stored, gathered) = thread::scope(
        thread::scope_env::<'a>(),
        shared.rt,
        move |scope| -> (&mut C, &mut S, Stored, Gathered<J>)
            requires few { (vec_len runners ≤ 64) × (J.parts < 2 ^ 64) }
            requires time { (time.parts ≡ T.parts) × (time.amount ≡ first) }
            requires top { first ≤ C.top clock.now }
            requires last { C.last clock.now ≡ Some (At first) }
            requires seat { (seat.parts ≡ vec_len runners + 1) × (seat.share ≡ 0) }
            ensures same { (result.0.ghost_name ≡ clock.entry.ghost_name)
                × (result.1.ghost_name ≡ store.entry.ghost_name) }
            ensures stopped { result.3.cause ≡ Stopped → C.last result.0.now ≡ Some Stop }
            ensures back { result.3.cause ≡ ClockBack
                → IsBack (C.top result.0.now) (C.last result.0.now) }
            ensures end { result.3.cause ≡ LastMinute
                → C.last result.0.now ≡ Some (At last_minute) }
            ensures rises { result.3.cause ≡ Stopped → C.risen result.0.now
                ≤ C.risen clock.entry.now + slice_index_or result.3.shares.items 0 0 }
            ensures failures { C.failures clock.entry.now ≤ C.failures result.0.now }
            ensures failed { result.3.cause ≡ ClockFailed
                → C.failures clock.entry.now < C.failures result.0.now }
            ensures parts { result.3.seat.parts ≡ vec_len runners + 1 }
            ensures shares { array_vec_len result.3.shares ≡ vec_len runners + 1 }
            ensures written { HaveBeenWritten S.writes J.plan stored.stamps.items
                store.entry.now result.2.stamps.items result.1.now }
            ensures faults { result.2.faults + S.failures store.entry.now
                ≤ stored.faults + S.failures result.1.now }
        {
            let seat = seat;
            let time = time;
            let runners = runners;
            let mut stored = stored;
            let gathered = with_workers(
                scope,
                shared,
                runners,
                clock,
                store,
                &mut stored,
                seat,
                time,
                Some(first),
            );
            (clock, store, stored, gathered)
        },
    );
    take_back(clock);
    take_back(store);
    (stored, gathered)
}
