//! Runs a daemon as a whole.
ghost use Rattle.std.specs.Prelude.{◌≡◌, ◌≢◌, ◌+◌, ◌<◌, ◌≤◌, IfErr, IfOk, IfSome, MatchOption, None, Some, slice_index_or, sum, vec_len};
ghost use Rattle.arrayvec.specs.ArrayVec.{array_vec_len};
ghost use Rattle.cs_check.specs.Checked.{plan_in};
ghost use Rattle.cs_civil.specs.Calendar.{last_minute};
ghost use Rattle.cs_daemon.specs.Causes.{IsBack, IsBeforeFirst};
ghost use Rattle.cs_daemon.specs.Rest.{IsLeftIn};
ghost use Rattle.cs_daemon.specs.Stamps.{AreKept, AreRead, IsOnlyRead};
ghost use Rattle.cs_daemon.specs.declared.end.Cause.TheVariants.{Stopped, LastMinute, ClockBack, ClockFailed, HistoryFull};
ghost use Rattle.cs_device.specs.declared.clock.Tick.TheVariants.{At, Stop};
ghost use Rattle.cs_history.specs.Plan.{first_start};
ghost use Rattle.cs_keep.specs.Closed.{checked_in, keeping_in};
ghost use Rattle.cs_keep.specs.Keeping.{IsKept};
ghost use Rattle.cs_keep.specs.Seat.{all_parts};

use crate::closing::{Left, no_keep};
use crate::dispatch::Dispatch;
use crate::end::{Cause, DaemonEnd};
use crate::log::Log;
use crate::plan_ledger::PlanLedger;
use crate::shared::Shared;
use crate::stamps::Stored;
use crate::threads::run_threads;
use cs_check::Checked;
use cs_civil::{Minute, Sequence};
use cs_device::{Clock, Gate, Runner, StampStore, Tick};
use cs_history::Start;
use cs_keep::{Keep, Seat};
use cs_owner::Owner;
use cs_plan::Plan;
use std::alloc::Global;
use std::io;
use std::marker::Brand;
use std::sync::ledger::{Blank, Book, Ledger, Share};
use std::sync::{Condvar, Mutex, Wait};
use std::thread::Threads;

/// 1970-01-04 00:00, the first minute at which a keep may open.
const FIRST_START: u64 = 4_320;

fn first_minute<C: Clock>(clock: &mut C) -> Result<Minute, Cause>
    ensures start { IfOk result (λ m. first_start ≤ m) }
    ensures top { IfOk result (λ m. m ≤ C.top clock.new) }
    ensures last { IfOk result (λ m. C.last clock.new ≡ Some (At m)) }
    ensures stopped { IfErr result (λ c. c ≡ Stopped → C.last clock.new ≡ Some Stop) }
    ensures back { IfErr result (λ c. c ≡ ClockBack → IsBack (C.top clock.new) (C.last clock.new)) }
    ensures cause { IfErr result IsBeforeFirst }
    ensures risen { C.risen clock.new ≤ C.risen clock.old + 1 }
    ensures failures { C.failures clock.old ≤ C.failures clock.new }
    ensures failed { IfErr result (λ c. c ≡ ClockFailed
        → C.failures clock.old < C.failures clock.new) }
{
    match clock.tick(None) {
        Tick::At(minute) => {
            if minute.number() < FIRST_START {
                return Err(Cause::ClockBack);
            }
            Ok(minute)
        }
        Tick::Stop => Err(Cause::Stopped),
        Tick::Failed => Err(Cause::ClockFailed),
    }
}

fn opened_at<T: Ledger>(blank: Blank, first: Minute) -> (Book<T>, Share<T>)
    requires { (blank.name ≡ T.name) × (blank.parts ≡ T.parts) × (0 < T.parts) }
    ensures book { result.0.total ≡ first }
    ensures share { (result.1.parts ≡ T.parts) × (result.1.amount ≡ first) }
{
    let (mut book, mut share) = blank.open::<T>();
    book.add(&mut share, first.number());
    (book, share)
}

/// Reads the stamps, and opens a keep with them in the first minute, down; `None` if memory runs
/// out.
fn open<J: PlanLedger, S: StampStore, O: io::Write>(
    alloc: Global,
    blank: Blank,
    plan: &Plan,
    checked: &Checked,
    store: &mut S,
    log: &mut Log<'_, O>,
    first: Minute,
) -> (Stored, Option<(Keep<J>, Seat<J>)>)
    requires blank { (blank.name ≡ J.name) × (blank.parts ≡ J.parts) }
    requires parts { blank.parts ≡ plan.now.capacity + 1 }
    requires start { first_start ≤ first }
    ensures read { AreRead S.reads plan.now.anacrontab.lines
        store.old result.0.stamps.items store.new }
    ensures faults { result.0.faults + S.failures store.old ≤ S.failures store.new }
    ensures keep { IfSome result.1 (λ both. (both.0.core.plan ≡ plan_in checked.now)
        × (both.0.core.state.now ≡ first)) }
    ensures seat { IfSome result.1 (λ both. both.1 ≡ all_parts J.parts) }
{
    let (stored, failed) = Stored::read(plan, store);
    log.write_unread(failed.as_slice());
    let start = Start::new(first, false, stored.stamps());
    let parts = u64::from(plan.capacity()) + 1;
    let Ok((keep, seat)) = Keep::<J>::open(alloc, blank, parts, checked, start) else {
        return (stored, None);
    };
    (stored, Some((keep, seat)))
}

fn run_on<
    J: PlanLedger + Send + Sync,
    T: Ledger + Send + Sync,
    R: Threads + Wait + Sync,
    C: Clock,
    W: Runner + Send + Drop,
    G: Gate + Sync,
    S: StampStore,
    O: io::Write + Send,
>(
    rt: &R,
    alloc: Global,
    blank: Blank,
    time: Blank,
    checked: Checked,
    owners: Sequence<Owner>,
    clock: &mut C,
    runners: Vec<W>,
    gate: &G,
    store: &mut S,
    out: &mut O,
    first: Minute,
) -> DaemonEnd
    requires as_many { vec_len runners ≡ (plan_in checked).capacity }
    requires few { (plan_in checked).capacity ≤ 64 }
    requires blank { (blank.name ≡ J.name) × (blank.parts ≡ J.parts) }
    requires parts { blank.parts ≡ (plan_in checked).capacity + 1 }
    requires plan { J.plan ≡ plan_in checked }
    requires time { (time.name ≡ T.name) × (time.parts ≡ T.parts) × (0 < T.parts) }
    requires start { first_start ≤ first }
    requires top { first ≤ C.top clock.old }
    requires last { C.last clock.old ≡ Some (At first) }
    ensures shares { array_vec_len result.shares ≡ (plan_in checked).capacity + 1 }
    ensures sum { sum result.shares.items ≡ result.total }
    ensures none { result.keep ≡ None → result.total ≡ 0 }
    ensures checked { IfSome result.keep (λ kept. checked_in kept ≡ checked) }
    ensures kept { IfSome result.keep (λ kept. IsKept (keeping_in kept)) }
    ensures total { IfSome result.keep (λ kept. (keeping_in kept).total ≡ result.total) }
    ensures owners { result.owners ≡ owners }
    ensures stopped { result.cause ≡ Stopped → C.last clock.new ≡ Some Stop }
    ensures back { result.cause ≡ ClockBack → IsBack (C.top clock.new) (C.last clock.new) }
    ensures end { result.cause ≡ LastMinute → C.last clock.new ≡ Some (At last_minute) }
    ensures end_keep { result.cause ≡ LastMinute → result.keep ≢ None }
    ensures full_keep { result.cause ≡ HistoryFull → result.keep ≢ None }
    ensures rises { result.cause ≡ Stopped
        → C.risen clock.new ≤ C.risen clock.old + slice_index_or result.shares.items 0 0 }
    ensures failed { result.cause ≡ ClockFailed → C.failures clock.old < C.failures clock.new }
    ensures stamps { MatchOption result.keep
        (IsOnlyRead S.reads (plan_in checked).anacrontab.lines store.old store.new)
        (λ kept. AreKept S.reads S.writes (plan_in checked)
        (keeping_in kept).core.state.stamps store.old store.new) }
    ensures faults { result.stamp_faults + S.failures store.old ≤ S.failures store.new }
    ensures rest { IfSome result.rest
        (λ m. IfSome result.keep (λ kept. IsLeftIn (keeping_in kept) m)) }
{
    let workers = runners.len();
    let plan = checked.plan();
    let mut log = Log::new(alloc, plan, out);
    let (stored, opened) = open::<J, S, O>(alloc, blank, plan, &checked, store, &mut log, first);
    let Some((keep, seat)) = opened else {
        let lost = log.faults();
        drop(log);
        drop(checked);
        drop(runners);
        return no_keep(Cause::NoMemory, owners, workers, stored.faults, lost);
    };
    let (book, hand) = opened_at::<T>(time, first);
    let shared = Shared {
        rt,
        alloc,
        plan,
        owners,
        gate,
        dispatch: Mutex::new(Dispatch::new(keep, book)),
        bell: Condvar::new(),
        log: Mutex::new(log),
    };
    let (stored, gathered) = run_threads(&shared, runners, clock, store, stored, seat, hand, first);
    Left::behind(shared, store, stored).close(checked, gathered)
}

/// Runs a checked plan until the clock stops or the daemon can't go on. Each runner has its own
/// thread, and there are as many as the plan's capacity. The commands of the crontab have these
/// owners, in order, or none. What happens is logged.
///
/// The keep opens in the clock's first minute, down, with the stamps of the store; each later
/// answer of the clock is one tick. In the end the keep goes down, the workers end, and unwritten
/// stamps are tried once more.
pub fn run_daemon<
    R: Threads + Wait + Sync,
    C: Clock,
    W: Runner + Send + Drop,
    G: Gate + Sync,
    S: StampStore,
    O: io::Write + Send,
>(
    rt: &R,
    alloc: Global,
    checked: Checked,
    owners: Sequence<Owner>,
    clock: &mut C,
    runners: Vec<W>,
    gate: &G,
    store: &mut S,
    out: &mut O,
) -> DaemonEnd
    requires { vec_len runners ≡ (plan_in checked).capacity }
    ensures shares { array_vec_len result.shares ≡ (plan_in checked).capacity + 1 }
    // No event of any thread is missing or made up.
    ensures sum { sum result.shares.items ≡ result.total }
    ensures none { result.keep ≡ None → result.total ≡ 0 }
    // The keep has the very value passed in; its journal is a legal history of that plan.
    ensures checked { IfSome result.keep (λ kept. checked_in kept ≡ checked) }
    ensures kept { IfSome result.keep (λ kept. IsKept (keeping_in kept)) }
    ensures total { IfSome result.keep (λ kept. (keeping_in kept).total ≡ result.total) }
    ensures owners { result.owners ≡ owners }
    ensures stopped { result.cause ≡ Stopped → C.last clock.new ≡ Some Stop }
    // The clock's last answer was a minute before an earlier one, or before 1970-01-04 00:00.
    ensures back { result.cause ≡ ClockBack → IsBack (C.top clock.new) (C.last clock.new) }
    ensures end { result.cause ≡ LastMinute → C.last clock.new ≡ Some (At last_minute) }
    ensures end_keep { result.cause ≡ LastMinute → result.keep ≢ None }
    ensures full_keep { result.cause ≡ HistoryFull → result.keep ≢ None }
    // The clock's thread made at least one event for each minute later than all before, except one.
    ensures rises { result.cause ≡ Stopped
        → C.risen clock.new ≤ C.risen clock.old + slice_index_or result.shares.items 0 0 + 1 }
    ensures failed { result.cause ≡ ClockFailed → C.failures clock.old < C.failures clock.new }
    ensures stamps { MatchOption result.keep
        (IsOnlyRead S.reads (plan_in checked).anacrontab.lines store.old store.new)
        (λ kept. AreKept S.reads S.writes (plan_in checked)
        (keeping_in kept).core.state.stamps store.old store.new) }
    ensures faults { result.stamp_faults + S.failures store.old ≤ S.failures store.new }
    ensures rest { IfSome result.rest
        (λ m. IfSome result.keep (λ kept. IsLeftIn (keeping_in kept) m)) }
{
    let parts = u64::from(checked.plan().capacity()) + 1;
    let first = match first_minute(clock) {
        Ok(minute) => minute,
        Err(cause) => {
            let workers = runners.len();
            drop(checked);
            drop(runners);
            return no_keep(cause, owners, workers, 0, 0);
        }
    };
    run_on::<Brand, Brand, R, C, W, G, S, O>(
        rt,
        alloc,
        Blank::new(parts),
        Blank::new(1),
        checked,
        owners,
        clock,
        runners,
        gate,
        store,
        out,
        first,
    )
}
