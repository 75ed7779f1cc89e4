//! Runs of checked tables on this machine.
ghost use Rattle.std.specs.Prelude.{◌≡◌, if◌then◌else◌, IfOk, IfSome, IsTrue, None, Some, true};
ghost use Rattle.std.specs.Prelude.{vec_len};
ghost use Rattle.cs_check.specs.Checked.{plan_in};
ghost use Rattle.cs_daemon.specs.declared.end.Cause.TheVariants.{Stopped};
ghost use Rattle.cs_files.specs.Response.{status_of};
ghost use Rattle.cs_files.specs.Ending.{sink};
ghost use Rattle.cs_args.specs.Asked.{asked_run};
ghost use Rattle.cs_serve.specs.Serve.{IsFollowed, IsNextOf, IsRun, IsServedBy, Refuses};
ghost use Rattle.cs_serve.specs.Serve.{RunsOutBehind, Serves, ServesOne, ServesOrTries};
ghost use Rattle.cs_serve.specs.Serve.{cause_status, farewell, taken_away};

use crate::anew::{Accepted, has_log, has_output};
use crate::diary::{Hand, closing, gap_line, setup_of};
use crate::hooks::{Streams, call_hooks};
use crate::keeping::keep_accepted;
use crate::notes::notes_of;
use crate::obstacle::Obstacle;
use crate::watch::{DaemonFiles, Idle, Watch};
use cs_args::RunWords;
use cs_check::Checked;
use cs_civil::{Minute, Sequence};
use cs_daemon::{Cause, run_daemon};
use cs_device::{Gate, Point, Runner, StampStore, Tick};
use cs_files::{Status, finish, run_out, tell};
use cs_history::Run;
use cs_io::Output;
use cs_machine::{
    FolderLock, Home, JobNote, LockFault, MachineClock, ReadyOut, RunList, RunLog, RunnerSetup,
    RunnerWords, StampsFolder, Tally, is_exposed, is_root, open_log, runners_by,
};
use cs_owner::Owner;
use cs_ruling::Order;
use std::alloc::{AllocError, Global};
use std::fs::File;
use std::io::Write;
use std::process::Processes;
use std::rt::{Clock, Files};
use std::sync::{Mutex, Wait};
use std::thread;
use std::thread::Threads;
use std::time::Duration;

/// A gate at which no run is held.
#[derive(Drop)]
struct OpenGate;

impl Gate for OpenGate {
    fn pass(&self, _run: Run, _point: Point) {}
}

fn status_for(cause: Cause) -> Status
    ensures { status_of result ≡ cause_status cause }
{
    match cause {
        Cause::Stopped => Status::Done,
        Cause::LastMinute => Status::Done,
        Cause::ClockBack => Status::DeviceFailed,
        Cause::ClockFailed => Status::DeviceFailed,
        Cause::HistoryFull => Status::Refused,
        Cause::NoMemory => Status::NoMemory,
    }
}

fn farewell(cause: Cause) -> &'static str
    ensures { result.now ≡ farewell cause }
{
    match cause {
        Cause::Stopped => "",
        Cause::LastMinute => "cronsafe: the last minute of 9999 has come\n",
        Cause::ClockBack => "cronsafe: the clock went back, or is before 1970-01-04\n",
        Cause::ClockFailed => "cronsafe: can't read the clock\n",
        Cause::HistoryFull => "cronsafe: the history is full\n",
        Cause::NoMemory => "cronsafe: out of memory\n",
    }
}

const TAKEN_AWAY: &str = "cronsafe: the folder of stamps was taken away\n";

fn refuse<O: Output, E: Output>(
    alloc: Global,
    order: Order<'_>,
    obstacle: Obstacle,
    out: &mut O,
    err: &mut E,
) -> Status
    ensures { Refuses obstacle order.entry
        (sink (O.contents out.old) (O.failed out.old))
        (sink (O.contents out.new) (O.failed out.new))
        (sink (E.contents err.old) (E.failed err.old))
        (sink (E.contents err.new) (E.failed err.new))
        (status_of result) }
{
    match order.without(alloc, obstacle.text(), obstacle.path(&order)) {
        Ok(response) => {
            drop(order);
            finish(&response, out, err)
        }
        Err(AllocError) => run_out_unserved(order, err),
    }
}

fn run_out_unserved<E: Output>(order: Order<'_>, err: &mut E) -> Status
    ensures { RunsOutBehind order.entry
        (sink (E.contents err.old) (E.failed err.old))
        (sink (E.contents err.new) (E.failed err.new))
        (status_of result) }
{
    tell(err, order.warnings.as_slice());
    drop(order);
    run_out(err)
}

/// Runs a checked plan with these devices until it ends, and returns the status, the cause, and the
/// minute in which it ended at rest. Events go to the log, and why it ended to standard error.
fn serve_by<
    R: Threads + Wait + Sync,
    C: cs_device::Clock,
    W: Runner + Send + Drop,
    S: StampStore,
    O: Write + Send,
    E: Output,
>(
    rt: &R,
    alloc: Global,
    checked: Checked,
    owners: Sequence<Owner>,
    clock: &mut C,
    runners: Vec<W>,
    store: &mut S,
    log: &mut O,
    err: &mut E,
) -> (Status, Cause, Option<Minute>)
    requires { vec_len runners ≡ (plan_in checked).capacity }
    ensures { (s : IsServedBy checked owners
        (record {
          last = C.last clock.old;
          top = C.top clock.old;
          risen = C.risen clock.old;
          clock_failures = C.failures clock.old;
          stamp_failures = S.failures store.old;
        })
        (record {
          last = C.last clock.new;
          top = C.top clock.new;
          risen = C.risen clock.new;
          clock_failures = C.failures clock.new;
          stamp_failures = S.failures store.new;
        })
        (sink (E.contents err.old) (E.failed err.old))
        (sink (E.contents err.new) (E.failed err.new))
        (status_of result.0)) × (result.1 ≡ s.end.cause) × (result.2 ≡ s.end.rest) }
{
    let end = run_daemon(
        rt, alloc, checked, owners, clock, runners, &OpenGate, store, log,
    );
    let (cause, rest) = (end.cause, end.rest);
    drop(end);
    tell(err, farewell(cause).as_bytes());
    (status_for(cause), cause, rest)
}

#[derive(Drop)]
struct Next<'a, R> {
    order: Order<'a>,
    clock: MachineClock<'a, R, Idle>,
    tally: Tally,
}

/// Lets a clock go on to the present minute, in which the next plan opens, and notes which minutes
/// belong to no plan.
fn note_gap<R: Clock + Wait, W: Write>(
    alloc: Global,
    hand: &mut Hand<'_, '_, R, W>,
    clock: &mut MachineClock<'_, R, Idle>,
) {
    let Tick::At(latest) = cs_device::Clock::tick(clock, None) else {
        return;
    };
    let Tick::At(now) = cs_device::Clock::tick(clock, Some(latest)) else {
        return;
    };
    if latest != now {
        hand.miss(latest, now);
        if let Ok(line) = gap_line(alloc, latest, now) {
            hand.note(line.as_slice());
        }
    }
}

fn open_next<R: Clock + Wait, W: Write>(
    alloc: Global,
    rest: Option<Minute>,
    hand: &mut Hand<'_, '_, R, W>,
    clock: &mut MachineClock<'_, R, Idle>,
)
    ensures { IfSome rest (λ minute. clock.new ≡ record clock.old { latest = Some minute }) }
{
    match rest {
        Some(minute) => clock.set_to(minute),
        None => note_gap(alloc, hand, clock),
    }
}

/// What is served next, if a plan was accepted and the daemon has stopped for it.
fn next_of<'a, R: Clock + Wait, W: Write>(
    alloc: Global,
    cause: Cause,
    rest: Option<Minute>,
    accepted: Option<Accepted<'_>>,
    words: &RunWords<'a>,
    clock: MachineClock<'a, R, Idle>,
    hand: &mut Hand<'_, '_, R, W>,
) -> Option<Next<'a, R>>
    ensures next { IfSome result (λ next. IsNextOf cause (asked_run words.entry.now) next.order) }
    ensures opens { IfSome result (λ next. IfSome rest
        (λ minute. next.clock ≡ record clock.entry { latest = Some minute })) }
{
    let accepted = accepted?;
    if cause != Cause::Stopped {
        drop(accepted);
        return None;
    }
    let mut clock = clock;
    open_next(alloc, rest, hand, &mut clock);
    let order = accepted.order(*words);
    let tally = hand.tally();
    Some(Next {
        order,
        clock,
        tally,
    })
}

fn has_lost(is_lost: bool, cause: Cause) -> bool
    ensures { IsTrue result → cause ≡ Stopped }
{
    is_lost && cause == Cause::Stopped
}

/// Writes the warnings, runs the order on the machine's clock until it ends, and returns what is
/// served next. Each line of its log has its time if `is_timed`.
fn serve_on<
    'x,
    'w,
    R: Threads + Wait + Sync + Files + Input + Clock + Processes,
    W: Runner + Send + Drop,
    L: Write + Send,
    E: Output,
>(
    rt: &'x R,
    alloc: Global,
    order: Order<'x>,
    words: RunWords<'w>,
    clock: MachineClock<'w, R, Idle>,
    jobs: &'x [JobNote],
    streams: Streams<'x>,
    files: &'x DaemonFiles<'x>,
    stamps: &mut StampsFolder<'_, '_, R>,
    runners: Vec<W>,
    log: &mut L,
    is_timed: bool,
    tally: Tally,
    err: &mut E,
) -> (Status, Option<Next<'w, R>>)
    requires words { asked_run words ≡ asked_run order.words }
    requires runners { vec_len runners ≡ (plan_in order.checked).capacity }
    requires fresh { stamps.old.failures ≡ 0 }
    ensures served { IsRun order.entry
        (sink (E.contents err.old) (E.failed err.old))
        (sink (E.contents err.new) (E.failed err.new))
        (status_of result.0) }
    ensures next { IfSome result.1 (λ next. IsFollowed order.entry
        (sink (E.contents err.old) (E.failed err.old))
        (sink (E.contents err.new) (E.failed err.new))
        next.order) }
{
    tell(err, order.warnings.as_slice());
    let setup = setup_of(&order, jobs);
    let mut log = RunLog::new(rt, alloc, &mut *log, is_timed, setup);
    log.count_on(tally);
    log.take_up(streams.remarks.take_records(rt));
    let log = Mutex::new(log);
    let mut hand = Hand::new(rt, &log, &files.state, streams.remarks);
    hand.note_opening(alloc, &order, jobs);
    keep_accepted(rt, alloc, &order, &mut hand);
    hand.keep_state();
    files.leave_running();
    let watch = Watch::new(
        rt,
        alloc,
        files,
        words,
        streams,
        Hand::new(rt, &log, &files.state, streams.remarks),
    );
    let (mut clock, _) = clock.resumed(order.checked.plan().offset(), watch);
    hand.note_first(alloc, clock.latest());
    let (status, cause, rest) = serve_by(
        rt,
        alloc,
        order.checked,
        order.owners,
        &mut clock,
        runners,
        stamps,
        &mut hand,
        err,
    );
    call_hooks(rt, alloc, &words, streams, &mut hand);
    hand.note(closing(cause));
    let offset = clock.offset();
    let (clock, watch) = clock.resumed(offset, Idle);
    if has_lost(watch.is_lost, cause) {
        drop(watch);
        drop(clock);
        drop(hand);
        drop(log);
        tell(err, TAKEN_AWAY.as_bytes());
        return (Status::DeviceFailed, None);
    }
    hand.keep_state();
    files.leave_word(log.lock(rt).last_word());
    streams
        .remarks
        .keep_records(rt, log.lock(rt).take_records());
    let next = next_of(alloc, cause, rest, watch.accepted, &words, clock, &mut hand);
    drop(hand);
    drop(log);
    (status, next)
}

fn enforced_at(words: &RunWords<'_>, offset: i16) -> Option<i16>
    ensures { result ≡ (if (asked_run words.now).enforce then Some offset else None) }
{
    if words.enforce { Some(offset) } else { None }
}

/// How many files of each job are kept in the folder for output, by default.
const KEPT: u64 = 30;

/// Runs one order until it ends, with a runner for each unit of the plan's capacity. Without
/// `--log` the log is written to standard output.
fn serve_one<
    'x,
    R: Threads + Wait + Sync + Files<File = File> + Input + Clock + Processes,
    O: Output + Write + Send,
    E: Output,
    W: Runner + Send + Drop,
    F: Fn(RunnerSetup) -> W + Drop,
>(
    rt: &'x R,
    alloc: Global,
    order: Order<'x>,
    clock: MachineClock<'x, R, Idle>,
    streams: Streams<'x>,
    files: &DaemonFiles<'x>,
    stamps: &mut StampsFolder<'_, '_, R>,
    tally: Tally,
    out: &mut O,
    err: &mut E,
    new_runner: &F,
) -> (Status, Option<Next<'x, R>>)
    requires { F.IsAlwaysCallable new_runner.now }
    ensures comes { ServesOne order.entry
        (sink (O.Output.contents out.old) (O.Output.failed out.old))
        (sink (O.Output.contents out.new) (O.Output.failed out.new))
        (sink (E.contents err.old) (E.failed err.old))
        (sink (E.contents err.new) (E.failed err.new))
        (status_of result.0) }
    ensures next { IfSome result.1 (λ next. IsFollowed order.entry
        (sink (E.contents err.old) (E.failed err.old))
        (sink (E.contents err.new) (E.failed err.new))
        next.order) }
{
    stamps.begin_anew();
    let Ok(jobs) = notes_of(alloc, &order) else {
        return (run_out_unserved(order, err), None);
    };
    let words = order.words;
    let number = order.checked.plan().capacity();
    let setup = RunnerWords {
        has_home: words.home,
        // a log without times doesn't show signals
        tells_signals: words.log.is_some(),
        output: words.output,
        keep: words.keep.unwrap_or(KEPT),
        jobs: jobs.as_slice(),
        offset: enforced_at(&words, order.checked.plan().offset()),
    };
    let Ok(runners) = runners_by(alloc, number, setup, new_runner) else {
        return (run_out_unserved(order, err), None);
    };
    let jobs = jobs.as_slice();
    match words.log {
        None | Some("-") => {
            let is_timed = words.log.is_some();
            let out = &mut ReadyOut::new(out, streams.out);
            serve_on(
                rt, alloc, order, words, clock, jobs, streams, files, stamps, runners, out,
                is_timed, tally, err,
            )
        }
        Some(path) => match open_log(rt, path) {
            Ok(mut log) => {
                let log = &mut log;
                serve_on(
                    rt, alloc, order, words, clock, jobs, streams, files, stamps, runners, log,
                    true, tally, err,
                )
            }
            Err(_) => (refuse(alloc, order, Obstacle::NoLog, out, err), None),
        },
    }
}

/// Runs an order until it ends, and then each that follows it, unless the daemon is asked to stop
/// by then.
fn serve_in_turn<
    'x,
    R: Threads + Wait + Sync + Files<File = File> + Input + Clock + Processes,
    O: Output + Write + Send,
    E: Output,
    W: Runner + Send + Drop,
    F: Fn(RunnerSetup) -> W + Drop,
>(
    rt: &'x R,
    alloc: Global,
    order: Order<'x>,
    streams: Streams<'x>,
    files: &DaemonFiles<'x>,
    stamps: &mut StampsFolder<'_, '_, R>,
    out: &mut O,
    err: &mut E,
    new_runner: &F,
) -> Status
    requires { F.IsAlwaysCallable new_runner.now }
    ensures { Serves order.entry
        (sink (O.Output.contents out.old) (O.Output.failed out.old))
        (sink (O.Output.contents out.new) (O.Output.failed out.new))
        (sink (E.contents err.old) (E.failed err.old))
        (sink (E.contents err.new) (E.failed err.new))
        (status_of result) }
{
    let offset = order.checked.plan().offset();
    let mut clock = MachineClock::new(rt, offset, order.words.minutes, Idle);
    let mut order = order;
    let mut tally = Tally::NONE;
    for _ in rt.forever() {
        let (status, next) = serve_one(
            rt, alloc, order, clock, streams, files, stamps, tally, out, err, new_runner,
        );
        let Some(next) = next else {
            return status;
        };
        if files.stop.is_there(rt) {
            drop(next);
            return status;
        }
        order = next.order;
        clock = next.clock;
        tally = next.tally;
    }
    unreachable!()
}

/// How many milliseconds to wait for a lock that isn't a daemon's.
const MOMENT: u64 = 300;

/// Locks a folder of stamps. Another program may have it locked for a moment, to see whether a
/// daemon has: that is waited for.
fn lock<R: Files<File = File> + Clock>(
    rt: &R,
    alloc: Global,
    folder: &str,
) -> Result<FolderLock, LockFault> {
    match FolderLock::take(rt, alloc, folder) {
        Err(LockFault::InUse) => {
            thread::sleep(rt, Duration::from_millis(MOMENT));
            FolderLock::take(rt, alloc, folder)
        }
        taken => taken,
    }
}

/// Opens and locks a folder of stamps, removes the requests to an earlier daemon, and reads which
/// runs it left.
fn enter<'r, 'f, R: Files<File = File> + Clock + Wait>(
    rt: &'r R,
    alloc: Global,
    folder: &'f str,
    files: &mut DaemonFiles<'_>,
    runs: &RunList,
) -> Result<StampsFolder<'r, 'f, R>, Obstacle>
    ensures { IfOk result (λ stamps. stamps.failures ≡ 0) }
{
    let Ok(stamps) = StampsFolder::open(rt, alloc, folder) else {
        return Err(Obstacle::NoFolder);
    };
    if is_exposed(rt, folder) {
        return Err(Obstacle::Exposed);
    }
    match lock(rt, alloc, folder) {
        Ok(lock) => files.keep(lock),
        Err(LockFault::InUse) => return Err(Obstacle::InUse),
        Err(LockFault::Failed) => return Err(Obstacle::Unlocked),
    }
    if files.clear(rt).is_err() {
        return Err(Obstacle::RequestStays);
    }
    if runs.open(rt, folder).is_err() {
        return Err(Obstacle::RunsUnread);
    }
    Ok(stamps)
}

/// Reports the warnings of an order that could be run, unless its log can't be written.
fn try_out<R: Files, O: Output, E: Output>(
    rt: &R,
    alloc: Global,
    order: Order<'_>,
    out: &mut O,
    err: &mut E,
) -> Status
    requires { order.words.check_only ≡ true }
    ensures { ServesOrTries order.entry
        (sink (O.contents out.old) (O.failed out.old))
        (sink (O.contents out.new) (O.failed out.new))
        (sink (E.contents err.old) (E.failed err.old))
        (sink (E.contents err.new) (E.failed err.new))
        (status_of result) }
{
    if !has_log(rt, order.words.log) {
        return refuse(alloc, order, Obstacle::NoLog, out, err);
    }
    tell(err, order.warnings.as_slice());
    drop(order);
    Status::Done
}

/// Runs an order until it ends, and returns the status. Nothing is run unless the folder of stamps
/// is there and can be locked while the daemon runs. If the daemon is asked to reload, and accepts
/// what its files hold then, that is run next. Warnings, and why it ended, go to standard error.
/// With `--check-only` all is done that comes before the first event, and then the warnings alone
/// are written.
pub fn serve<
    R: Threads + Wait + Sync + Files<File = File> + Input + Clock + Processes,
    O: Output + Write + Send,
    E: Output,
    W: Runner + Send + Drop,
    F: Fn(RunnerSetup) -> W + Drop,
>(
    rt: &R,
    alloc: Global,
    order: Order<'_>,
    streams: Streams<'_>,
    out: &mut O,
    err: &mut E,
    new_runner: F,
) -> Status
    requires { F.IsAlwaysCallable new_runner }
    ensures { ServesOrTries order.entry
        (sink (O.Output.contents out.old) (O.Output.failed out.old))
        (sink (O.Output.contents out.new) (O.Output.failed out.new))
        (sink (E.contents err.old) (E.failed err.old))
        (sink (E.contents err.new) (E.failed err.new))
        (status_of result) }
{
    let Some(mut files) = DaemonFiles::of(alloc, order.words.stamps) else {
        return run_out_unserved(order, err);
    };
    if order.words.home && Home::of_process(rt, alloc).is_none() {
        drop(files);
        return refuse(alloc, order, Obstacle::NoHome, out, err);
    }
    if !order.owners.is_empty() && !is_root(rt) {
        drop(files);
        return refuse(alloc, order, Obstacle::NotRoot, out, err);
    }
    if !has_output(rt, order.words.output) {
        drop(files);
        return refuse(alloc, order, Obstacle::NoOutput, out, err);
    }
    match enter(
        rt,
        alloc,
        order.words.stamps,
        &mut files,
        &streams.remarks.runs,
    ) {
        Ok(mut stamps) => {
            if order.words.check_only {
                try_out(rt, alloc, order, out, err)
            } else {
                serve_in_turn(
                    rt,
                    alloc,
                    order,
                    streams,
                    &files,
                    &mut stamps,
                    out,
                    err,
                    &new_runner,
                )
            }
        }
        Err(obstacle) => refuse(alloc, order, obstacle, out, err),
    }
}
