//! A daemon over made-up devices, from its plan to its end.
ghost use Rattle.std.specs.Prelude.{◌≡◌, IfOk, vec_len};
ghost use Rattle.cs_check.specs.Checked.{plan_in};

use crate::devices::{FailingLog, FailingRunner, FailingStore, Hold, HoldingGate, ListClock, Seen};
use crate::plans::{Texts, checked};
use arrayvec::ArrayVec;
use cs_check::Checked;
use cs_civil::Sequence;
use cs_daemon::{Cause, DaemonEnd, run_daemon};
use cs_device::{Failures, Told};
use cs_keep::Kept;
use std::alloc::{AllocError, Global};
use std::process::Abort;
use std::sync::Wait;
use std::sync::atomic::Ordering;
use std::thread::Threads;
use std::time;

/// 2024-01-01 00:00.
pub(crate) const MIDNIGHT: u64 = 28_401_120;

/// The minutes of a day from 00:59 on.
pub(crate) fn day(alloc: Global) -> Result<Vec<u64>, AllocError> {
    let mut minutes = Vec::new(alloc);
    for minute in MIDNIGHT + 59..MIDNIGHT + 1_440 {
        minutes.push(minute)?;
    }
    Ok(minutes)
}

#[derive(Drop)]
pub(crate) struct Script<'a> {
    pub(crate) texts: &'a Texts,
    /// The minutes that the clock gives.
    pub(crate) minutes: &'a [u64],
    /// Which run can't be started, counted from 1; 0 for none.
    pub(crate) run_fails: u64,
    /// Which line of the log can't be written, counted in the same way.
    pub(crate) line_fails: u64,
    pub(crate) hold: Hold,
    /// For how many milliseconds a run is held at most.
    pub(crate) most: u64,
    /// How many writes of stamps the clock waits for.
    pub(crate) writes: u64,
    /// How many of them fail, the first ones.
    pub(crate) failing: u64,
    /// How many minutes more the clock shows once it has stopped.
    pub(crate) more: u64,
    /// From which minute on the clock stops a daemon at rest.
    pub(crate) rest_from: u64,
}

impl<'a> Script<'a> {
    /// Nothing is held or fails.
    pub(crate) fn plain(texts: &'a Texts, minutes: &'a [u64]) -> Script<'a> {
        Script {
            texts,
            minutes,
            run_fails: 0,
            line_fails: 0,
            hold: Hold::Never,
            most: 10_000,
            writes: 0,
            failing: 0,
            more: 0,
            rest_from: u64::MAX,
        }
    }
}

/// What is left in the keep.
#[derive(Clone, Copy, PartialEq, Eq)]
pub(crate) struct InKeep {
    pub(crate) total: u64,
    pub(crate) minute: u64,
    pub(crate) is_up: bool,
    /// Whether the first anacron job has a stamp.
    pub(crate) is_stamped: bool,
}

fn in_keep(kept: &Kept) -> InKeep {
    let core = kept.core();
    InKeep {
        total: kept.total(),
        minute: core.now().number(),
        is_up: core.is_up(),
        is_stamped: matches!(core.stamps().first(), Some(Some(_))),
    }
}

#[derive(Drop)]
pub(crate) struct Ended {
    pub(crate) cause: Cause,
    pub(crate) total: u64,
    pub(crate) shares: ArrayVec<u64, 65>,
    pub(crate) keep: Option<InKeep>,
    pub(crate) rest: Option<u64>,
    pub(crate) not_started: u64,
    pub(crate) overruns: u64,
    pub(crate) stamp_faults: u64,
    pub(crate) log_faults: u64,
}

fn look_into(end: DaemonEnd) -> Ended {
    let DaemonEnd {
        cause,
        total,
        shares,
        keep,
        owners,
        rest,
        not_started,
        overruns,
        stamp_faults,
        log_faults,
    } = end;
    let left = match &keep {
        Some(kept) => Some(in_keep(kept)),
        None => None,
    };
    let rest = match rest {
        Some(minute) => Some(minute.number()),
        None => None,
    };
    drop(keep);
    drop(owners);
    Ended {
        cause,
        total,
        shares,
        keep: left,
        rest,
        not_started,
        overruns,
        stamp_faults,
        log_faults,
    }
}

#[derive(Drop)]
pub(crate) struct Played {
    pub(crate) end: Ended,
    pub(crate) log: Vec<u8>,
    pub(crate) missed: u64,
}

impl Played {
    pub(crate) fn logs(&self, lines: &str) -> bool {
        self.log.as_slice() == lines.as_bytes()
    }

    pub(crate) fn count(&self, line: &str) -> usize {
        let line = line.as_bytes();
        let mut count: usize = 0;
        for place in 0..self.log.len() {
            if self.log.as_slice()[place..].starts_with(line) {
                count = count.saturating_add(1);
            }
        }
        count
    }
}

/// A runner for each of the plan's places.
fn runners<R: Abort>(
    rt: &R,
    alloc: Global,
    checked: &Checked,
    fails: u64,
) -> Result<Vec<FailingRunner>, AllocError>
    ensures { IfOk result (λ runners. vec_len runners ≡ (plan_in checked.now).capacity) }
{
    let capacity = usize::from(checked.plan().capacity());
    let mut runners = Vec::new(alloc);
    for _ in 0..capacity {
        let runner = FailingRunner {
            runs: 0,
            fails,
            failures: Failures::none(),
        };
        runners.push(runner)?;
    }
    assert!(rt; runners.len() == capacity);
    Ok(runners)
}

pub(crate) fn play<R: Threads + Wait + Abort + time::Clock + Sync>(
    rt: &R,
    alloc: Global,
    script: &Script<'_>,
) -> Played {
    let checked = checked(rt, alloc, script.texts);
    let runners = runners(rt, alloc, &checked, script.run_fails).expect(rt, "memory");
    let seen = Seen::nothing();
    let mut clock = ListClock {
        rt,
        seen: &seen,
        minutes: script.minutes,
        writes: script.writes,
        at: 0,
        repeats: 10_000,
        more: script.more,
        rest_from: script.rest_from,
        told: Told::nothing(),
    };
    let gate = HoldingGate {
        rt,
        seen: &seen,
        hold: script.hold,
        most: script.most,
    };
    let mut store = FailingStore {
        seen: &seen,
        left: script.failing,
        failures: Failures::none(),
    };
    let mut log = FailingLog {
        text: Vec::new(alloc),
        writes: 0,
        fails: script.line_fails,
    };
    let owners = Sequence::new(alloc);
    let end = run_daemon(
        rt, alloc, checked, owners, &mut clock, runners, &gate, &mut store, &mut log,
    );
    Played {
        end: look_into(end),
        log: log.text,
        missed: seen.missed.load(Ordering::SeqCst),
    }
}
