//! How a daemon ends, and what it leaves.

use arrayvec::ArrayVec;
use cs_civil::{Minute, Sequence};
use cs_keep::Kept;
use cs_owner::Owner;

/// Why a daemon ended.
#[derive(Clone, Copy, PartialEq, Eq)]
pub enum Cause {
    /// The clock stopped.
    Stopped,
    /// The last minute, 9999-12-31 23:59, was reached.
    LastMinute,
    /// The clock went back, or its first minute is before 1970-01-04 00:00.
    ClockBack,
    /// The clock couldn't be read.
    ClockFailed,
    /// The journal had no room for the next event.
    HistoryFull,
    /// Memory ran out, or a thread couldn't be made.
    NoMemory,
}

/// The end of a daemon. Counts stop at the greatest number of 64 bits.
#[derive(Drop)]
pub struct DaemonEnd {
    /// Why it ended.
    pub cause: Cause,
    /// How many events were accepted.
    pub total: u64,
    /// How many of them the clock's thread made, and then each worker.
    pub shares: ArrayVec<u64, 65>,
    /// The keep after its last event; `None` if the daemon ended before it opened one.
    pub keep: Option<Kept>,
    /// The owners of the crontab's commands, in order, or none.
    pub owners: Sequence<Owner>,
    /// Runs that couldn't be started.
    pub not_started: u64,
    /// Runs that were found past their declared time.
    pub overruns: u64,
    /// How often a stamp couldn't be read or written.
    pub stamp_faults: u64,
    /// Log lines that were lost.
    pub log_faults: u64,
    /// The minute in which it went down, if nothing was pending, waited or ran then.
    pub rest: Option<Minute>,
}
