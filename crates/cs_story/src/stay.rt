use crate::chain::Chain;
use crate::part::is_of;
use crate::wanted::{Wanted, task_of};
use cs_profile::Facts;
use std::alloc::{AllocError, Global};

/// A time of being up: the civil minute in which the daemon comes up, and the last one.
#[derive(Clone, Copy)]
pub(crate) struct Stay {
    pub up: u64,
    pub last: u64,
}

/// The shortest stay for a run. What is due in a minute is begun if the daemon was up in the minute
/// before, as is the chain that keeps its lock from it; and a pass that begins with the stay waits
/// for the delay of its job.
fn stay_for(facts: &Facts, chains: &[Chain], run: Wanted) -> Stay {
    let (is_cron, delay) = match task_of(facts, run.job) {
        Some(task) => (task.is_cron, u64::from(task.delay)),
        None => (true, 0),
    };
    let mut first = run.due;
    for chain in chains {
        if run.queues() && is_of(facts, run.job, chain.group) {
            first = first.min(chain.from);
        }
    }
    let up = if is_cron {
        first.saturating_sub(1)
    } else {
        run.start.saturating_sub(delay)
    };
    Stay {
        up,
        last: run.start,
    }
}

/// The stays for these runs, in order. Between them the daemon is down.
pub(crate) fn stays_for(
    alloc: Global,
    facts: &Facts,
    chains: &[Chain],
    runs: &[Wanted],
) -> Result<Vec<Stay>, AllocError> {
    let mut single: Vec<Stay> = Vec::new(alloc);
    for run in runs {
        single.push(stay_for(facts, chains, *run))?;
    }
    single.sort_by_key(|stay| stay.up)?;
    let mut stays: Vec<Stay> = Vec::new(alloc);
    for stay in single.as_slice() {
        if let Some(last) = stays.last_mut() {
            if stay.up <= last.last {
                last.last = last.last.max(stay.last);
                continue;
            }
        }
        stays.push(*stay)?;
    }
    Ok(stays)
}
