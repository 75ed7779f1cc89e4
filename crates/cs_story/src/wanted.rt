use crate::breach::{Breach, Span};
use cs_plan::Plan;
use cs_profile::{Facts, Task};
use std::alloc::{AllocError, Global};
use std::cmp::Reverse;

pub(crate) const MINUTES_OF_DAY: u64 = cs_civil::MINUTES_OF_DAY as u64;

/// A run that a story is to bring about, in civil minutes.
#[derive(Clone, Copy, PartialEq, Eq)]
pub(crate) struct Wanted {
    pub job: u16,
    /// When the job is due; of an anacron job, when the run is to start.
    pub due: u64,
    /// When the run is to start.
    pub start: u64,
}

impl Wanted {
    /// Whether it is to wait for a lock that others hold.
    pub(crate) fn queues(self) -> bool {
        self.start > self.due
    }
}

pub(crate) fn is_wanted(runs: &[Wanted], job: u16, due: u64) -> bool {
    for run in runs {
        if run.job == job && run.due == due {
            return true;
        }
    }
    false
}

pub(crate) fn task_of(facts: &Facts, job: u16) -> Option<&Task> {
    facts.tasks().get(usize::from(job))
}

/// The run of a window that goes on at this minute. If its job waits, it starts no earlier than it
/// has to.
fn run_in(plan: &Plan, facts: &Facts, span: Span, at: u64) -> Option<Wanted> {
    let task = task_of(facts, span.job)?;
    if at < span.from || at >= span.to {
        return None;
    }
    let due = if task.is_cron {
        span.from
    } else {
        let midnight = span.from.saturating_sub(span.from % MINUTES_OF_DAY);
        let end_of_hours = midnight.saturating_add(u64::from(plan.hours().to()));
        at.min(end_of_hours.saturating_sub(1))
    };
    let start = if task.mode.waits() {
        due.max(at.saturating_add(1).saturating_sub(u64::from(task.max)))
    } else {
        due
    };
    Some(Wanted {
        job: span.job,
        due,
        start,
    })
}

/// The runs of the windows of a breach that go on at its minute, the plainest first: those that
/// needn't wait, then those that start last.
pub(crate) fn runs_of(
    alloc: Global,
    plan: &Plan,
    facts: &Facts,
    breach: &Breach,
) -> Result<Vec<Wanted>, AllocError> {
    let mut runs: Vec<Wanted> = Vec::new(alloc);
    for span in breach.held.as_slice() {
        if let Some(run) = run_in(plan, facts, *span, breach.at) {
            runs.push(run)?;
        }
    }
    runs.sort_by_key(|run| (run.queues(), Reverse(run.start)))?;
    Ok(runs)
}
