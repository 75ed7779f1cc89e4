use crate::gains::MINUTES_OF_DAY;
use crate::lock::{Lock, MOST_REACH, locks};
use crate::nodes::Classing;
use crate::reaches::Longest;
use cs_plan::Plan;
use cs_profile::{Facts, Task};
use cs_windows::JobReach;
use std::alloc::{AllocError, Global};

/// Bounds on what waits for the locks of groups, and the reaches that they give the jobs that wait.
#[derive(Drop)]
pub struct Bounds {
    /// The reach of each job that waits, by the job's number.
    pub reaches: Vec<JobReach>,
    /// Classes of days, with the lock of each group that a job waits for.
    pub classing: Classing,
}

fn longest_of(locks: &[Lock], job: usize) -> Longest {
    let mut longest = Longest::NONE;
    for lock in locks {
        if let Some(other) = lock.longest.get(job) {
            longest = longest.or(*other);
        }
    }
    longest
}

/// The last minute of a day at which a cron job is ever due.
fn last_minute(task: &Task) -> Option<u16> {
    let mut latest = None;
    for list in task.lists.as_slice() {
        latest = latest.max(list.last().copied());
    }
    latest
}

/// When the last window of a job ends, in minutes from the start of the day on which it begins.
fn end_of(plan: &Plan, locks: &[Lock], job: usize, task: &Task) -> u32 {
    if !task.is_cron {
        return u32::from(plan.hours().to())
            .saturating_add(u32::from(task.max))
            .saturating_sub(1);
    }
    let Some(minute) = last_minute(task) else {
        return 0;
    };
    let lasts = if task.mode.waits() {
        longest_of(locks, job).reach
    } else {
        u32::from(task.max)
    };
    lasts.saturating_add(u32::from(minute))
}

/// The reach of each job that waits. `None` if one is over three days.
///
/// The length of the stretches, two days at least, follows from the minute at which the last window
/// of all jobs ends, counted from the start of the day on which it begins. A lock that is free only
/// at the minute after a stretch isn't seen to be free: the stretch has to be a day longer, and so
/// the reach a minute.
fn reaches(
    alloc: Global,
    plan: &Plan,
    facts: &Facts,
    locks: &[Lock],
) -> Result<Option<Vec<JobReach>>, AllocError> {
    let mut latest = 0;
    for (job, task) in facts.tasks().iter().enumerate() {
        latest = end_of(plan, locks, job, task).max(latest);
    }
    let is_midnight = latest > MINUTES_OF_DAY && latest % MINUTES_OF_DAY == 0;
    let mut reaches = Vec::new(alloc);
    for (job, task) in facts.tasks().iter().enumerate() {
        if task.is_cron && task.mode.waits() {
            let longest = longest_of(locks, job);
            let is_past = is_midnight && longest.end == latest;
            let reach = longest.reach.max(1).saturating_add(u32::from(is_past));
            if reach > MOST_REACH {
                return Ok(None);
            }
            reaches.push(JobReach {
                job: u16::try_from(job).unwrap_or(u16::MAX),
                reach: u16::try_from(reach).unwrap_or(u16::MAX),
            })?;
        }
    }
    Ok(Some(reaches))
}

/// Returns the least bounds on what waits for the locks of groups, over all days, and the least
/// reaches that they give the jobs that wait: a run waits at most until all that is due up to then
/// has had the lock, each for its longest time.
///
/// Classes are days of one profile, if that makes no reach longer; else days of one profile at
/// whose start as much is left of earlier days. If no job waits, they are the profiles, and there
/// are no reaches.
///
/// `None` if there are no bounds: more is due than the lock has time for, or a run may wait for
/// more than 4,320 minutes. The only error is out of memory.
pub fn least_bounds(
    alloc: Global,
    plan: &Plan,
    facts: &Facts,
) -> Result<Option<Bounds>, AllocError> {
    let Some(locks) = locks(alloc, facts)? else {
        return Ok(None);
    };
    let Some(reaches) = reaches(alloc, plan, facts, locks.as_slice())? else {
        return Ok(None);
    };
    Ok(Some(Bounds {
        reaches,
        classing: Classing::of(alloc, facts, locks)?,
    }))
}
