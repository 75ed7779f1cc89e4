use crate::breaches::Cause;
use crate::maker::Maker;
use crate::sweep::{Broken, first_broken};
use cs_civil::MINUTES_OF_DAY;
use cs_overlap::Roles;
use cs_plan::{Job, Plan};
use cs_windows::{Window, touches};
use std::alloc::{AllocError, Global};

/// What a check of the compact certificate should find. It isn't relied on.
#[derive(Clone, Copy, PartialEq, Eq)]
pub enum Outlook {
    /// Nothing bounds how long jobs wait.
    Unbounded,
    /// No window breaks a rule.
    Safe,
    /// Windows break a rule. The number is the greatest longest time of the job, in minutes, with
    /// which they don't break it there; none if that isn't known.
    Broken(Option<u16>),
}

/// Whether a job of this one's group waits for its lock, maybe for the job.
fn has_waiter(plan: &Plan, job: Job) -> bool {
    for other in plan.jobs() {
        if other.mode().waits() && other.group() == job.group() {
            return true;
        }
    }
    false
}

/// For each window of the job that holds this minute, the longest first: how long before the minute
/// it begins.
fn begun_before(
    alloc: Global,
    windows: &[Window],
    job: u16,
    minute: u16,
) -> Result<Vec<u16>, AllocError> {
    let mut begun = Vec::new(alloc);
    for window in windows {
        if window.job == job && touches(window, minute, minute.saturating_add(1)) {
            let days = MINUTES_OF_DAY.saturating_mul(u16::from(window.day_back));
            begun.push(days.saturating_add(minute).saturating_sub(window.from))?;
        }
    }
    Ok(begun)
}

/// The greatest longest time with which enough windows of the job end before the minute at which a
/// rule is broken. None for a job of catch-up, and where others wait for the job, whose windows end
/// sooner too if it does.
fn most_without(
    alloc: Global,
    plan: &Plan,
    broken: &Broken,
    job: u16,
) -> Result<Option<u16>, AllocError> {
    let own = plan.job_at(job);
    if usize::from(job) >= plan.crons() || has_waiter(plan, own) {
        return Ok(None);
    }
    let minute = broken.found.minute;
    let begun = begun_before(alloc, broken.windows.as_slice(), job, minute)?;
    let held = begun.len();
    let gone = match broken.found.cause {
        Cause::Load(load) => {
            let over = load.saturating_sub(u128::from(plan.capacity()));
            let weight = u128::from(own.weight().max(1));
            over.saturating_add(weight).saturating_sub(1) / weight
        }
        Cause::Pair(one, other) if one.job != job && other.job != job => 0,
        // one of the two may stay
        Cause::Pair(one, other) if one.job == other.job => (held as u128).saturating_sub(1),
        Cause::Pair(_, _) => held as u128,
    };
    let place = gone.saturating_sub(1).min(u128::from(u16::MAX)) as usize;
    match begun.get(place) {
        Some(minutes) if gone > 0 && *minutes > 0 => Ok(Some(*minutes)),
        _ => Ok(None),
    }
}

impl Maker<'_> {
    /// Returns what a check of the compact certificate should find, and if it is refused, how short
    /// the runs of a job should be. The only error is out of memory.
    pub fn outlook(&self, alloc: Global, job: u16) -> Result<Outlook, AllocError> {
        let Some(bounds) = &self.bounds else {
            return Ok(Outlook::Unbounded);
        };
        let roles = Roles::of(alloc, self.plan)?;
        let reaches = bounds.reaches.as_slice();
        let mut steps = u64::MAX;
        let found = first_broken(alloc, self.plan, &self.facts, &roles, reaches, &mut steps)?;
        match found {
            Some(broken) => {
                let most = most_without(alloc, self.plan, &broken, job)?;
                Ok(Outlook::Broken(most))
            }
            None => Ok(Outlook::Safe),
        }
    }
}
