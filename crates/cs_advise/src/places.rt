//! The places of the lines that advice names.

use crate::change::{Change, Member};
use cs_counterexample::Shown;
use cs_place::{Place, push_places_told};
use cs_plan::Plan;
use std::alloc::{AllocError, Global};

/// A note on the place of each of these jobs that has one.
fn job_places(
    alloc: Global,
    plan: &Plan,
    places: &[Place],
    jobs: &[usize],
) -> Result<Vec<u8>, AllocError> {
    let mut text = Vec::new(alloc);
    let lines = plan.crontab().lines();
    push_places_told(alloc, &mut text, b"note: ".as_slice(), places, jobs, lines)?;
    Ok(text)
}

/// A note on the place of each line that the changes name.
pub(crate) fn changed_places(
    alloc: Global,
    plan: &Plan,
    places: &[Place],
    changes: &[Change],
) -> Result<Vec<u8>, AllocError> {
    let mut jobs = Vec::new(alloc);
    for change in changes {
        match change {
            Change::Start(start) => jobs.push(usize::from(start.job))?,
            Change::Both(one, other) => {
                jobs.extend_from_slice(&[usize::from(one.job), usize::from(other.job)])?
            }
            Change::Member(Member::Max(job, _) | Member::Mode(job, _)) => {
                jobs.push(usize::from(*job))?
            }
            Change::Member(Member::Capacity(_) | Member::Hours(_)) => {}
        }
    }
    job_places(alloc, plan, places, jobs.as_slice())
}

/// A note on the place of each line that the breach names.
pub(crate) fn shown_places(
    alloc: Global,
    plan: &Plan,
    places: &[Place],
    shown: &Shown,
) -> Result<Vec<u8>, AllocError> {
    match shown {
        Shown::Together(one, other) => {
            let jobs = [usize::from(one.job), usize::from(other.job)];
            job_places(alloc, plan, places, jobs.as_slice())
        }
        Shown::Load(_) => job_places(alloc, plan, places, &[]),
        Shown::Skipped(job, _) => job_places(alloc, plan, places, &[usize::from(*job)]),
    }
}
