//! The jobs of a breach. Nothing here is relied on.

use cs_counterexample::Shown;
use cs_plan::Plan;
use cs_verdict::Breach;
use std::alloc::{AllocError, Global};

/// Adds a job, unless it is there or `most` are.
fn add(jobs: &mut Vec<u16>, job: u16, most: usize) -> Result<(), AllocError> {
    if jobs.len() < most && !jobs.as_slice().contains(&job) {
        jobs.push(job)?;
    }
    Ok(())
}

fn add_group(
    jobs: &mut Vec<u16>,
    plan: &Plan,
    group: Option<u8>,
    most: usize,
) -> Result<(), AllocError> {
    for (number, job) in plan.jobs().iter().enumerate() {
        if group.is_some() && job.group() == group {
            add(jobs, number as u16, most)?;
        }
    }
    Ok(())
}

/// The jobs whose change may mend a breach, in order: both that run together, a skipped one with
/// its group, or those that weigh too much. There are 2 to 16, fewer for a plan of many jobs, which
/// takes longer to judge.
pub(crate) fn jobs_of(
    alloc: Global,
    plan: &Plan,
    shown: &Shown,
    breach: &Breach,
) -> Result<Vec<u16>, AllocError> {
    let most = (256 / plan.jobs().len().max(1)).clamp(2, 16);
    let mut jobs = Vec::new(alloc);
    match *shown {
        Shown::Together(one, other) => {
            add(&mut jobs, one.job, most)?;
            add(&mut jobs, other.job, most)?;
        }
        Shown::Skipped(job, _) => {
            add(&mut jobs, job, most)?;
            add_group(&mut jobs, plan, plan.job_at(job).group(), most)?;
        }
        Shown::Load(_) => {
            for going in breach.running.as_slice() {
                add(&mut jobs, going.run.job, most)?;
            }
        }
    }
    jobs.sort()?;
    Ok(jobs)
}
