ghost use Rattle.std.specs.Prelude.{◌≡◌, ◌<◌, ◌≤◌, IfOk, length, set};
ghost use Rattle.cs_plan.specs.declared.limits.TheConstants.{MAX_MINUTES};
ghost use Rattle.cs_advise.specs.Changed.{with_max};

use cs_civil::Sequence;
use cs_plan::{Job, Plan};
use std::alloc::{AllocError, Global};

fn with_job_at(
    alloc: Global,
    jobs: &[Job],
    place: usize,
    job: Job,
) -> Result<Sequence<Job>, AllocError>
    requires { place < length jobs.now }
    ensures { IfOk result (λ changed. changed ≡ set jobs.now place job) }
{
    let mut changed = Vec::from_slice(alloc, jobs)?;
    changed[place] = job;
    Ok(Sequence::from_vec(changed))
}

/// Copies the plan with another longest time of a job, in minutes.
pub(crate) fn with_max(
    alloc: Global,
    plan: &Plan,
    number: u16,
    max: u16,
) -> Result<Plan, AllocError>
    requires there { number < length plan.now.jobs }
    requires in_range { (1 ≤ max) × (max ≤ MAX_MINUTES) }
    ensures { IfOk result (λ changed. changed ≡ with_max plan.now number max) }
{
    let job = plan.job_at(number);
    let changed = Job::new(job.place(), max, job.weight(), job.group(), job.mode());
    let jobs = with_job_at(alloc, plan.jobs(), usize::from(number), changed)?;
    plan.with_jobs(alloc, jobs)
}
