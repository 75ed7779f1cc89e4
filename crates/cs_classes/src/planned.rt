ghost use Rattle.std.specs.Prelude.{◌≡◌, ◌≤◌, IfOk, IfSome, None, length, map, slice_get, Some};
ghost use Rattle.cs_plan.specs.Plan.{crons};
ghost use Rattle.cs_history.specs.Calm.{reach};
ghost use Rattle.cs_windows.specs.Occupied.{job_of};
ghost use Rattle.cs_classes.specs.Planned.{IsSchedule, cron_reach, planned, planned_job};

use cs_claims::{JobReach, reach_of};
use cs_crontab::When;
use cs_plan::{Job, Plan};
use cs_schedule::Schedule;
use cs_windows::Occupied;
use std::alloc::{AllocError, Global};

fn cron_reach(reaches: &[JobReach], number: usize, job: Job) -> u16
    ensures { result ≡ cron_reach reaches.now number job }
{
    if job.mode().waits() {
        return reach_of(reaches, number).unwrap_or(job.max());
    }
    job.max()
}

fn schedule_of(plan: &Plan, number: usize) -> Option<&Schedule>
    ensures cron { IfSome result (λ schedule. IsSchedule plan.now number schedule.now) }
    ensures other { result ≡ None → crons plan.now ≤ number }
{
    match plan.crontab().lines().get(number)?.when() {
        When::At(schedule) => Some(schedule),
        When::Reboot => None,
    }
}

fn occupied_by<'a>(plan: &'a Plan, reaches: &[JobReach], number: usize, job: Job) -> Occupied<'a>
    requires { slice_get plan.now.jobs number ≡ Some job }
    ensures { job_of result ≡ planned_job plan.now reaches.now number }
{
    match schedule_of(plan, number) {
        Some(schedule) => Occupied::Cron {
            schedule,
            zone: plan.zone(),
            reach: cron_reach(reaches, number, job),
        },
        None => Occupied::CatchUp {
            from: plan.hours().from(),
            reach: plan.hours().to() - 1 + job.max() - plan.hours().from(),
        },
    }
}

/// Returns what the jobs of a plan occupy, by number. A cron job's windows last its declared time,
/// or if it waits the reach that is listed for it, if any. An anacron job's window lasts from the
/// start of the catch-up hours to the end of a run that starts in their last minute. The only error
/// is out of memory.
pub fn occupied<'a>(
    alloc: Global,
    plan: &'a Plan,
    reaches: &[JobReach],
) -> Result<Vec<Occupied<'a>>, AllocError>
    ensures jobs { IfOk result (λ jobs. map job_of jobs.items ≡ planned plan.now reaches.now) }
    ensures few { IfOk result (λ jobs. length jobs.items ≤ 320) }
{
    let mut jobs = Vec::new(alloc);
    for (number, job) in plan.jobs().iter().enumerate() {
        jobs.push(occupied_by(plan, reaches, number, *job))?;
    }
    Ok(jobs)
}
