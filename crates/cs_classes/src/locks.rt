ghost use Rattle.std.specs.Prelude.{◌≡◌, ℕ, ◌&&◌, ◌<◌};
ghost use Rattle.cs_theorem.specs.Faults.{has_waiter};
ghost use Rattle.cs_plan.specs.Plan.{as_plan, crons};
ghost use Rattle.cs_history.specs.Plan.{is_group, locks, takes, waits, waits_in};

use cs_plan::{Job, Plan};

pub(crate) fn locks(job: Job, group: usize) -> bool
    ensures { result ≡ (takes job.mode && is_group group job.group) }
{
    let is_of_group = match job.group() {
        Some(number) => usize::from(number) == group,
        None => false,
    };
    job.mode().takes_lock() && is_of_group
}

pub(crate) fn cron_job(plan: &Plan, number: usize) -> Job
    requires { number < crons plan.now }
    ensures few { number < 320 }
    ensures limit { result.max ≡ (as_plan plan.now).limit number }
    ensures waits { waits_in result.mode ≡ waits (as_plan plan.now) number }
    ensures group { result.group ≡ (as_plan plan.now).group number }
    ensures locks { (g : ℕ) → (takes result.mode && is_group g result.group)
        ≡ locks (as_plan plan.now) g number }
{
    plan.jobs()[number]
}

pub(crate) fn has_waiter(plan: &Plan, group: usize) -> bool
    ensures { result ≡ has_waiter (as_plan plan.now) group }
{
    for number in 0..plan.crons() {
        let job = cron_job(plan, number);
        if job.mode().waits() && locks(job, group) {
            return true;
        }
    }
    false
}
