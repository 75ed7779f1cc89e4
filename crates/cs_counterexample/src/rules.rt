//! The plan's rules for jobs by number. Past the last job they are those of a history.
ghost use Rattle.std.specs.Prelude.{◌≡◌};
ghost use Rattle.cs_plan.specs.Plan.{as_plan};
ghost use Rattle.cs_history.specs.Plan.{is_skip, same_group};
ghost use Rattle.cs_counterexample.specs.Break.{clash};

use cs_plan::Plan;

fn group(plan: &Plan, job: u16) -> Option<u8>
    ensures { result ≡ (as_plan plan.now).group job }
{
    plan.job_at(job).group()
}

pub(crate) fn weight(plan: &Plan, job: u16) -> u8
    ensures { result ≡ (as_plan plan.now).weight job }
{
    plan.job_at(job).weight()
}

pub(crate) fn is_skip(plan: &Plan, job: u16) -> bool
    ensures { result ≡ is_skip ((as_plan plan.now).mode job) }
{
    plan.job_at(job).mode().is_skip()
}

pub(crate) fn limit(plan: &Plan, job: u16) -> u64
    ensures { result ≡ (as_plan plan.now).limit job }
{
    u64::from(plan.job_at(job).max())
}

fn is_same_group(plan: &Plan, one: u16, other: u16) -> bool
    ensures { result ≡ same_group (as_plan plan.now) one other }
{
    match (group(plan, one), group(plan, other)) {
        (Some(one), Some(other)) => one == other,
        _ => false,
    }
}

pub(crate) fn clash(plan: &Plan, one: u16, other: u16) -> bool
    ensures { result ≡ clash (as_plan plan.now) one other }
{
    plan.is_exclusive(group(plan, other))
        && is_same_group(plan, other, one)
        && !(plan.job_at(other).mode().shares() && plan.job_at(one).mode().shares())
}
