//! When a run has passed its declared time. A deadline is a minute before which no run has, so that
//! the runs are checked one by one only from then on.
ghost use Rattle.std.specs.Prelude.{◌≡◌, ◌+◌, ◌≤◌, nat_le};
ghost use Rattle.cs_plan.specs.Plan.{as_plan};
ghost use Rattle.cs_counterexample.specs.Trial.{IsDeadline, IsNextDeadline, any_over};

use crate::rules::limit;
use cs_history::{Going, Reply};
use cs_plan::Plan;
use cs_roster::Roster;

/// The first minute at which the run is over its declared time, or the greatest `u64`.
fn end_of(plan: &Plan, job: u16, since: u64) -> u64
    ensures { result ≤ since + (as_plan plan.now).limit job }
{
    since.saturating_add(limit(plan, job))
}

pub(crate) fn first_deadline(plan: &Plan, running: &Roster) -> u64
    ensures { IsDeadline (as_plan plan.now) result running.now }
{
    let mut first = u64::MAX;
    for going in running.iter() {
        first = first.min(end_of(plan, going.run.job, going.since));
    }
    first
}

/// A run that ends may leave the deadline too low.
pub(crate) fn deadline_of(plan: &Plan, deadline: u64, reply: Reply, now: u64) -> u64
    ensures { IsNextDeadline (as_plan plan.now) deadline reply now result }
{
    match reply {
        Reply::Started(run) => deadline.min(end_of(plan, run.job, now)),
        Reply::Clock => deadline,
        Reply::Waiting => deadline,
        Reply::Skipped => deadline,
        Reply::Ended(_) => deadline,
        Reply::Went => deadline,
        Reply::Came => deadline,
    }
}

fn is_over(plan: &Plan, going: Going, minute: u64) -> bool
    ensures { result ≡ nat_le (going.since + (as_plan plan.now).limit going.run.job) minute }
{
    minute >= going.since && minute - going.since >= limit(plan, going.run.job)
}

pub(crate) fn any_over(plan: &Plan, running: &Roster, minute: u64) -> bool
    ensures { result ≡ any_over (as_plan plan.now) running.now minute }
{
    for going in running.iter() {
        if is_over(plan, going, minute) {
            return true;
        }
    }
    false
}
