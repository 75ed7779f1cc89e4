//! What an event breaks: by the run that it starts, or by one of mode skip that is skipped. No
//! other event breaks anything, since fewer runs break no more.
ghost use Rattle.std.specs.Prelude.{◌≡◌, ◌≤◌, ◌<◌};
ghost use Rattle.cs_plan.specs.Plan.{as_plan};
ghost use Rattle.cs_counterexample.specs.Break.{weight_of};
ghost use Rattle.cs_counterexample.specs.Trial.{break_by_reply, break_by_run, break_by_skip, clash_before, run_by};

use crate::rules::{clash, is_skip, weight};
use crate::shown::Shown;
use cs_history::{Event, Reply, Run};
use cs_plan::Plan;
use cs_roster::Roster;

pub(crate) fn run_by(event: &Event, now: u64) -> Option<Run>
    ensures { result ≡ run_by event.now now }
{
    match *event {
        Event::Minute(_) => None,
        Event::Begin(job) => Some(Run { job, at: now }),
        Event::Got(job, due) => Some(Run { job, at: due }),
        Event::Catch(job) => Some(Run { job, at: now }),
        Event::End(_) => None,
        Event::Down => None,
        Event::Up(_) => None,
    }
}

fn clash_before(plan: &Plan, earlier: &Roster, run: Run) -> Option<Shown>
    ensures { result ≡ clash_before (as_plan plan.now) earlier.now run }
{
    for going in earlier.iter() {
        if clash(plan, going.run.job, run.job) {
            return Some(Shown::Together(going.run, run));
        }
    }
    None
}

fn weigh(plan: &Plan, running: &Roster) -> u64
    requires { weight_of (as_plan plan.now) running.now < 256 }
    ensures { result ≡ weight_of (as_plan plan.now) running.now }
{
    let mut sum = 0;
    for going in running.iter() {
        sum += u64::from(weight(plan, going.run.job));
    }
    sum
}

pub(crate) fn break_by_run(plan: &Plan, earlier: &Roster, run: Run) -> Option<Shown>
    requires { weight_of (as_plan plan.now) earlier.now ≤ (as_plan plan.now).capacity }
    ensures { result ≡ break_by_run (as_plan plan.now) earlier.now run }
{
    if let Some(shown) = clash_before(plan, earlier, run) {
        return Some(shown);
    }
    let capacity = u64::from(plan.capacity());
    let load = weigh(plan, earlier) + u64::from(weight(plan, run.job));
    if load > capacity {
        return Some(Shown::Load(load));
    }
    None
}

fn break_by_skip(plan: &Plan, run: Option<Run>) -> Option<Shown>
    ensures { result ≡ break_by_skip (as_plan plan.now) run }
{
    match run {
        Some(run) if is_skip(plan, run.job) => Some(Shown::Skipped(run.job, run.at)),
        _ => None,
    }
}

pub(crate) fn break_by_reply(
    plan: &Plan,
    reply: Reply,
    run: Option<Run>,
    at_start: Option<Shown>,
) -> Option<Shown>
    ensures { result ≡ break_by_reply (as_plan plan.now) reply run at_start }
{
    match reply {
        Reply::Started(_) => at_start,
        Reply::Skipped => break_by_skip(plan, run),
        Reply::Clock => None,
        Reply::Waiting => None,
        Reply::Ended(_) => None,
        Reply::Went => None,
        Reply::Came => None,
    }
}
