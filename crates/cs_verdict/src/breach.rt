ghost use Rattle.std.specs.Prelude.{◌≤◌};
ghost use Rattle.cs_history.specs.Plan.{first_start};

use cs_civil::{Minute, Sequence};
use cs_counterexample::{NotShown, Shown, Trial};
use cs_history::{Event, Going, Run, Script};
use cs_plan::Plan;
use std::alloc::{AllocError, Global};

/// What runs when a script first breaks a plan.
#[derive(Drop)]
pub struct Breach {
    /// The civil minute in which it breaks it.
    pub minute: Minute,
    /// The runs, in order of start.
    pub running: Sequence<Going>,
}

fn breach_in(alloc: Global, trial: &Trial) -> Result<Breach, AllocError> {
    let mut running = Sequence::new(alloc);
    for going in trial.core().running().iter() {
        running.push(going)?;
    }
    let minute = trial.core().now();
    Ok(Breach { minute, running })
}

/// Takes an event. True if the trial ends with it: something is broken then, or the event shows
/// nothing.
fn ends_with(trial: &mut Trial, event: Event, number: usize) -> Result<bool, AllocError> {
    match trial.take(event, number) {
        Ok(()) => Ok(trial.shown().is_some()),
        Err(NotShown::OutOfMemory) => Err(AllocError),
        Err(_) => Ok(true),
    }
}

/// Returns what runs when a script that shows the plan unsafe first breaks it. The script starts at
/// 1970-01-04 00:00 or later, and its events are taken up to the one that breaks something. The
/// only error is out of memory, whatever the script shows.
pub fn first_breach(alloc: Global, plan: &Plan, script: &Script) -> Result<Breach, AllocError>
    requires { first_start ≤ script.now.start.now }
{
    let mut trial = Trial::open(alloc, plan, &script.start)?;
    for (place, event) in script.events.as_slice().iter().enumerate() {
        if ends_with(&mut trial, *event, place + 1)? {
            break;
        }
    }
    breach_in(alloc, &trial)
}

/// Whether a running run of the other job keeps the lock from the one.
fn is_in_the_way(plan: &Plan, one: u16, other: u16) -> bool {
    let (one, other) = (plan.job_at(one), plan.job_at(other));
    let (mode, others) = (one.mode(), other.mode());
    mode.takes_lock()
        && others.takes_lock()
        && one.group().is_some()
        && one.group() == other.group()
        && !(mode.shares() && others.shares())
}

/// Whether the run takes part in what is broken: it is one of two that may not run together, it
/// weighs, or it keeps the lock from the job that is skipped.
pub fn takes_part(plan: &Plan, shown: Shown, run: Run) -> bool {
    match shown {
        Shown::Together(one, other) => run == one || run == other,
        Shown::Load(_) => true,
        Shown::Skipped(job, _) => is_in_the_way(plan, job, run.job),
    }
}
