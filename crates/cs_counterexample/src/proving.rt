ghost use Rattle.std.specs.Prelude.{◌≤◌, IfOk, IfErr, IsOkUnless};
ghost use Rattle.cs_plan.specs.Plan.{as_plan};
ghost use Rattle.cs_history.specs.Plan.{first_start};
ghost use Rattle.cs_counterexample.specs.Shown.{IsNotShown, IsShown, IsTellable, IsUnsafe};
ghost use Rattle.cs_counterexample.specs.declared.shown.NotShown.TheVariants.{OutOfMemory};

use crate::shown::{NotShown, Shown};
use crate::trial::Trial;
use cs_history::Script;
use cs_plan::Plan;
use std::alloc::Global;

/// Checks whether a script shows that the plan is unsafe: each event may come when it comes, each
/// run ends within its declared time, and something is broken. Returns what is broken first. The
/// script starts at 1970-01-04 00:00 or later.
///
/// The error is the first event that is refused, or is legal and finds a run that has passed its
/// declared time; else `NothingBroken`; or `OutOfMemory` if memory runs out.
pub fn prove_unsafe(alloc: Global, plan: &Plan, script: &Script) -> Result<Shown, NotShown>
    requires { first_start ≤ script.now.start.now }

    ensures shown { IfOk result (IsShown (as_plan plan.now) script.now) }

    ensures not_shown { IfErr result (IsNotShown (as_plan plan.now) script.now) }

    // each script that shows the plan unsafe is shown, unless memory runs out
    ensures exact { IsUnsafe (as_plan plan.now) script.now → IsOkUnless result OutOfMemory }

    // what is shown has runs of the plan, at minutes that a history may reach
    ensures tellable { IfOk result (IsTellable (as_plan plan.now)) }
{
    let _jobs = plan.jobs();
    let mut trial = Trial::open(alloc, plan, &script.start)?;
    for (place, event) in script.events.as_slice().iter().enumerate() {
        trial.take(*event, place + 1)?;
    }
    match trial.shown() {
        Some(shown) => Ok(shown),
        None => Err(NotShown::NothingBroken),
    }
}
