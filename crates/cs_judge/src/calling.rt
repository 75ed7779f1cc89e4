ghost use Rattle.std.specs.Prelude.{◌≡◌, IfOk, IfSome, true};
ghost use Rattle.cs_check.specs.Checked.{StayInWindows, plan_in};
ghost use Rattle.cs_plan.specs.Plan.{as_plan};
ghost use Rattle.cs_judge.specs.Called.{IsCalledSafe, reach_in};
ghost use Rattle.cs_judge.specs.Judged.{IsJudgement};
ghost use Rattle.cs_judge.specs.declared.judged.Judged.TheVariants.{Safe};

use crate::judging::check;
use cs_check::Checked;
use cs_claims::reach_of;
use cs_maker::Maker;
use cs_plan::Plan;
use std::alloc::{AllocError, Global};
use std::thread::Threads;

/// Returns the plan with the maker's compact certificate, if [`judge`](crate::judge) calls it safe.
/// No script is searched for if it doesn't. The only error is out of memory.
pub fn called_safe<R: Threads + Sync>(
    rt: &R,
    alloc: Global,
    plan: &Plan,
) -> Result<Option<Checked>, AllocError>
    // a plan of which nothing is answered may be unsafe or unknown
    ensures { IfOk result (λ found. IfSome found (λ checked. IsJudgement plan.now (Safe checked))) }
{
    let maker = Maker::of(alloc, plan)?;
    match check(rt, alloc, plan, maker.compact(alloc)?)? {
        Ok(checked) => Ok(Some(checked)),
        Err(_) => Ok(None),
    }
}

/// Checks whether [`judge`](crate::judge) calls a plan safe. No script is searched for if it
/// doesn't. The only error is out of memory.
pub fn is_called_safe<R: Threads + Sync>(
    rt: &R,
    alloc: Global,
    plan: &Plan,
) -> Result<bool, AllocError>
    // a plan that isn't called so may be unsafe or unknown
    ensures { IfOk result (λ safe. safe ≡ true → IsCalledSafe plan.now) }
{
    let found = called_safe(rt, alloc, plan)?;
    Ok(found.is_some())
}

/// Returns the reach of a job by the certificate with which its plan was accepted: a run that is
/// due in minute d holds no minute from d + reach on, if its job is a cron job that waits for a
/// lock.
pub fn reach_in(checked: &Checked, job: u16) -> u16
    ensures value { result ≡ reach_in checked.now job }

    // in every legal history in time each run is in the window that this reach gives it
    ensures windows { StayInWindows (as_plan (plan_in checked.now)) (reach_in checked.now) }
{
    checked.is_safe();
    match reach_of(checked.certificate().reach(), usize::from(job)) {
        Some(reach) => reach,
        None => checked.plan().job_at(job).max(),
    }
}
