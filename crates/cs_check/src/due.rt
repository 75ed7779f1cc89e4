//! Due minutes: the class of each kind of day has exactly those of the kind.
ghost use Rattle.std.specs.Prelude.{◌≡◌, [], IfErr, IfOk};
ghost use Rattle.cs_classes.specs.Said.{said};
ghost use Rattle.cs_check.specs.Case.{IsFit, claim_fault};
ghost use Rattle.cs_check.specs.Checked.{Tells};
ghost use Rattle.cs_check.specs.ClassDays.{IsBasisOf};

use crate::fault::CheckError;
use cs_classes::{Claim, Workers, first_unlike, occupied};
use cs_plan::Plan;
use cs_theorem::CheckFault;
use cs_wait::Backlog;
use cs_windows::Occupied;
use std::alloc::Global;

#[derive(Drop)]
pub(crate) struct Basis<'a> {
    pub(crate) plan: &'a Plan,
    pub(crate) claim: &'a Claim<'a>,
    pub(crate) occupied: Vec<Occupied<'a>>,
    pub(crate) none: &'a Backlog,
}

pub(crate) fn basis_of<'a, W: Workers>(
    workers: &W,
    alloc: Global,
    plan: &'a Plan,
    claim: &'a Claim<'a>,
    none: &'a Backlog,
) -> Result<Basis<'a>, CheckError>
    requires ready { W.can_work workers.now }
    requires fit { IsFit plan.now (said claim.now).reach }
    requires none { none.now ≡ [] }
    ensures ok { IfOk result (IsBasisOf plan.now (said claim.now)) }
    ensures fault { IfErr result (Tells (claim_fault plan.now (said claim.now))) }
{
    let unlike = first_unlike(workers, alloc, plan, claim)?;
    let occupied = occupied(alloc, plan, claim.reach())?;
    if let Some(kind) = unlike {
        return Err(CheckError::Fault(CheckFault::ClassNotDue(kind)));
    }
    Ok(Basis {
        plan,
        claim,
        occupied,
        none,
    })
}
