//! Stretches: each successive kinds of days have the stretch of their classes.
ghost use Rattle.std.specs.Prelude.{IfErr, IfOk};
ghost use Rattle.cs_classes.specs.Said.{said};
ghost use Rattle.cs_check.specs.Case.{claim_fault};
ghost use Rattle.cs_check.specs.Checked.{Tells};
ghost use Rattle.cs_check.specs.Stretches.{AreStretches, IsCase};

use crate::case::Case;
use crate::fault::CheckError;
use cs_classes::{UsedStretch, first_missing, used_stretches};
use cs_theorem::CheckFault;
use std::alloc::Global;

pub(crate) fn in_use<'a>(alloc: Global, case: &Case<'a>) -> Result<Vec<UsedStretch<'a>>, CheckError>
    requires { IsCase case.now }
    ensures ok { IfOk result (λ stretches. AreStretches case.now stretches.items) }
    ensures fault { IfErr result (Tells (claim_fault case.now.plan.now (said case.now.claim.now))) }
{
    let _days = case.days();
    if let Some(kinds) = first_missing(alloc, case.claim, case.days)? {
        return Err(CheckError::Fault(CheckFault::MissingPair(kinds)));
    }
    Ok(used_stretches(alloc, case.claim, case.days)?)
}
