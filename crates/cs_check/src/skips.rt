//! Skip jobs: at no due minute of one on the last day does another window hold its lock.
ghost use Rattle.std.specs.Prelude.{◌≡◌, IfOk, option_map};
ghost use Rattle.cs_classes.specs.Said.{said};
ghost use Rattle.cs_check.specs.Stretches.{IsCase, claim_of, plan_of, skips_fault};
ghost use Rattle.cs_classes.specs.Used.{IsInUse, seen};
ghost use Rattle.cs_theorem.specs.Told.{told};

use crate::case::{Case, civil, minute_on};
use cs_classes::UsedStretch;
use cs_theorem::CheckFault;
use std::alloc::{AllocError, Global};

pub(crate) fn first_fault(
    alloc: Global,
    case: &Case<'_>,
    used: &UsedStretch<'_>,
) -> Result<Option<CheckFault>, AllocError>
    requires case { IsCase case.now }
    requires in_use { IsInUse (said case.now.claim.now) case.now.days used.now }
    ensures { IfOk result (λ found. option_map told found
        ≡ skips_fault (plan_of case.now) (claim_of case.now) case.now.days
        (seen used.now)) }
{
    let windows = case.windows(alloc, used)?;
    let quiet = case.roles.quiet(alloc, windows.as_slice())?;
    if quiet.is_free {
        return Ok(None);
    }
    match case.roles.blocked(alloc, windows.as_slice())? {
        Some((minute, skip, other)) => {
            let at = civil(minute_on(case, used, minute));
            Ok(Some(CheckFault::SkipBlocked { at, skip, other }))
        }
        None => Ok(None),
    }
}
