//! Leaves: where windows are listed, each minute's leaf on the last day lists all that hold it.
ghost use Rattle.std.specs.Prelude.{◌≡◌, IfOk, IsTrue, option_map};
ghost use Rattle.cs_classes.specs.Said.{said};
ghost use Rattle.cs_check.specs.Stretches.{IsCase, claim_of, plan_of, leaves_fault};
ghost use Rattle.cs_classes.specs.Used.{AreInside, IsInUse, seen};
ghost use Rattle.cs_theorem.specs.Told.{told};
ghost use Rattle.cs_theorem.specs.Accepted.{ListsAll};

use crate::case::{Case, civil, minute_on};
use cs_classes::UsedStretch;
use cs_overlap::missing;
use cs_theorem::CheckFault;
use cs_windows::Window;
use std::alloc::{AllocError, Global};

pub(crate) fn holds(used: &UsedStretch<'_>, windows: &[Window]) -> bool
    requires { AreInside (seen used.now).tree }
    ensures { IsTrue result → ListsAll (seen used.now).tree windows.now }
{
    match used.tree {
        Some(tree) => tree.covers(windows),
        None => true,
    }
}

pub(crate) fn first_fault(
    alloc: Global,
    case: &Case<'_>,
    used: &UsedStretch<'_>,
) -> Result<Option<CheckFault>, AllocError>
    requires case { IsCase case.now }
    requires in_use { IsInUse (said case.now.claim.now) case.now.days used.now }
    ensures { IfOk result (λ found. option_map told found
        ≡ leaves_fault (plan_of case.now) (claim_of case.now) case.now.days
        (seen used.now)) }
{
    let tree = match used.tree {
        Some(tree) => tree,
        None => return Ok(None),
    };
    let windows = case.windows(alloc, used)?;
    if holds(used, windows.as_slice()) {
        return Ok(None);
    }
    match missing(alloc, tree, windows.as_slice())? {
        Some((minute, window)) => {
            let at = civil(minute_on(case, used, minute));
            Ok(Some(CheckFault::WindowMissing { window, at }))
        }
        None => Ok(None),
    }
}
