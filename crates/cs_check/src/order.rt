//! The first fault of the stretches in use, in the order of the rules.
ghost use Rattle.std.specs.Prelude.{◌≡◌, All, IfOk, option_map};
ghost use Rattle.cs_classes.specs.Said.{said};
ghost use Rattle.cs_check.specs.Stretches.{IsCase, all_seen, claim_of, fault_by, later_fault, plan_of, windows_fault};
ghost use Rattle.cs_classes.specs.Used.{IsInUse, seen};
ghost use Rattle.cs_theorem.specs.Told.{told};
ghost use Rattle.cs_theorem.specs.Faults.{first_of};

use crate::case::Case;
use crate::{capacity, collisions, leaves, reaches, skips, steps};
use cs_classes::UsedStretch;
use cs_theorem::CheckFault;
use std::alloc::{AllocError, Global};

/// The rules that are checked stretch by stretch.
#[derive(Clone, Copy)]
pub(crate) enum Rule {
    Steps,
    Leaves,
    Collisions,
    Capacity,
    Skips,
}

fn fault_by(
    alloc: Global,
    case: &Case<'_>,
    rule: Rule,
    used: &UsedStretch<'_>,
) -> Result<Option<CheckFault>, AllocError>
    requires case { IsCase case.now }
    requires in_use { IsInUse (said case.now.claim.now) case.now.days used.now }
    ensures { IfOk result (λ found. option_map told found
        ≡ fault_by rule (plan_of case.now) (claim_of case.now) case.now.days
        (seen used.now)) }
{
    match rule {
        Rule::Steps => steps::first_fault(alloc, case, used),
        Rule::Leaves => leaves::first_fault(alloc, case, used),
        Rule::Collisions => collisions::first_fault(alloc, case, used),
        Rule::Capacity => capacity::first_fault(alloc, case, used),
        Rule::Skips => skips::first_fault(alloc, case, used),
    }
}

fn first_by(
    alloc: Global,
    case: &Case<'_>,
    rule: Rule,
    stretches: &[UsedStretch<'_>],
) -> Result<Option<CheckFault>, AllocError>
    requires case { IsCase case.now }
    requires in_use { All (IsInUse (said case.now.claim.now) case.now.days) stretches.now }
    ensures { IfOk result (λ found. option_map told found
        ≡ first_of (fault_by rule (plan_of case.now) (claim_of case.now) case.now.days)
        (all_seen stretches.now)) }
{
    for used in stretches {
        if let Some(fault) = fault_by(alloc, case, rule, used)? {
            return Ok(Some(fault));
        }
    }
    Ok(None)
}

#[tactic(auto, unfolding(crate::specs::Stretches::windows_fault))]
fn first_by_windows(
    alloc: Global,
    case: &Case<'_>,
    stretches: &[UsedStretch<'_>],
) -> Result<Option<CheckFault>, AllocError>
    requires case { IsCase case.now }
    requires in_use { All (IsInUse (said case.now.claim.now) case.now.days) stretches.now }
    ensures { IfOk result (λ found. option_map told found
        ≡ windows_fault (plan_of case.now) (claim_of case.now) case.now.days
        (all_seen stretches.now)) }
{
    if let Some(fault) = first_by(alloc, case, Rule::Leaves, stretches)? {
        return Ok(Some(fault));
    }
    if let Some(fault) = first_by(alloc, case, Rule::Collisions, stretches)? {
        return Ok(Some(fault));
    }
    if let Some(fault) = first_by(alloc, case, Rule::Capacity, stretches)? {
        return Ok(Some(fault));
    }
    first_by(alloc, case, Rule::Skips, stretches)
}

#[tactic(auto, unfolding(crate::specs::Stretches::later_fault))]
pub(crate) fn later_fault(
    alloc: Global,
    case: &Case<'_>,
    stretches: &[UsedStretch<'_>],
) -> Result<Option<CheckFault>, AllocError>
    requires case { IsCase case.now }
    requires in_use { All (IsInUse (said case.now.claim.now) case.now.days) stretches.now }
    ensures { IfOk result (λ found. option_map told found
        ≡ later_fault (plan_of case.now) (claim_of case.now) case.now.days
        (all_seen stretches.now)) }
{
    if let Some(fault) = first_by(alloc, case, Rule::Steps, stretches)? {
        return Ok(Some(fault));
    }
    if let Some(fault) = reaches::first_fault(case, stretches) {
        return Ok(Some(fault));
    }
    first_by_windows(alloc, case, stretches)
}
