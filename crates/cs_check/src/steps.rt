//! Backlog steps: bounds of groups follow the arrivals, from the last day but one to the last.
ghost use Rattle.std.specs.Prelude.{◌≡◌, IfOk, IsTrue, option_map};
ghost use Rattle.cs_classes.specs.Said.{said};
ghost use Rattle.cs_check.specs.Stretches.{IsCase, StepsHold, claim_of, plan_of, steps_fault};
ghost use Rattle.cs_classes.specs.Used.{IsInUse, seen};
ghost use Rattle.cs_theorem.specs.Told.{told};

use crate::case::{Case, civil, minute_on};
use cs_classes::{UsedStretch, first_rise, is_steady_over};
use cs_theorem::CheckFault;
use std::alloc::{AllocError, Global};

pub(crate) fn holds(case: &Case<'_>, used: &UsedStretch<'_>) -> bool
    requires case { IsCase case.now }
    requires in_use { IsInUse (said case.now.claim.now) case.now.days used.now }
    ensures { IsTrue result → StepsHold (plan_of case.now) (claim_of case.now) case.now.days
        (seen used.now) }
{
    let days = case.days();
    let eve = case.day_on(used, days - 2);
    let last = case.day_on(used, days - 1);
    is_steady_over(eve.groups.as_slice(), last.groups.as_slice())
}

pub(crate) fn first_fault(
    alloc: Global,
    case: &Case<'_>,
    used: &UsedStretch<'_>,
) -> Result<Option<CheckFault>, AllocError>
    requires case { IsCase case.now }
    requires in_use { IsInUse (said case.now.claim.now) case.now.days used.now }
    ensures { IfOk result (λ found. option_map told found
        ≡ steps_fault (plan_of case.now) (claim_of case.now) case.now.days
        (seen used.now)) }
{
    if holds(case, used) {
        return Ok(None);
    }
    let days = case.days();
    let eve = case.class_on(used, days - 2);
    let last = case.class_on(used, days - 1);
    match first_rise(alloc, case.plan, eve, last)? {
        Some((minute, group)) => {
            let at = civil(minute_on(case, used, minute) - 1_440);
            Ok(Some(CheckFault::BacklogRises { group, at }))
        }
        None => Ok(None),
    }
}
