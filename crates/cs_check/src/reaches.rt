//! Reaches: each job that waits has one, and its lock within it.
ghost use Rattle.std.specs.Prelude.{◌≡◌, ◌<◌, ℕ, All, IsTrue, Some, map, option_map, true};
ghost use Rattle.std.specs.List.{list_all};
ghost use Rattle.cs_classes.specs.Said.{said};
ghost use Rattle.cs_check.specs.ClassDays.{IsBasis, Settle, Settles};
ghost use Rattle.cs_check.specs.Stretches.{HaveReaches, IsCase, ReachHolds, ReachesHold, all_seen, claim_of, classes_in, clears_on, is_far, plan_of, reaches_fault};
ghost use Rattle.cs_classes.specs.Used.{IsInUse, seen};
ghost use Rattle.cs_plan.specs.Plan.{crons};
ghost use Rattle.cs_history.specs.Plan.{waits};
ghost use Rattle.cs_theorem.specs.Told.{told};

use crate::case::Case;
use crate::due::Basis;
use cs_claims::{Class, reach_of};
use cs_classes::{UsedStretch, clears, waits};
use cs_theorem::CheckFault;

fn has_reach(case: &Case<'_>, number: usize) -> bool
    requires { number < crons case.now.plan.now }
    ensures { IsTrue result → waits (plan_of case.now) number ≡ true
        → (r : ℕ) × ((claim_of case.now).reach number ≡ Some r) }
{
    if !waits(case.plan, number) {
        return true;
    }
    case.reach_of(number).is_some()
}

pub(crate) fn have_reaches(case: &Case<'_>) -> bool
    ensures { IsTrue result → HaveReaches (plan_of case.now) (claim_of case.now) }
{
    for number in 0..case.plan.crons() {
        if !has_reach(case, number) {
            return false;
        }
    }
    true
}

fn settles(basis: &Basis<'_>, class: &Class, number: usize) -> bool
    requires basis { IsBasis basis.now }
    requires cron { number < crons basis.now.plan.now }
    ensures { IsTrue result
        → Settles basis.now.plan.now (said basis.now.claim.now) class.now number }
{
    if !waits(basis.plan, number) {
        return true;
    }
    match reach_of(basis.claim.reach(), number) {
        Some(reach) => clears(basis.plan, number, reach, &[class], basis.none),
        None => true,
    }
}

pub(crate) fn all_settle(basis: &Basis<'_>, class: &Class) -> bool
    requires { IsBasis basis.now }
    ensures { IsTrue result → Settle basis.now.plan.now (said basis.now.claim.now) class.now }
{
    for number in 0..basis.plan.crons() {
        if !settles(basis, class, number) {
            return false;
        }
    }
    true
}

fn clears_on<'a>(
    case: &Case<'a>,
    used: &UsedStretch<'_>,
    classes: &[&'a Class],
    number: usize,
    reach: u16,
) -> bool
    requires case { IsCase case.now }
    requires in_use { IsInUse (said case.now.claim.now) case.now.days used.now }
    requires classes { map (λ class. class.now) classes.now ≡ classes_in case.now used.now }
    requires cron { number < crons case.now.plan.now }
    ensures { result ≡ clears_on (plan_of case.now) (claim_of case.now) number reach
        (seen used.now) }
{
    let _days = case.days();
    clears(case.plan, number, reach, classes, case.none)
}

fn reach_holds<'a>(
    case: &Case<'a>,
    used: &UsedStretch<'_>,
    classes: &[&'a Class],
    number: usize,
) -> bool
    requires case { IsCase case.now }
    requires in_use { IsInUse (said case.now.claim.now) case.now.days used.now }
    requires classes { map (λ class. class.now) classes.now ≡ classes_in case.now used.now }
    requires cron { number < crons case.now.plan.now }
    ensures { IsTrue result → ReachHolds (plan_of case.now) (claim_of case.now)
        (seen used.now) number }
{
    if !waits(case.plan, number) {
        return true;
    }
    match case.reach_of(number) {
        Some(reach) => clears_on(case, used, classes, number, reach),
        None => true,
    }
}

/// Reaches are looked at only if not all jobs that wait have had their locks on the first day.
pub(crate) fn holds(case: &Case<'_>, used: &UsedStretch<'_>) -> bool
    requires case { IsCase case.now }
    requires in_use { IsInUse (said case.now.claim.now) case.now.days used.now }
    ensures { IsTrue result → ReachesHold (plan_of case.now) (claim_of case.now)
        (seen used.now) }
{
    let days = case.days();
    if case.day_on(used, 0).settles {
        return true;
    }
    let classes = case.classes_of(used);
    for number in 0..case.plan.crons() {
        if !reach_holds(case, used, &classes[..days], number) {
            return false;
        }
    }
    true
}

/// The reach is looked at only if not all jobs that wait have had their locks on the first day.
fn is_far_on(case: &Case<'_>, used: &UsedStretch<'_>, number: usize, reach: u16) -> bool
    requires case { IsCase case.now }
    requires in_use { IsInUse (said case.now.claim.now) case.now.days used.now }
    requires cron { number < crons case.now.plan.now }
    requires waits { waits (plan_of case.now) number ≡ true }
    requires reach { (claim_of case.now).reach number ≡ Some reach }
    ensures { result ≡ clears_on (plan_of case.now) (claim_of case.now) number reach
        (seen used.now) }
{
    let days = case.days();
    if case.day_on(used, 0).settles {
        return true;
    }
    let classes = case.classes_of(used);
    clears_on(case, used, &classes[..days], number, reach)
}

fn is_far_on_all(case: &Case<'_>, stretches: &[UsedStretch<'_>], number: usize, reach: u16) -> bool
    requires case { IsCase case.now }
    requires in_use { All (IsInUse (said case.now.claim.now) case.now.days) stretches.now }
    requires cron { number < crons case.now.plan.now }
    requires waits { waits (plan_of case.now) number ≡ true }
    requires reach { (claim_of case.now).reach number ≡ Some reach }
    ensures { result ≡ list_all (clears_on (plan_of case.now) (claim_of case.now) number reach)
        (all_seen stretches.now) }
{
    for used in stretches {
        if !is_far_on(case, used, number, reach) {
            return false;
        }
    }
    true
}

fn is_far(case: &Case<'_>, stretches: &[UsedStretch<'_>], number: usize) -> bool
    requires case { IsCase case.now }
    requires in_use { All (IsInUse (said case.now.claim.now) case.now.days) stretches.now }
    requires cron { number < crons case.now.plan.now }
    ensures { result
        ≡ is_far (plan_of case.now) (claim_of case.now) (all_seen stretches.now) number }
{
    if !waits(case.plan, number) {
        return true;
    }
    match case.reach_of(number) {
        Some(reach) => is_far_on_all(case, stretches, number, reach),
        None => false,
    }
}

pub(crate) fn first_fault(case: &Case<'_>, stretches: &[UsedStretch<'_>]) -> Option<CheckFault>
    requires case { IsCase case.now }
    requires in_use { All (IsInUse (said case.now.claim.now) case.now.days) stretches.now }
    ensures { option_map told result
        ≡ reaches_fault (plan_of case.now) (claim_of case.now) (all_seen stretches.now) }
{
    for job in 0..case.plan.crons() {
        if !is_far(case, stretches, job) {
            return Some(CheckFault::ReachTooShort { job });
        }
    }
    None
}
