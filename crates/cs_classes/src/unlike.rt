ghost use Rattle.std.specs.Prelude.{◌≡◌, IfOk, option_map};
ghost use Rattle.cs_theorem.specs.Faults.{ClassNotDue, due_fault, is_due_alike};
ghost use Rattle.cs_classes.specs.Likeness.{AreLikenesses};
ghost use Rattle.cs_classes.specs.Claim.{as_certificate};
ghost use Rattle.cs_classes.specs.Planned.{due_on};
ghost use Rattle.cs_classes.specs.Said.{said};
ghost use Rattle.cs_plan.specs.Plan.{as_plan};

use crate::claim::Claim;
use crate::likeness::{Likeness, is_job_alike};
use crate::workers::Workers;
use cs_civil::{DayKind, Sequence, all_kinds};
use cs_plan::Plan;
use std::alloc::{AllocError, Global};

fn is_alike(plan: &Plan, claim: &Claim<'_>, rows: &[Sequence<Likeness>], kind: DayKind) -> bool
    requires { AreLikenesses plan.now (said claim.now) rows.now }
    ensures { result
        ≡ is_due_alike (as_plan plan.now) (due_on plan.now) (as_certificate (said claim.now)) kind }
{
    let zone = *plan.zone();
    let number = claim.kinds().class_of(kind) as usize;
    let class = &claim.classes()[number];
    let row = rows[number].as_slice();
    for (job, line) in plan.crontab().lines().iter().enumerate() {
        if !is_job_alike(zone, row[job], class, job as u16, line, kind) {
            return false;
        }
    }
    true
}

fn first_by_rows(plan: &Plan, claim: &Claim<'_>, rows: &[Sequence<Likeness>]) -> Option<DayKind>
    requires { AreLikenesses plan.now (said claim.now) rows.now }
    ensures { option_map ClassNotDue result
        ≡ due_fault (as_plan plan.now) (due_on plan.now) (as_certificate (said claim.now)) }
{
    for kind in all_kinds() {
        if !is_alike(plan, claim, rows, kind) {
            return Some(kind);
        }
    }
    None
}

/// Returns the first kind of day, in the order of [`all_kinds`], whose class doesn't have exactly
/// the due minutes of the plan's cron jobs on such days (`cron(8)`). The only error is out of
/// memory.
pub fn first_unlike<W: Workers>(
    workers: &W,
    alloc: Global,
    plan: &Plan,
    claim: &Claim<'_>,
) -> Result<Option<DayKind>, AllocError>
    requires { W.can_work workers.now }
    ensures { IfOk result (λ found.
        option_map ClassNotDue found
        ≡ due_fault (as_plan plan.now) (due_on plan.now) (as_certificate (said claim.now))) }
{
    let rows = workers.likenesses(alloc, plan, claim)?;
    Ok(first_by_rows(plan, claim, rows.as_slice()))
}
