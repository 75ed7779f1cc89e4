//! The plan with a single change.
ghost use Rattle.std.specs.Prelude.{◌≡◌, ◌≢◌, ◌↔◌, IfOk, IfSome, IsTrue, Ok, slice_index_or};
ghost use Rattle.cs_crontab.specs.declared.table.When.TheVariants.{At};
ghost use Rattle.cs_plan.specs.Plan.{no_command};
ghost use Rattle.cs_advise.specs.Change.{AreMoved, IsChanged, IsEdited, IsMoved, IsMovedLine};
ghost use Rattle.cs_advise.specs.Change.{IsPlanOf, IsShifted, shift_of};
ghost use Rattle.cs_advise.specs.Edit.{HasValue};
ghost use Rattle.cs_advise.specs.Replaced.{IsOtherLine};

use crate::change::{Change, Member, Shift, Start};
use crate::edit::edit_of;
use crate::later::is_later;
use crate::shifting::line_span;
use crate::source::Source;
use crate::text::replaced;
use cs_crontab::{Line, TableFault, When, read_crontab};
use cs_decl::{join, read_declarations};
use cs_plan::{DeclError, Plan};
use std::alloc::{AllocError, Global};

#[derive(Drop)]
pub(crate) struct ChangedPlan {
    pub(crate) plan: Plan,
    /// What is pasted into the declarations; empty for a change of the table.
    pub(crate) pasted: Vec<u8>,
}

/// None where the texts have a fault, or don't join with the plan's anacrontab.
fn plan_of(
    alloc: Global,
    plan: &Plan,
    table: &[u8],
    declarations: &[u8],
) -> Result<Option<Plan>, AllocError>
    ensures { IfOk result (λ found. IfSome found
        (IsPlanOf table.now declarations.now plan.now.anacrontab)) }
{
    let table = match read_crontab(alloc, table) {
        Ok(table) => table,
        Err(TableFault::OutOfMemory) => return Err(AllocError),
        Err(_) => return Ok(None),
    };
    let declarations = match read_declarations(alloc, declarations) {
        Ok(declarations) => declarations,
        Err(DeclError::OutOfMemory) => return Err(AllocError),
        Err(_) => return Ok(None),
    };
    match join(alloc, table, plan.anacrontab().copy(alloc)?, declarations) {
        Ok(plan) => Ok(Some(plan)),
        Err(DeclError::OutOfMemory) => Err(AllocError),
        Err(_) => Ok(None),
    }
}

fn is_shifted(shift: Shift, old: &When, new: &When) -> bool
    ensures { IsTrue result → IsShifted shift old.now new.now }
{
    let When::At(old) = old else {
        return false;
    };
    let When::At(new) = new else {
        return false;
    };
    if shift.is_later {
        is_later(old, new, shift.minutes)
    } else {
        is_later(new, old, shift.minutes)
    }
}

fn shift_of(change: &Change, job: usize) -> Shift
    ensures { result ≡ shift_of change.now job }
{
    match change {
        Change::Start(start) if usize::from(start.job) == job => start.shift,
        Change::Both(one, _) if usize::from(one.job) == job => one.shift,
        Change::Both(_, other) if usize::from(other.job) == job => other.shift,
        _ => Shift {
            is_later: true,
            minutes: 0,
        },
    }
}

fn is_moved_at(change: &Change, old: &[Line], new: &[Line], job: usize) -> bool
    ensures { IsTrue result → IsMovedLine (shift_of change.now job)
        (slice_index_or old.now job no_command) (slice_index_or new.now job no_command) }
{
    let Some(old) = old.get(job) else {
        return false;
    };
    let Some(new) = new.get(job) else {
        return false;
    };
    old.number() == new.number()
        && old.command() == new.command()
        && is_shifted(shift_of(change, job), old.when(), new.when())
}

fn are_moved(change: &Change, old: &[Line], new: &[Line]) -> bool
    ensures { IsTrue result → AreMoved change.now old.now new.now }
{
    if old.len() != new.len() {
        return false;
    }
    for job in 0..old.len() {
        if !is_moved_at(change, old, new, job) {
            return false;
        }
    }
    true
}

/// None where the line isn't found.
fn with_start(
    alloc: Global,
    plan: &Plan,
    text: &[u8],
    start: &Start,
) -> Result<Option<Vec<u8>>, AllocError>
    ensures { IfOk result
        (λ found. IfSome found (λ new. IsOtherLine text.now start.now.line new.items)) }
{
    let Some(line) = plan.crontab().lines().get(usize::from(start.job)) else {
        return Ok(None);
    };
    let span = line_span(text, line.number());
    let old = span.bytes(text);
    if old.contains(&b'\n') {
        return Ok(None);
    }
    replaced(alloc, text, span.from, old, start.line.as_slice())
}

/// None where the table has a fault, doesn't fit the declarations, or moves other commands.
fn moved_plan(
    alloc: Global,
    source: &Source,
    plan: &Plan,
    change: &Change,
    text: &[u8],
) -> Result<Option<ChangedPlan>, AllocError>
    ensures { IfOk result
        (λ found. IfSome found (λ moved. IsMoved source.now plan.now change.now text.now moved.plan)) }
{
    let Some(moved) = plan_of(alloc, plan, text, source.declarations.as_slice())? else {
        return Ok(None);
    };
    if !are_moved(change, plan.crontab().lines(), moved.crontab().lines()) {
        return Ok(None);
    }
    Ok(Some(ChangedPlan {
        plan: moved,
        pasted: Vec::new(alloc),
    }))
}

fn has_value(plan: &Plan, member: &Member) -> bool
    ensures { IsTrue result ↔ HasValue plan.now member.now }
{
    match member {
        Member::Max(job, max) => plan.job_at(*job).max() == *max,
        Member::Mode(job, mode) => plan.job_at(*job).mode() == *mode,
        Member::Capacity(capacity) => plan.capacity() == *capacity,
        Member::Hours(hours) => plan.hours() == *hours,
    }
}

/// None where the declarations had the value, have a fault, or don't fit the tables.
fn edited_plan(
    alloc: Global,
    source: &Source,
    plan: &Plan,
    member: &Member,
) -> Result<Option<ChangedPlan>, AllocError>
    ensures { IfOk result (λ found. IfSome found
        (λ edited. IsEdited source.now plan.now member.now edited.pasted.items edited.plan)) }
{
    if has_value(plan, member) {
        return Ok(None);
    }
    let Some(edit) = edit_of(alloc, plan, source.declarations.as_slice(), member)? else {
        return Ok(None);
    };
    let table = source.table.as_slice();
    let Some(edited) = plan_of(alloc, plan, table, edit.text.as_slice())? else {
        return Ok(None);
    };
    if !has_value(&edited, member) {
        return Ok(None);
    }
    Ok(Some(ChangedPlan {
        plan: edited,
        pasted: edit.pasted,
    }))
}

/// The plan with a change; none where the change isn't possible.
pub(crate) fn changed_plan(
    alloc: Global,
    source: &Source,
    plan: &Plan,
    change: &Change,
) -> Result<Option<ChangedPlan>, AllocError>
    ensures { IfOk result (λ found. IfSome found
        (λ made. IsChanged source.now plan.now change.now made.pasted.items made.plan)) }
{
    match change {
        Change::Start(start) => match with_start(alloc, plan, source.table.as_slice(), start)? {
            Some(text) => moved_plan(alloc, source, plan, change, text.as_slice()),
            None => Ok(None),
        },
        Change::Both(one, other) => {
            if one.job == other.job {
                return Ok(None);
            }
            let Some(first) = with_start(alloc, plan, source.table.as_slice(), one)? else {
                return Ok(None);
            };
            match with_start(alloc, plan, first.as_slice(), other)? {
                Some(text) => moved_plan(alloc, source, plan, change, text.as_slice()),
                None => Ok(None),
            }
        }
        Change::Member(member) => edited_plan(alloc, source, plan, member),
    }
}
