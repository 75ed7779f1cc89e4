//! Whether a draft that is read back is what it has to be.
ghost use Rattle.std.specs.Prelude.{◌≡◌, All, IfOk, IfSome, IsTrue, None, Ok};
ghost use Rattle.cs_decl.specs.Faults.{first_fault};
ghost use Rattle.cs_decl.specs.Join.{join_faults};
ghost use Rattle.cs_decl.specs.Meaning.{declared_by};
ghost use Rattle.cs_draft.specs.Draft.{AreUpdates, IsBound, IsUpdate, IsUpdatedJob, IsUpdatedLine, Warn};
ghost use Rattle.cs_draft.specs.Draft.{left_behind};

use crate::added::{are_new_groups, is_updated_job, is_updated_line};
use crate::kept::{are_terms, left_behind};
use crate::names::{are_bound, entries_are_bound};
use crate::warned::are_warned;
use cs_anacrontab::{Anacrontab, Job};
use cs_crontab::{Crontab, Line};
use cs_decl::{Declarations, Entries, join, read_declarations};
use cs_place::Place;
use cs_plan::DeclError;
use cs_retrace::Given;
use std::alloc::{AllocError, Global};

fn declared(alloc: Global, text: &[u8]) -> Result<Option<Declarations>, AllocError>
    ensures { IfOk result (λ found. IfSome found (λ d. declared_by text.now ≡ Ok d)) }
{
    match read_declarations(alloc, text) {
        Ok(declarations) => Ok(Some(declarations)),
        Err(DeclError::OutOfMemory) => Err(AllocError),
        Err(DeclError::At { .. }) => Ok(None),
    }
}

#[tactic(auto, using(crate::proofs::Joins::plan_fits))]
fn is_fitting(
    alloc: Global,
    table: &Crontab,
    jobs: &Anacrontab,
    declarations: Declarations,
) -> Result<bool, AllocError>
    ensures { IfOk result (λ b. IsTrue b
        → first_fault (join_faults table.now jobs.now declarations) ≡ None) }
{
    match join(alloc, table.copy(alloc)?, jobs.copy(alloc)?, declarations) {
        Ok(_) => Ok(true),
        Err(DeclError::OutOfMemory) => Err(AllocError),
        Err(DeclError::At { .. }) => Ok(false),
    }
}

fn are_sound(entries: &Entries, lines: &[Line]) -> bool
    ensures once { IsTrue result → entries.now.doubled ≡ None }
    ensures bound { IsTrue result → All (λ e. IsBound lines.now e.name) entries.now.cron }
    ensures left_out { IsTrue result → All (IsBound lines.now) entries.now.left_out }
{
    entries_are_bound(lines, entries.cron.as_slice())
        && are_bound(lines, entries.left_out.as_slice())
        && entries.doubled.is_none()
}

fn are_updated_lines(
    alloc: Global,
    lines: &[Line],
    places: &[Place],
    old: &Entries,
    max: u64,
    given: &[Given],
    new: &Entries,
) -> Result<bool, AllocError>
    ensures { IfOk result (λ b. IsTrue b → All (IsUpdatedLine lines.now places.now old.now
        (left_behind lines.now old.now) max given.now new.now) lines.now) }
{
    let behind = left_behind(lines, old);
    for line in lines {
        if !is_updated_line(alloc, lines, places, old, behind, max, given, new, line)? {
            return Ok(false);
        }
    }
    Ok(true)
}

fn are_updated_jobs(old: &Entries, max: u64, given: &[Given], new: &Entries, jobs: &[Job]) -> bool
    ensures { IsTrue result → All (IsUpdatedJob old.now max given.now new.now) jobs.now }
{
    for job in jobs {
        if !is_updated_job(old, max, given, new, job) {
            return false;
        }
    }
    true
}

fn are_updates(
    alloc: Global,
    table: &Crontab,
    jobs: &Anacrontab,
    places: &[Place],
    old: &Entries,
    max: u64,
    given: &[Given],
    new: &Entries,
) -> Result<bool, AllocError>
    ensures { IfOk result (λ b. IsTrue b
        → AreUpdates table.now jobs.now places.now old.now max given.now new.now) }
{
    if !are_terms(old, new)
        || !are_new_groups(old, new)
        || !are_updated_jobs(old, max, given, new, jobs.lines())
    {
        return Ok(false);
    }
    are_updated_lines(alloc, table.lines(), places, old, max, given, new)
}

pub(crate) fn is_update(
    alloc: Global,
    table: &Crontab,
    jobs: &Anacrontab,
    places: &[Place],
    old: &Entries,
    max: u64,
    given: &[Given],
    text: &[u8],
    warnings: &[u8],
) -> Result<bool, AllocError>
    ensures update { IfOk result
        (λ b. IsTrue b → IsUpdate table.now jobs.now places.now old.now max given.now text.now) }
    ensures warned { IfOk result
        (λ b. IsTrue b → Warn table.now jobs.now old.now text.now warnings.now) }
{
    let Some(declarations) = declared(alloc, text)? else {
        return Ok(false);
    };
    let new = declarations.entries();
    if !are_sound(new, table.lines())
        || !are_updates(alloc, table, jobs, places, old, max, given, new)?
        || !are_warned(alloc, table, jobs, old, new, warnings)?
    {
        return Ok(false);
    }
    is_fitting(alloc, table, jobs, declarations)
}
