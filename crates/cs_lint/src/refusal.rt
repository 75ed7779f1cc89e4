//! The first fault of the readers.
ghost use Rattle.std.specs.Prelude.{ℕ, List, IfOk, Ok};
ghost use Rattle.std.specs.Option.{option_map};
ghost use Rattle.cs_crontab.specs.Faults.{Means};
ghost use Rattle.cs_lint.specs.Refused.{Finds, FindsJobs, FindsPlan, FindsTable};

use cs_anacrontab::{AnacronFault, Anacrontab, JobFault, read_anacrontab};
use cs_crontab::{Crontab, LineFault, TableFault, read_crontab};
use cs_decl::{join, read_declarations};
use cs_diagnostics::FirstFault;
use cs_plan::{DeclError, Plan};
use cs_report::first_behind_user;
use std::alloc::{AllocError, Global};

#[derive(Clone, Copy)]
pub(crate) enum Refusal {
    Table(FirstFault<'static>),
    Jobs(FirstFault<'static>),
    /// Of the declarations, by themselves or beside the tables.
    Plan(FirstFault<'static>),
}

#[derive(Drop)]
pub(crate) struct Looked {
    /// None without declarations.
    pub(crate) plan: Result<Option<Plan>, Refusal>,
    /// The number of the first line whose command seems to follow a user.
    pub(crate) user: Option<u32>,
}

fn table_or_refusal(
    alloc: Global,
    text: &[u8],
) -> Result<Result<Crontab, FirstFault<'static>>, AllocError>
    ensures { IfOk result (λ found. FindsTable found text.now) }
{
    match read_crontab(alloc, text) {
        Ok(table) => Ok(Ok(table)),
        Err(
            TableFault::At {
                line,
                column,
                length,
                fault,
            },
        ) => {
            let is_setting = fault == LineFault::BadSetting;
            Ok(Err(FirstFault::of(line, column, length, is_setting, fault.text())))
        }
        Err(TableFault::OutOfMemory) => Err(AllocError),
    }
}

fn jobs_or_refusal(
    alloc: Global,
    text: Option<&[u8]>,
) -> Result<Result<Anacrontab, FirstFault<'static>>, AllocError>
    ensures { IfOk result (λ found. FindsJobs found (option_map (λ t. t.now) text.entry)) }
{
    let Some(text) = text else {
        return Ok(Ok(Anacrontab::none(alloc)));
    };
    match read_anacrontab(alloc, text) {
        Ok(jobs) => Ok(Ok(jobs)),
        Err(
            AnacronFault::At {
                line,
                column,
                length,
                fault,
            },
        ) => {
            let is_setting = fault == JobFault::BadSetting;
            Ok(Err(FirstFault::of(line, column, length, is_setting, fault.text())))
        }
        Err(AnacronFault::OutOfMemory) => Err(AllocError),
    }
}

/// The fault of declarations has no place: only its name is used.
fn plan_or_refusal(
    alloc: Global,
    table: Crontab,
    jobs: Anacrontab,
    text: &[u8],
) -> Result<Result<Plan, FirstFault<'static>>, AllocError>
    ensures { IfOk result (λ found. FindsPlan found table jobs text.now) }
{
    let declarations = match read_declarations(alloc, text) {
        Ok(declarations) => declarations,
        Err(DeclError::At { fault, place: _ }) => {
            return Ok(Err(FirstFault::of(0, 0, 0, false, fault.text())));
        }
        Err(DeclError::OutOfMemory) => return Err(AllocError),
    };
    match join(alloc, table, jobs, declarations) {
        Ok(plan) => Ok(Ok(plan)),
        Err(DeclError::At { fault, place: _ }) => {
            Ok(Err(FirstFault::of(0, 0, 0, false, fault.text())))
        }
        Err(DeclError::OutOfMemory) => Err(AllocError),
    }
}

/// The first fault of the anacrontab, then of the declarations.
fn plan_beside(
    alloc: Global,
    table: Crontab,
    jobs: Option<&[u8]>,
    declarations: Option<&[u8]>,
) -> Result<Result<Option<Plan>, Refusal>, AllocError>
    ensures { IfOk result (λ plan. (text : List ℕ) → Means text (Ok table) → Finds plan text
        (option_map (λ t. t.now) jobs.entry) (option_map (λ t. t.now) declarations.entry)) }
{
    let jobs = match jobs_or_refusal(alloc, jobs)? {
        Ok(jobs) => jobs,
        Err(first) => return Ok(Err(Refusal::Jobs(first))),
    };
    let Some(text) = declarations else {
        return Ok(Ok(None));
    };
    match plan_or_refusal(alloc, table, jobs, text)? {
        Ok(plan) => Ok(Ok(Some(plan))),
        Err(first) => Ok(Err(Refusal::Plan(first))),
    }
}

/// Reads the crontab, the anacrontab and the declarations, in this order.
pub(crate) fn look_at(
    alloc: Global,
    table: &[u8],
    jobs: Option<&[u8]>,
    declarations: Option<&[u8]>,
) -> Result<Looked, AllocError>
    ensures { IfOk result (λ looked. Finds looked.plan table.now
        (option_map (λ t. t.now) jobs.entry) (option_map (λ t. t.now) declarations.entry)) }
{
    match table_or_refusal(alloc, table)? {
        Ok(crontab) => {
            let user = match first_behind_user(crontab.lines()) {
                Some(line) => Some(line.number()),
                None => None,
            };
            let plan = plan_beside(alloc, crontab, jobs, declarations)?;
            Ok(Looked { plan, user })
        }
        Err(first) => Ok(Looked {
            plan: Err(Refusal::Table(first)),
            user: None,
        }),
    }
}
