//! Names jobs and their runs.
ghost use Rattle.std.specs.Prelude.{◌≡◌, ◌++◌, OnOk};
ghost use Rattle.cs_jobs.specs.Names.{job_front, job_name, minute_if_civil, run_name};

use cs_civil::{Minute, date_text};
use cs_history::Run;
use cs_plan::{Plan, identifier_of, push_command_name};
use std::alloc::{AllocError, Global};

/// Adds the name of a job of the plan: `line 3` for a cron job, `job backup` for an anacron job;
/// nothing if there is no such job.
#[tactic(auto, using(crate::proofs::JobNames::of_cron, crate::proofs::JobNames::of_anacron, crate::proofs::JobNames::of_none))]
pub fn push_job_name(
    alloc: Global,
    text: &mut Vec<u8>,
    plan: &Plan,
    job: usize,
) -> Result<(), AllocError>
    ensures { OnOk result (text.new.items ≡ text.old.items ++ job_name plan.now job) }
{
    if job < plan.crons() {
        return push_command_name(alloc, text, plan, job);
    }
    if job - plan.crons() >= plan.anacrontab().lines().len() {
        return Ok(());
    }
    text.extend_from_slice(b"job ")?;
    text.extend_from_slice(identifier_of(plan, job))
}

/// Adds what the names of a job's runs begin with: `line 3 due ` for a cron job, `job backup at `
/// for an anacron job; nothing if there is no such job.
#[tactic(auto, using(crate::proofs::JobNames::due, crate::proofs::JobNames::at, crate::proofs::JobNames::of_no_run))]
pub fn push_job_front(
    alloc: Global,
    text: &mut Vec<u8>,
    plan: &Plan,
    job: usize,
) -> Result<(), AllocError>
    ensures { OnOk result (text.new.items ≡ text.old.items ++ job_front plan.now job) }
{
    push_job_name(alloc, text, plan, job)?;
    if job < plan.crons() {
        return text.extend_from_slice(b" due ");
    }
    if job - plan.crons() >= plan.anacrontab().lines().len() {
        return Ok(());
    }
    text.extend_from_slice(b" at ")
}

/// Nothing if the minute isn't from 1970-01-02 to 9999-12-31.
fn push_minute(text: &mut Vec<u8>, at: u64) -> Result<(), AllocError>
    ensures { OnOk result (text.new.items ≡ text.old.items ++ minute_if_civil at) }
{
    match Minute::new(at) {
        Some(minute) => text.extend_from_slice(&date_text(minute)),
        None => Ok(()),
    }
}

/// Adds the name of a run, such as `line 3 due 2024-09-13 23:30`: its job, and the minute in which
/// it was due or began.
#[tactic(auto, unfolding(crate::specs::Names::run_name))]
pub(crate) fn push_run_name(
    alloc: Global,
    text: &mut Vec<u8>,
    plan: &Plan,
    run: Run,
) -> Result<(), AllocError>
    ensures { OnOk result (text.new.items ≡ text.old.items ++ run_name plan.now run) }
{
    push_job_front(alloc, text, plan, usize::from(run.job))?;
    push_minute(text, run.at)
}
