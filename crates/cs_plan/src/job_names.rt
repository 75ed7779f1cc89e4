//! Names the jobs of a plan in a text.
ghost use Rattle.std.specs.Prelude.{◌≡◌, ◌++◌, OnOk};
ghost use Rattle.cs_plan.specs.JobNames.{command_name, due_name, identifier_of};

use crate::plan::Plan;
use cs_civil::push_number;
use std::alloc::{AllocError, Global};

/// Adds `line N`, the name of a cron job.
#[tactic(auto, unfolding(crate::specs::JobNames::command_name))]
pub fn push_command_name(
    alloc: Global,
    text: &mut Vec<u8>,
    plan: &Plan,
    job: usize,
) -> Result<(), AllocError>
    ensures { OnOk result (text.new.items ≡ text.old.items ++ command_name plan.now job) }
{
    let number = match plan.crontab().lines().get(job) {
        Some(line) => line.number(),
        None => 0,
    };
    text.extend_from_slice(b"line ")?;
    push_number(alloc, text, u128::from(number))
}

/// Adds `line N due `.
#[tactic(auto, unfolding(crate::specs::JobNames::due_name))]
pub fn push_due_name(
    alloc: Global,
    text: &mut Vec<u8>,
    plan: &Plan,
    job: usize,
) -> Result<(), AllocError>
    ensures { OnOk result (text.new.items ≡ text.old.items ++ due_name plan.now job) }
{
    push_command_name(alloc, text, plan, job)?;
    text.extend_from_slice(b" due ")
}

/// Returns the identifier of an anacron job; nothing if there is no such job.
pub fn identifier_of(plan: &Plan, job: usize) -> &[u8]
    ensures { result.now ≡ identifier_of plan.now job }
{
    match plan
        .anacrontab()
        .lines()
        .get(job.saturating_sub(plan.crons()))
    {
        Some(line) => line.identifier(),
        None => b"",
    }
}
