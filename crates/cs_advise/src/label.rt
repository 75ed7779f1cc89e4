ghost use Rattle.std.specs.Prelude.{◌≡◌, ◌++◌, OnOk};
ghost use Rattle.cs_advise.specs.Names.{job_label};

use cs_place::push_shown;
use cs_plan::{Plan, identifier_of, push_command_name};
use std::alloc::{AllocError, Global};

/// Adds `line N` of a cron job, `job ID` of an anacron job.
#[tactic(auto, unfolding(crate::specs::Names::job_label))]
pub(crate) fn push_label(
    alloc: Global,
    text: &mut Vec<u8>,
    plan: &Plan,
    job: u16,
) -> Result<(), AllocError>
    ensures { OnOk result (text.new.items ≡ text.old.items ++ job_label plan.now job) }
{
    let number = usize::from(job);
    if number < plan.crons() {
        return push_command_name(alloc, text, plan, number);
    }
    text.extend_from_slice(b"job ")?;
    push_shown(text, identifier_of(plan, number))
}
