//! Runs the commands of jobs.
ghost use Rattle.std.specs.Prelude.{◌≡◌};
ghost use Rattle.cs_daemon.specs.Carried.{CarriesOut};

use crate::dispatch::Taken;
use cs_device::{Outcome, Runner};
use cs_history::Run;
use cs_jobs::run_command;
use cs_owner::Owner;
use cs_plan::Plan;
use std::alloc::Global;
use std::marker::Model;

/// A run whose command has returned, or couldn't be started. Only [`carry_out`] makes one, and it
/// can be neither copied nor dropped.
pub(crate) struct Returned {
    run: Run,
}

impl Model for Returned {
    ghost use Rattle.cs_history.specs.declared.run.Run.{Run};

    ghost Value = { Run };

    ghost view = { λ a. a.run };
}

impl Returned {
    pub(crate) fn into_run(self) -> Run
        ensures { result ≡ self }
    {
        let Returned { run } = self;
        run
    }
}

/// Runs the command of a start and waits for its end. If memory runs out it isn't started.
pub(crate) fn carry_out<W: Runner>(
    alloc: Global,
    plan: &Plan,
    owners: &[Owner],
    runner: &mut W,
    taken: Taken,
) -> (Returned, Outcome)
    ensures run { result.0 ≡ taken.run }
    ensures runs { CarriesOut W.runs plan.now owners.now taken runner.old result.1 runner.new }
{
    let going = taken.into_going();
    let outcome = match run_command(alloc, plan, owners, runner, going) {
        Ok(outcome) => outcome,
        Err(_) => Outcome::NotStarted,
    };
    (Returned { run: going.run }, outcome)
}
