//! Workers, which run jobs and make the ends of their runs.
ghost use Rattle.std.specs.Prelude.{◌≡◌, ◌+◌, ◌<◌, ◌≤◌, ◌^◌, List, length};
ghost use Rattle.cs_daemon.specs.Carried.{CarriesOut, CarriesOutAll};
ghost use Rattle.cs_device.specs.declared.runner.Outcome as outcome;
ghost use Rattle.cs_history.specs.declared.run.Going as going;

use crate::commands::carry_out;
use crate::dispatch::Taken;
use crate::plan_ledger::PlanLedger;
use crate::shared::Shared;
use cs_device::{Gate, Outcome, Point, Runner};
use cs_jobs::LogLine;
use cs_keep::Seat;
use std::io;
use std::sync::Wait;
use std::sync::ledger::Ledger;

#[derive(Drop)]
pub(crate) struct WorkerEnd<J: PlanLedger> {
    pub(crate) seat: Seat<J>,
    pub(crate) not_started: u64,
    pub(crate) ghost one: { seat.parts ≡ 1 },
    pub(crate) ghost fits: { seat.share < 2 ^ 64 },
}

impl<'w, J: PlanLedger, T: Ledger, R: Wait, G: Gate, O: io::Write> Shared<'w, J, T, R, G, O> {
    /// Runs jobs until no more starts will come. It makes no more ends than commands that have
    /// returned.
    pub(crate) fn work<W: Runner>(&self, runner: &mut W, seat: Seat<J>) -> WorkerEnd<J>
        requires { seat.parts ≡ 1 }
        ensures { (runs : List (going.Going × outcome.Outcome))
            × CarriesOutAll W.runs self.now.plan.now self.now.owners runs runner.old runner.new
            × (result.seat.share ≤ seat.share + length runs) }
    {
        let mut seat = seat;
        let mut not_started: u64 = 0;
        for _ in self.rt.forever() {
            let Some(taken) = self.next() else {
                break;
            };
            if self.run_job(runner, &mut seat, taken) == Outcome::NotStarted {
                not_started = not_started.saturating_add(1);
            }
        }
        self.dispatch.lock(self.rt).audit(&mut seat);
        WorkerEnd { seat, not_started }
    }

    /// Runs the job between the gate's two points, outside the locks, and then makes its end.
    fn run_job<W: Runner>(&self, runner: &mut W, seat: &mut Seat<J>, taken: Taken) -> Outcome
        ensures runs { CarriesOut W.runs self.now.plan.now self.now.owners taken runner.old
            result runner.new }
        ensures one { seat.new.share ≤ seat.old.share + 1 }
        ensures parts { seat.new.parts ≡ seat.old.parts }
    {
        let run = taken.run();
        self.log.lock(self.rt).write(LogLine::Started(run));
        self.gate.pass(run, Point::Before);
        let (returned, outcome) = carry_out(
            self.alloc,
            self.plan,
            self.owners.as_slice(),
            runner,
            taken,
        );
        self.gate.pass(run, Point::After);
        self.dispatch.lock(self.rt).end(seat, returned);
        self.log.lock(self.rt).write(LogLine::Ended(run, outcome));
        outcome
    }
}
