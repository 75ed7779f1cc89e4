ghost use Rattle.std.specs.Prelude.{◌≡◌, ◌≤◌, true, IfOk, IfErr, OnOk, OnErr};
ghost use Rattle.cs_plan.specs.Plan.{as_plan};
ghost use Rattle.cs_history.specs.Plan.{first_start};
ghost use Rattle.cs_counterexample.specs.Trial.{IsTaken, Stops, any_over, break_at_start, fault_of, is_late, opening};

use crate::breaking::{break_by_reply, break_by_run, run_by};
use crate::deadline::{any_over, deadline_of, first_deadline};
use crate::shown::{NotShown, Shown};
use cs_core::Core;
use cs_history::{Event, Refusal, Run, Start};
use cs_plan::Plan;
use std::alloc::{AllocError, Global};
use std::marker::Model;

/// A history that is tried event by event, and what it broke first. Each of its events was legal,
/// and found no run that had passed its declared time.
///
/// Contracts see the plan, the state after the events, and what was broken first.
#[derive(Drop)]
pub struct Trial {
    core: Core,
    // No running run is over its declared time before this minute.
    deadline: u64,
    shown: Option<Shown>,
}

impl Model for Trial {
    ghost use Rattle.cs_plan.specs.Plan.{as_plan};
    ghost use Rattle.cs_counterexample.specs.Trial.{Tried, Watches};

    ghost Value = { Tried };

    ghost view = { λ t. record { plan = t.core.plan; state = t.core.state; shown = t.shown } };

    ghost invariant = { λ t.
        Watches (as_plan t.core.plan) t.deadline t.shown t.core.state.running };
}

fn fault_of(number: usize, refusal: Refusal) -> NotShown
    ensures { result ≡ fault_of number refusal }
{
    match refusal {
        Refusal::OutOfMemory => NotShown::OutOfMemory,
        _ => NotShown::Illegal(number, refusal),
    }
}

impl Trial {
    /// Opens a trial of a start at 1970-01-04 00:00 or later: nothing runs, and nothing is broken.
    /// It copies the plan. The only error is out of memory.
    pub fn open(alloc: Global, plan: &Plan, start: &Start) -> Result<Trial, AllocError>
        requires { first_start ≤ start.now.now }
        ensures { IfOk result (λ trial. trial ≡ opening plan.now start.now) }
    {
        Ok(Trial {
            core: Core::open(alloc, plan, start.copy())?,
            deadline: u64::MAX,
            shown: None,
        })
    }

    /// Returns what was broken first, if anything was.
    pub fn shown(&self) -> Option<Shown>
        ensures { result ≡ self.now.shown }
    {
        self.shown
    }

    /// Returns the core that has taken the events, whose state is that of the trial.
    pub fn core(&self) -> &Core
        ensures plan { result.now.plan ≡ self.now.plan }
        ensures state { result.now.state ≡ self.now.state }
    {
        &self.core
    }

    /// Takes an event. An event that isn't taken changes nothing.
    ///
    /// The error is, with the event's `number`, counted from 1, `Illegal` if it is refused, or
    /// `Late` if it is legal and finds a run that has passed its declared time; or `OutOfMemory` if
    /// memory runs out.
    ///
    /// Only what the event changes is checked: at a start the new run with those that run, and at a
    /// minute the deadline, from which on the runs are checked one by one.
    #[tactic(auto, using(crate::proofs::Breaks::shown_next, crate::proofs::Breaks::quiet_next, crate::proofs::Deadlines::deadline_next))]
    pub fn take(&mut self, event: Event, number: usize) -> Result<(), NotShown>
        ensures taken { OnOk result (IsTaken (as_plan self.old.plan) event self.old self.new) }
        ensures stops { IfErr result (Stops (as_plan self.old.plan) self.old.state event number) }
        ensures kept { OnErr result (self.new ≡ self.old) }
    {
        if self.is_late(&event) {
            return Err(self.late_fault(&event, number));
        }
        let now = self.core.now().number();
        let run = run_by(&event, now);
        let at_start = self.break_at_start(run);
        match self.core.step(event) {
            Err(refusal) => Err(fault_of(number, refusal)),
            Ok(reply) => {
                self.deadline = deadline_of(self.core.plan(), self.deadline, reply, now);
                let broken = break_by_reply(self.core.plan(), reply, run, at_start);
                self.shown = self.shown.or(broken);
                Ok(())
            }
        }
    }

    fn late_fault(&self, event: &Event, number: usize) -> NotShown
        requires { is_late (as_plan self.now.plan) self.now.state.running event.now ≡ true }
        ensures { Stops (as_plan self.now.plan) self.now.state event.now number result }
    {
        match self.core.test(event) {
            Err(refusal) => NotShown::Illegal(number, refusal),
            Ok(()) => NotShown::Late(number),
        }
    }

    #[tactic(auto, using(crate::proofs::Breaks::light))]
    fn break_at_start(&self, run: Option<Run>) -> Option<Shown>
        ensures { result ≡ break_at_start self.now run }
    {
        match (self.shown, run) {
            (None, Some(run)) => break_by_run(self.core.plan(), self.core.running(), run),
            (None, None) => None,
            (Some(_), _) => None,
        }
    }

    fn is_late(&mut self, event: &Event) -> bool
        ensures late { result ≡ is_late (as_plan self.old.plan) self.old.state.running event.now }
        ensures same { self.new ≡ self.old }
    {
        match *event {
            Event::Minute(minute) => self.is_late_at(minute),
            Event::Begin(_) => false,
            Event::Got(_, _) => false,
            Event::Catch(_) => false,
            Event::End(_) => false,
            Event::Down => false,
            Event::Up(minute) => self.is_late_at(minute),
        }
    }

    #[tactic(auto, using(crate::proofs::Deadlines::none_over))]
    fn is_late_at(&mut self, minute: u64) -> bool
        ensures over { result ≡ any_over (as_plan self.old.plan) self.old.state.running minute }
        ensures same { self.new ≡ self.old }
    {
        if minute < self.deadline {
            return false;
        }
        self.deadline = first_deadline(self.core.plan(), self.core.running());
        any_over(self.core.plan(), self.core.running(), minute)
    }
}
