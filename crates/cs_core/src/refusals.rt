ghost use Rattle.std.specs.Prelude.{◌≡◌, None};
ghost use Rattle.std.specs.List.{list_any};
ghost use Rattle.cs_plan.specs.Plan.{as_plan};
ghost use Rattle.cs_history.specs.History.{is_free, same_run};
ghost use Rattle.cs_history.specs.Step.{is_catchable, is_turn, is_settled, refusal};
ghost use Rattle.cs_history.specs.declared.event.Event.TheVariants as event;

use crate::event_core::Core;
use crate::lists::has_job;
use cs_civil::Minute;
use cs_history::{Event, Refusal, Run};

impl Core {
    /// The first refusal, except `OutOfMemory`.
    pub(crate) fn refusal(&self, event: &Event) -> Option<Refusal>
        ensures { result ≡ refusal (as_plan self.now.plan) self.now.state event.now }
    {
        match *event {
            Event::Minute(minute) => self.refusal_of_minute(minute),
            Event::Begin(job) => self.refusal_of_begin(job),
            Event::Got(job, due) => self.refusal_of_got(Run { job, at: due }),
            Event::Catch(job) => self.refusal_of_catch(job),
            Event::End(run) => self.refusal_of_end(run),
            Event::Down => self.refusal_of_down(),
            Event::Up(minute) => self.refusal_of_up(minute),
        }
    }

    fn refusal_of_minute(&self, minute: u64) -> Option<Refusal>
        ensures { result ≡ refusal (as_plan self.now.plan) self.now.state (event.Minute minute) }
    {
        if !self.up {
            return Some(Refusal::NotUp);
        }
        if Minute::new(minute).is_none() {
            return Some(Refusal::OutOfRange);
        }
        if minute != self.minute.number() + 1 {
            return Some(Refusal::WrongMinute);
        }
        if !self.is_settled() {
            return Some(Refusal::NotSettled);
        }
        None
    }

    fn is_settled(&self) -> bool
        ensures { result ≡ is_settled (as_plan self.now.plan) self.now.state }
    {
        self.due.is_empty() && !self.has_free_waiter()
    }

    fn has_free_waiter(&self) -> bool
        ensures { result ≡ list_any
            (λ w. is_free (as_plan self.now.plan) self.now.state.running w.job)
            self.now.state.waiting }
    {
        self.held.frees(&self.wanted)
    }

    fn refusal_of_begin(&self, job: u16) -> Option<Refusal>
        ensures { result ≡ refusal (as_plan self.now.plan) self.now.state (event.Begin job) }
    {
        if !self.up {
            return Some(Refusal::NotUp);
        }
        if !has_job(self.due.as_slice(), job) {
            return Some(Refusal::NotDue);
        }
        None
    }

    fn refusal_of_got(&self, run: Run) -> Option<Refusal>
        ensures { result
            ≡ refusal (as_plan self.now.plan) self.now.state (event.Got run.job run.at) }
    {
        if !self.up {
            return Some(Refusal::NotUp);
        }
        if !self.is_waiting(run) {
            return Some(Refusal::NotWaiting);
        }
        if !self.is_free(run.job) {
            return Some(Refusal::LockHeld);
        }
        None
    }

    fn is_waiting(&self, run: Run) -> bool
        ensures { result ≡ list_any (same_run run) self.now.state.waiting }
    {
        self.waiting.contains(run)
    }

    fn refusal_of_catch(&self, job: u16) -> Option<Refusal>
        ensures { result ≡ refusal (as_plan self.now.plan) self.now.state (event.Catch job) }
    {
        if !self.up {
            return Some(Refusal::NotUp);
        }
        if !self.is_catchable(job) {
            return Some(Refusal::NotCatchable);
        }
        None
    }

    fn is_catchable(&self, job: u16) -> bool
        ensures { result ≡ is_catchable (as_plan self.now.plan) self.now.state job }
    {
        let hours = self.rules.plan().hours();
        let minute_of_day = self.minute.minute_of_day();
        self.is_turn(job)
            && self.lone.is_none()
            && hours.from() <= minute_of_day
            && minute_of_day < hours.to()
    }

    fn is_turn(&self, job: u16) -> bool
        ensures { result
            ≡ is_turn (as_plan self.now.plan) self.now.state.now self.now.state.pass job }
    {
        match self.left.as_slice().first() {
            Some(next) => {
                *next == job
                    && self.begun.number() + u64::from(self.rules.delay(job))
                        <= self.minute.number()
            }
            None => false,
        }
    }

    fn refusal_of_end(&self, run: Run) -> Option<Refusal>
        ensures { result ≡ refusal (as_plan self.now.plan) self.now.state (event.End run) }
    {
        if !self.running.contains(run) {
            return Some(Refusal::NotRunning);
        }
        None
    }

    fn refusal_of_down(&self) -> Option<Refusal>
        ensures { result ≡ refusal (as_plan self.now.plan) self.now.state event.Down }
    {
        if !self.up {
            return Some(Refusal::NotUp);
        }
        None
    }

    fn refusal_of_up(&self, minute: u64) -> Option<Refusal>
        ensures { result ≡ refusal (as_plan self.now.plan) self.now.state (event.Up minute) }
    {
        if self.up {
            return Some(Refusal::AlreadyUp);
        }
        if Minute::new(minute).is_none() {
            return Some(Refusal::OutOfRange);
        }
        if minute < self.minute.number() {
            return Some(Refusal::WrongMinute);
        }
        None
    }
}
