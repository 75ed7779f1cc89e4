//! The events of a minute.
ghost use Rattle.std.specs.Prelude.{◌≡◌, ◌≤◌, ◌<◌, ◌+◌, OnOk, None, true, false, [], ◌∷◌};
ghost use Rattle.cs_history.specs.Plan.{IsCivil};
ghost use Rattle.cs_history.specs.Step.{refusal};
ghost use Rattle.cs_history.specs.declared.event.Event.TheVariants as event;
ghost use Rattle.cs_keep.specs.Keeping.{plan_of};
ghost use Rattle.cs_keep.specs.Tick.{Makes, Ticks, advancing, choosing, coming, moving_on, next_of, settling_catching, skipping, tick_events};

use crate::keep::Keep;
use crate::next::{next_to_catch, next_to_settle};
use crate::seat::Seat;
use cs_civil::Minute;
use cs_history::{Event, Refusal};
use std::sync::ledger::Ledger;

/// Why a tick ended early.
#[derive(Clone, Copy, PartialEq, Eq)]
pub enum TickFault {
    /// `last` is not the present minute, or the new minute is before it.
    ClockBack,
    /// The journal has no room for the next event.
    HistoryFull,
    /// Memory ran out.
    OutOfMemory,
}

/// Events that are chosen one after another.
#[derive(Clone, Copy)]
pub(crate) enum Kind {
    /// Begin and Got.
    Settling,
    /// Catch.
    Catching,
}

impl<L: Ledger> Keep<L> {
    /// Goes on to a minute. A core that is down comes up in it. One that is up settles, moves on to
    /// the next minute and settles again; to a later minute it goes down and comes up. In the end
    /// each catch-up run that may start does. Settling makes the first Begin or Got of the choices
    /// until there is none.
    ///
    /// `last` is the present minute. err: `ClockBack` changes nothing; if the journal is full or
    /// memory runs out, the events made stay.
    pub fn tick(
        &mut self,
        seat: &mut Seat<L>,
        last: Minute,
        minute: Minute,
    ) -> Result<(), TickFault>
        ensures ticks { Ticks (self.old, seat.old) last minute result (self.new, seat.new) }
        ensures now { OnOk result (self.new.core.state.now ≡ minute) }
        // A later minute brings at least one event, whatever is due.
        ensures rises { OnOk result (last < minute → seat.old.share < seat.new.share) }
        ensures grows { seat.old.share ≤ seat.new.share }
        ensures parts { seat.new.parts ≡ seat.old.parts }
        ensures plan { self.new.core.plan ≡ self.old.core.plan }
    {
        self.tick_unless_back(seat, last, minute)
    }

    fn tick_unless_back(
        &mut self,
        seat: &mut Seat<L>,
        last: Minute,
        minute: Minute,
    ) -> Result<(), TickFault>
        ensures { Ticks (self.old, seat.old) last minute result (self.new, seat.new) }
    {
        if self.core().now().number() != last.number() || minute.number() < last.number() {
            return Err(TickFault::ClockBack);
        }
        if let Err(fault) = self.go_on(seat, minute) {
            return Err(fault);
        }
        Ok(())
    }

    fn go_on(&mut self, seat: &mut Seat<L>, minute: Minute) -> Result<(), TickFault>
        requires { self.old.core.state.now ≤ minute }
        ensures { Makes (tick_events minute) (self.old, seat.old) result (self.new, seat.new) }
    {
        let core = self.core();
        let (up, present) = (core.is_up(), core.now().number());
        let number = minute.number();
        if !up {
            return self.come(seat, number);
        }
        if number == present {
            return self.settle_and_catch_up(seat);
        }
        if number == present + 1 {
            return self.move_on(seat, number);
        }
        self.skip(seat, number)
    }

    fn skip(&mut self, seat: &mut Seat<L>, minute: u64) -> Result<(), TickFault>
        requires up { self.old.core.state.up ≡ true }
        requires civil { IsCivil minute }
        requires later { self.old.core.state.now ≤ minute }
        ensures { Makes (skipping minute) (self.old, seat.old) result (self.new, seat.new) }
    {
        if let Err(fault) = self.make(seat, Event::Down) {
            return Err(fault);
        }
        self.come(seat, minute)
    }

    fn come(&mut self, seat: &mut Seat<L>, minute: u64) -> Result<(), TickFault>
        requires down { self.old.core.state.up ≡ false }
        requires civil { IsCivil minute }
        requires later { self.old.core.state.now ≤ minute }
        ensures { Makes (coming minute) (self.old, seat.old) result (self.new, seat.new) }
    {
        if let Err(fault) = self.make(seat, Event::Up(minute)) {
            return Err(fault);
        }
        self.choose(seat, Kind::Catching)
    }

    fn move_on(&mut self, seat: &mut Seat<L>, minute: u64) -> Result<(), TickFault>
        requires up { self.old.core.state.up ≡ true }
        requires civil { IsCivil minute }
        requires next { minute ≡ self.old.core.state.now + 1 }
        requires present { IsCivil self.old.core.state.now }
        ensures { Makes (moving_on minute) (self.old, seat.old) result (self.new, seat.new) }
    {
        if let Err(fault) = self.choose(seat, Kind::Settling) {
            return Err(fault);
        }
        self.advance(seat, minute)
    }

    fn advance(&mut self, seat: &mut Seat<L>, minute: u64) -> Result<(), TickFault>
        requires { refusal (plan_of self.old) self.old.core.state (event.Minute minute) ≡ None }
        ensures { Makes (advancing minute) (self.old, seat.old) result (self.new, seat.new) }
    {
        if let Err(fault) = self.make(seat, Event::Minute(minute)) {
            return Err(fault);
        }
        self.settle_and_catch_up(seat)
    }

    fn settle_and_catch_up(&mut self, seat: &mut Seat<L>) -> Result<(), TickFault>
        ensures { Makes settling_catching (self.old, seat.old) result (self.new, seat.new) }
    {
        if let Err(fault) = self.choose(seat, Kind::Settling) {
            return Err(fault);
        }
        self.choose(seat, Kind::Catching)
    }

    /// Makes the first choice of the kind until there is none.
    fn choose(&mut self, seat: &mut Seat<L>, kind: Kind) -> Result<(), TickFault>
        ensures { Makes (choosing kind) (self.old, seat.old) result (self.new, seat.new) }
    {
        loop {
            let Some(event) = self.next(kind) else {
                return Ok(());
            };
            if let Err(fault) = self.make(seat, event) {
                return Err(fault);
            }
        }
    }

    fn next(&self, kind: Kind) -> Option<Event>
        ensures { result ≡ next_of kind (plan_of self.now) self.now.core.state }
    {
        match kind {
            Kind::Settling => next_to_settle(self.core()),
            Kind::Catching => next_to_catch(self.core()),
        }
    }

    /// Makes an event that the core does not refuse.
    fn make(&mut self, seat: &mut Seat<L>, event: Event) -> Result<(), TickFault>
        requires { refusal (plan_of self.old) self.old.core.state event ≡ None }
        ensures { Makes (λ p s. event ∷ []) (self.old, seat.old) result (self.new, seat.new) }
    {
        match self.step(seat, event) {
            Ok(_) => Ok(()),
            Err(Refusal::HistoryFull) => Err(TickFault::HistoryFull),
            Err(_) => Err(TickFault::OutOfMemory),
        }
    }
}
