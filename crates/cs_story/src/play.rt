ghost use Rattle.std.specs.Prelude.{◌≤◌};
ghost use Rattle.cs_history.specs.Plan.{first_start};

use cs_civil::Sequence;
use cs_core::Core;
use cs_counterexample::{NotShown, Trial};
use cs_history::{Event, Start};
use cs_plan::Plan;
use std::alloc::{AllocError, Global};

/// How many events a story has at most.
const MAX_EVENTS: usize = 400_000;

/// Why a story goes no further.
#[derive(Drop)]
pub(crate) enum Ending {
    /// Something is broken.
    Broken,
    /// Its next event is refused, or comes when a run is over its declared time, or the story would
    /// be too long, or no looks are left.
    Stuck,
    /// Memory ran out.
    OutOfMemory,
}

impl From<AllocError> for Ending {
    fn from(_error: AllocError) -> Ending {
        Ending::OutOfMemory
    }
}

impl From<NotShown> for Ending {
    fn from(fault: NotShown) -> Ending {
        match fault {
            NotShown::Illegal(_, _) => Ending::Stuck,
            NotShown::Late(_) => Ending::Stuck,
            NotShown::NothingBroken => Ending::Stuck,
            NotShown::OutOfMemory => Ending::OutOfMemory,
        }
    }
}

/// The events of a story, each of which was tried.
#[derive(Drop)]
pub(crate) struct Play {
    pub trial: Trial,
    pub events: Sequence<Event>,
    /// How many looks are left.
    pub looks: u64,
    /// How often an event takes a look at all runs.
    pub rounds: u64,
}

impl Play {
    pub(crate) fn open(
        alloc: Global,
        plan: &Plan,
        start: &Start,
        looks: u64,
        rounds: u64,
    ) -> Result<Play, AllocError>
        requires { first_start ≤ start.now.now }
    {
        Ok(Play {
            trial: Trial::open(alloc, plan, start)?,
            events: Sequence::new(alloc),
            looks,
            rounds,
        })
    }

    pub(crate) fn core(&self) -> &Core {
        self.trial.core()
    }

    pub(crate) fn now(&self) -> u64 {
        self.core().now().number()
    }

    pub(crate) fn can(&self, event: Event) -> bool {
        self.core().test(&event).is_ok()
    }

    /// Takes an event, unless the story ends before it. The story ends with the event if something
    /// is broken. An event costs a look at it, and at each run.
    pub(crate) fn take(&mut self, event: Event) -> Result<(), Ending> {
        let number = self.events.len();
        let runs = self.core().running().len() as u64 + self.core().waiting().len() as u64;
        self.looks = self
            .looks
            .saturating_sub((runs + 1).saturating_mul(self.rounds));
        if number >= MAX_EVENTS || self.looks == 0 {
            return Err(Ending::Stuck);
        }
        self.trial.take(event, number + 1)?;
        self.events.push(event)?;
        match self.trial.shown() {
            Some(_) => Err(Ending::Broken),
            None => Ok(()),
        }
    }
}
