ghost use Rattle.std.specs.Prelude.{◌≡◌, ◌<◌, ◌^◌, ◌↔◌, ◌++◌, ◌∷◌, [], IsTrue, OnErr, OnOk, false, true, find, length, option_map};
ghost use Rattle.cs_history.specs.History.{same_run};
ghost use Rattle.cs_roster.specs.Roster.{has, others};

use crate::runs::Runs;
use cs_history::{Going, Run};
use indexmap::IndexMap;
use std::alloc::{AllocError, Global};
use std::marker::Model;

/// Runs by name, each with its minute, in the order in which they came. A run that leaves is
/// marked, and marked runs are swept out once they are more than the others. So each call takes the
/// same time on average, however many runs there are.
#[derive(Drop)]
pub struct Roster {
    entries: IndexMap<Run, Option<u64>>,
    gone: usize,
}

impl Model for Roster {
    ghost use Rattle.std.specs.Prelude.{List};
    ghost use Rattle.cs_history.specs.declared.run.Going.{Going};
    ghost use Rattle.cs_roster.specs.Roster.{AreKept, still};

    ghost Value = { List Going };

    ghost view = { λ r. still r.entries.entries };

    ghost invariant = { λ r. AreKept r.entries.entries r.gone };
}

impl Roster {
    /// Returns an empty roster, without allocating.
    pub fn new(alloc: Global) -> Roster
        ensures { result ≡ [] }
    {
        Roster {
            entries: IndexMap::new(alloc),
            gone: 0,
        }
    }

    /// Returns the number of runs.
    pub fn len(&self) -> usize
        ensures value { result ≡ length self.now }
        ensures small { result < 2 ^ 63 }
    {
        self.entries.len() - self.gone
    }

    /// Whether there are no runs.
    #[tactic(auto, using(crate::proofs::Marks::none_counted, crate::proofs::Marks::some_counted))]
    pub fn is_empty(&self) -> bool
        ensures { IsTrue result ↔ (self.now ≡ []) }
    {
        self.len() == 0
    }

    /// Whether there is a run of this name.
    pub fn contains(&self, run: Run) -> bool
        ensures { result ≡ has self.now run }
    {
        match self.entries.get(&run) {
            Some(since) => since.is_some(),
            None => false,
        }
    }

    /// Returns the minute of the run of this name.
    pub fn since(&self, run: Run) -> Option<u64>
        ensures { result ≡ option_map (λ x. x.since) (find (λ x. same_run run x.run) self.now) }
    {
        match self.entries.get(&run) {
            Some(since) => *since,
            None => None,
        }
    }

    /// Adds a run at the end.
    pub fn push(&mut self, going: Going) -> Result<(), AllocError>
        requires { has self.old going.run ≡ false }
        ensures more { OnOk result (self.new ≡ self.old ++ going ∷ []) }
        ensures same { OnErr result (self.new ≡ self.old) }
        ensures small { length self.old < 2 ^ 63 }
    {
        let here = self.len();
        // one of this name may have left
        self.entries.shift_remove(&going.run);
        self.gone = self.entries.len() - here;
        self.entries.insert(going.run, Some(going.since))?;
        Ok(())
    }

    /// Removes the run of this name.
    #[tactic(auto, using(crate::proofs::Marks::nothing_to_remove))]
    pub fn remove(&mut self, run: Run)
        ensures { self.new ≡ others self.old run }
    {
        if self.contains(run) {
            self.mark(run);
            self.sweep();
        }
    }

    fn mark(&mut self, run: Run)
        requires { has self.old run ≡ true }
        ensures { self.new ≡ others self.old run }
    {
        let here = self.len() - 1;
        match self.entries.insert(run, None) {
            Ok(_) => self.gone = self.entries.len() - here,
            // a name that is there needs no room
            Err(_) => {}
        }
    }

    /// Sweeps out the runs that have left, once they are more than the others.
    fn sweep(&mut self)
        ensures { self.new ≡ self.old }
    {
        if self.gone > self.entries.len() / 2 {
            self.entries.retain(|_, since| since.is_some());
            self.gone = 0;
        }
    }

    /// Removes all runs.
    pub fn clear(&mut self)
        ensures { self.new ≡ [] }
    {
        self.entries.clear();
        self.gone = 0;
    }

    /// Returns the runs, in the order in which they came.
    pub fn iter(&self) -> Runs<'_>
        ensures { result ≡ self.now }
    {
        Runs {
            entries: self.entries.iter(),
        }
    }
}
