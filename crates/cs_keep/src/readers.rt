//! Reads a closed keep.
ghost use Rattle.std.specs.Prelude.{◌≡◌};
ghost use Rattle.cs_check.specs.Checked.{plan_in};
ghost use Rattle.cs_keep.specs.Closed.{checked_in, keeping_in};
ghost use Rattle.cs_keep.specs.Keeping.{IsFewInTime, IsKept, IsSafeInTime};

use crate::entry::Entry;
use crate::kept::Kept;
use cs_check::Checked;
use cs_core::Core;
use cs_history::Start;

impl Kept {
    /// Returns the events since the base with their replies, the latest last.
    pub fn journal(&self) -> &[Entry]
        ensures value { result.now ≡ (keeping_in self.now).journal }
        // It is a legal history of what was checked, and ends in the core's state.
        ensures kept { IsKept (keeping_in self.now) }
    {
        self.journaled.journal()
    }

    /// Returns the start from which the journal goes on.
    pub fn base(&self) -> &Start
        ensures { result.now ≡ (keeping_in self.now).base }
    {
        self.journaled.base()
    }

    /// Returns how many events were accepted since the keep was opened.
    pub fn total(&self) -> u64
        ensures { result ≡ (keeping_in self.now).total }
    {
        self.journaled.total()
    }

    /// Returns the event core.
    pub fn core(&self) -> &Core
        ensures value { result.now ≡ (keeping_in self.now).core }
        // It is in the state in which the journal ends.
        ensures kept { IsKept (keeping_in self.now) }
        // If each run has ended within its declared time, the journal is safe, and no more runs are
        // running than the capacity.
        ensures safe { IsSafeInTime (keeping_in self.now) }
        ensures few { IsFewInTime (keeping_in self.now) }
    {
        self.journaled.core()
    }

    /// Returns what was checked, with the core's plan.
    pub fn checked(&self) -> &Checked
        ensures value { result.now ≡ checked_in self.now }
        ensures plan { plan_in result.now ≡ (keeping_in self.now).core.plan }
    {
        &self.checked
    }
}
