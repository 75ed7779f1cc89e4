//! An event core with its journal, which replays to it.
ghost use Rattle.std.specs.Prelude.{◌≡◌, ◌↔◌, ◌≤◌, IfErr, IfOk, IsTrue, None, OnErr, OnOk, if◌then◌else◌, length};
ghost use Rattle.cs_check.specs.Checked.{plan_in};
ghost use Rattle.cs_history.specs.Plan.{first_start};
ghost use Rattle.cs_keep.specs.Keeping.{IsFewInTime, IsIdle, IsKept, IsRefused, IsSafeInTime, cut_here, opened, refusal_in, reply_in, with_event};

use crate::entry::Entry;
use crate::limits::MAX_ENTRIES;
use arrayvec::ArrayVec;
use cs_check::Checked;
use cs_civil::Day;
use cs_core::Core;
use cs_history::{Event, Refusal, Reply, Start, copy_stamps};
use std::alloc::{AllocError, Global};
use std::marker::Model;

/// An event core of a checked plan, and the journal that gives it when replayed from the base.
#[derive(Drop)]
pub(crate) struct JournaledCore {
    core: Core,
    journal: Vec<Entry>,
    base: Start,
    total: u64,
}

impl Model for JournaledCore {
    ghost use Rattle.cs_keep.specs.Keeping.{Keeping};

    ghost Value = { Keeping };

    ghost view = { λ a. record {
      base = a.base;
      journal = a.journal.items;
      total = a.total;
      core = a.core;
    } };

    ghost use Rattle.cs_keep.specs.Invariant.{Holds};

    ghost invariant = { Holds };
}

fn stamps_of(core: &Core) -> ArrayVec<Option<Day>, 64>
    requires { length core.now.state.stamps ≤ 64 }
    ensures { result.items ≡ core.now.state.stamps }
{
    copy_stamps(core.stamps())
}

impl JournaledCore {
    /// An empty journal from this start.
    pub(crate) fn open(
        alloc: Global,
        checked: &Checked,
        start: Start,
    ) -> Result<JournaledCore, AllocError>
        requires { first_start ≤ start.now }
        ensures { IfOk result (λ journaled. journaled ≡ opened (plan_in checked.now) start) }
    {
        let core = Core::open(alloc, checked.plan(), start.copy())?;
        checked.is_safe();
        let _minute = start.now();
        Ok(JournaledCore {
            core,
            journal: Vec::new(alloc),
            base: start,
            total: 0,
        })
    }

    /// The events since the base with their replies, the latest last.
    pub(crate) fn journal(&self) -> &[Entry]
        ensures value { result.now ≡ self.now.journal }
        ensures kept { IsKept self.now }
    {
        self.journal.as_slice()
    }

    pub(crate) fn base(&self) -> &Start
        ensures { result.now ≡ self.now.base }
    {
        &self.base
    }

    /// How many events were accepted since the opening.
    pub(crate) fn total(&self) -> u64
        ensures { result ≡ self.now.total }
    {
        self.total
    }

    pub(crate) fn core(&self) -> &Core
        ensures value { result.now ≡ self.now.core }
        ensures kept { IsKept self.now }
        ensures safe { IsSafeInTime self.now }
        ensures few { IsFewInTime self.now }
    {
        &self.core
    }

    pub(crate) fn step(&mut self, event: Event) -> Result<Reply, Refusal>
        ensures legal { OnOk result (refusal_in self.old event ≡ None) }
        ensures reply { IfOk result (λ r. r ≡ reply_in self.old event) }
        ensures event { OnOk result (self.new ≡ with_event self.old event) }
        ensures refused { IfErr result (IsRefused self.old event) }
        ensures same { OnErr result (self.new ≡ self.old) }
    {
        self.core.test(&event)?;
        let runs = self.core.runs_after(&event);
        let entries = self.journal.len();
        if runs >= MAX_ENTRIES - entries || self.total > u64::MAX - 1 - runs as u64 {
            return Err(Refusal::HistoryFull);
        }
        if self.journal.reserve(1 + runs).is_err() {
            return Err(Refusal::OutOfMemory);
        }
        let reply = self.core.step(event)?;
        let _ = self.journal.push(Entry::new(event, reply));
        self.total += 1;
        Ok(reply)
    }

    /// Starts a new journal at the present state; false if that isn't idle.
    pub(crate) fn cut(&mut self) -> bool
        ensures idle { IsTrue result ↔ IsIdle self.old.core.state }
        ensures cut { self.new ≡ (if result then cut_here self.old else self.old) }
    {
        if !self.is_idle() {
            return false;
        }
        let _jobs = self.core.plan().jobs();
        let stamps = stamps_of(&self.core);
        self.base = Start::new(self.core.now(), self.core.is_up(), stamps);
        self.journal.clear();
        true
    }

    fn is_idle(&self) -> bool
        ensures { IsTrue result ↔ IsIdle self.now.core.state }
    {
        self.core.pending().is_empty()
            && self.core.waiting().is_empty()
            && self.core.running().is_empty()
            && self.core.pass().is_none()
    }
}
