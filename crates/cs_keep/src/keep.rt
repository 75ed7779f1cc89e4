//! A journal whose total is the sum of the seats' shares.
ghost use Rattle.std.specs.Prelude.{◌≡◌, ◌↔◌, ◌≤◌, ◌<◌, ◌^◌, IfErr, IfOk, IsTrue, None, OnErr, OnOk, if◌then◌else◌};
ghost use Rattle.cs_check.specs.Checked.{plan_in};
ghost use Rattle.cs_history.specs.Plan.{first_start};
ghost use Rattle.cs_keep.specs.Closed.{checked_in, keeping_in};
ghost use Rattle.cs_keep.specs.Keeping.{IsFewInTime, IsIdle, IsKept, IsRefused, IsSafeInTime, cut_here, opened, refusal_in, reply_in, with_event};
ghost use Rattle.cs_keep.specs.Seat.{all_parts, counted};

use crate::entry::Entry;
use crate::journaled_core::JournaledCore;
use crate::kept::Kept;
use crate::seat::Seat;
use cs_check::Checked;
use cs_core::Core;
use cs_history::{Event, Refusal, Reply, Start};
use std::alloc::{AllocError, Global};
use std::marker::Model;
use std::sync::ledger::{Blank, Book, Ledger};

/// An event core of a checked plan with the journal of its events, and the book of their total.
/// Threads may share it under a lock.
#[derive(Drop)]
pub struct Keep<L: Ledger> {
    journaled: JournaledCore,
    book: Book<L>,
}

impl<L: Ledger> Model for Keep<L> {
    ghost use Rattle.std.specs.Prelude.{◌≡◌};
    ghost use Rattle.cs_keep.specs.Keeping.{Keeping};

    ghost Value = { Keeping };

    ghost view = { λ a. a.journaled };

    ghost invariant = { λ a. a.book.total ≡ a.journaled.total };
}

impl<L: Ledger> Keep<L> {
    /// Opens a keep of a checked plan, which it copies, with an empty journal, and a seat with
    /// every part of the blank.
    pub fn open(
        alloc: Global,
        blank: Blank,
        parts: u64,
        checked: &Checked,
        start: Start,
    ) -> Result<(Keep<L>, Seat<L>), AllocError>
        requires name { blank.name ≡ L.name }
        requires all { blank.parts ≡ L.parts }
        requires parts { blank.parts ≡ parts }
        requires some { 0 < parts }
        requires start { first_start ≤ start.now }
        ensures keep { IfOk result (λ both. both.0 ≡ opened (plan_in checked.now) start) }
        ensures seat { IfOk result (λ both. both.1 ≡ all_parts L.parts) }
    {
        let journaled = JournaledCore::open(alloc, checked, start)?;
        let (book, mark) = blank.open::<L>();
        Ok((
            Keep { journaled, book },
            Seat {
                mark,
                parts,
                share: 0,
                seen: 0,
            },
        ))
    }

    /// Steps the core, writes the event and its reply into the journal, and counts it.
    ///
    /// err: the core's refusals first, then `HistoryFull`, then `OutOfMemory`; a refused event
    /// changes nothing. The journal keeps room for the end of each running run, so only the core
    /// refuses an end.
    pub fn step(&mut self, seat: &mut Seat<L>, event: Event) -> Result<Reply, Refusal>
        ensures legal { OnOk result (refusal_in self.old event ≡ None) }
        ensures reply { IfOk result (λ r. r ≡ reply_in self.old event) }
        ensures event { OnOk result (self.new ≡ with_event self.old event) }
        ensures seat { OnOk result (seat.new ≡ counted seat.old self.new.total) }
        ensures refused { IfErr result (IsRefused self.old event) }
        ensures same { OnErr result ((self.new ≡ self.old) × (seat.new ≡ seat.old)) }
        // If each run has ended within its declared time, the journal is safe, and no more runs are
        // running than the capacity.
        ensures safe { IsSafeInTime self.new }
        ensures few { IsFewInTime self.new }
    {
        let result = self.add(seat, event);
        let _core = self.journaled.core();
        result
    }

    fn add(&mut self, seat: &mut Seat<L>, event: Event) -> Result<Reply, Refusal>
        ensures legal { OnOk result (refusal_in self.old event ≡ None) }
        ensures reply { IfOk result (λ r. r ≡ reply_in self.old event) }
        ensures event { OnOk result (self.new ≡ with_event self.old event) }
        ensures seat { OnOk result (seat.new ≡ counted seat.old self.new.total) }
        ensures refused { IfErr result (IsRefused self.old event) }
        ensures same { OnErr result ((self.new ≡ self.old) × (seat.new ≡ seat.old)) }
    {
        let reply = self.journaled.step(event)?;
        self.book.add(&mut seat.mark, 1);
        seat.share = seat.share.saturating_add(1);
        seat.seen = self.journaled.total();
        Ok(reply)
    }

    /// Starts a new journal at the present state; false if something is pending, waits or runs, or
    /// a pass is open. The total stays.
    pub fn cut(&mut self) -> bool
        ensures idle { IsTrue result ↔ IsIdle self.old.core.state }
        ensures cut { self.new ≡ (if result then cut_here self.old else self.old) }
    {
        self.journaled.cut()
    }

    /// Lemma. The seat's share is at most the total, and with every part all of it: no step of any
    /// seat is missing or made up.
    pub fn audit(&mut self, seat: &mut Seat<L>)
        ensures keep { self.new ≡ self.old }
        ensures seat { seat.new ≡ seat.old }
        ensures bound { seat.old.share ≤ self.old.total }
        ensures whole { seat.old.parts ≡ L.parts → seat.old.share ≡ self.old.total }
        ensures fits { self.old.total < 2 ^ 64 }
    {
        self.book.audit(&mut seat.mark);
        let _total = self.journaled.total();
    }

    /// Returns the events since the base with their replies, the latest last.
    pub fn journal(&self) -> &[Entry]
        ensures value { result.now ≡ self.now.journal }
        // It is a legal history of the core's plan, and ends in the core's state.
        ensures kept { IsKept self.now }
    {
        self.journaled.journal()
    }

    /// Returns the start from which the journal goes on.
    pub fn base(&self) -> &Start
        ensures { result.now ≡ self.now.base }
    {
        self.journaled.base()
    }

    /// Returns how many events were accepted since the keep was opened.
    pub fn total(&self) -> u64
        ensures { result ≡ self.now.total }
    {
        self.journaled.total()
    }

    /// Returns the event core.
    pub fn core(&self) -> &Core
        ensures value { result.now ≡ self.now.core }
        // It is in the state in which the journal ends.
        ensures kept { IsKept self.now }
        // If each run has ended within its declared time, the journal is safe, and no more runs are
        // running than the capacity.
        ensures safe { IsSafeInTime self.now }
        ensures few { IsFewInTime self.now }
    {
        self.journaled.core()
    }

    /// Closes the keep: returns its journal and core with `checked`, the very value passed in.
    pub fn close(self, checked: Checked) -> Kept
        requires { plan_in checked ≡ self.core.plan }
        ensures checked { checked_in result ≡ checked }
        ensures keeping { keeping_in result ≡ self }
    {
        let Keep { journaled, book: _ } = self;
        Kept { checked, journaled }
    }
}
