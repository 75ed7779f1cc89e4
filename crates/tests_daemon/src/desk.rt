//! A keep and a seat in one hand, for tests that read what they leave. Its calls promise little, so
//! that a test is cheap to prove call by call.
ghost use Rattle.std.specs.Prelude.{◌≡◌, ◌<◌, IfSome};
ghost use Rattle.cs_check.specs.Checked.{plan_in};

use crate::plans::{Texts, checked, start};
use cs_check::Checked;
use cs_civil::Minute;
use cs_history::{Event, Refusal, Reply};
use cs_keep::{Keep, Kept, Seat, TickFault};
use std::alloc::Global;
use std::process::Abort;
use std::sync::ledger::{Blank, Ledger};

#[derive(Drop)]
pub(crate) struct Desk<L: Ledger> {
    pub(crate) keep: Keep<L>,
    pub(crate) seat: Seat<L>,
}

/// The total, the length of the journal, and the seat's share.
pub(crate) type Counts = (u64, usize, u64);

impl<L: Ledger> Desk<L> {
    /// A keep that starts at 2024-01-01 00:59, and a seat with all of its parts.
    pub(crate) fn open(
        alloc: Global,
        blank: Blank,
        parts: u64,
        checked: &Checked,
        up: bool,
    ) -> Option<Desk<L>>
        requires name { blank.name ≡ L.name }
        requires all { blank.parts ≡ L.parts }
        requires parts { blank.parts ≡ parts }
        requires some { 0 < parts }
        ensures { IfSome result (λ desk. desk.keep.core.plan ≡ plan_in checked.now) }
    {
        match Keep::open(alloc, blank, parts, checked, start(up)?) {
            Ok((keep, seat)) => Some(Desk { keep, seat }),
            Err(_) => None,
        }
    }

    /// The same for a plan that is checked here.
    pub(crate) fn of<R: Abort>(
        rt: &R,
        alloc: Global,
        blank: Blank,
        parts: u64,
        texts: &Texts,
        up: bool,
    ) -> Desk<L>
        requires name { blank.name ≡ L.name }
        requires all { blank.parts ≡ L.parts }
        requires parts { blank.parts ≡ parts }
        requires some { 0 < parts }
    {
        let checked = checked(rt, alloc, texts);
        let opened: Option<Desk<L>> = Desk::open(alloc, blank, parts, &checked, up);
        drop(checked);
        opened.expect(rt, "memory")
    }

    pub(crate) fn step(&mut self, event: Event) -> Result<Reply, Refusal>
        ensures { self.new.keep.core.plan ≡ self.old.keep.core.plan }
    {
        self.keep.step(&mut self.seat, event)
    }

    pub(crate) fn tick(&mut self, last: Minute, minute: Minute) -> Result<(), TickFault> {
        self.keep.tick(&mut self.seat, last, minute)
    }

    pub(crate) fn cut(&mut self) -> bool {
        self.keep.cut()
    }

    pub(crate) fn total(&self) -> u64 {
        self.keep.total()
    }

    pub(crate) fn counts(&self) -> Counts {
        (self.total(), self.keep.journal().len(), self.seat.share())
    }

    pub(crate) fn now(&self) -> Minute {
        self.keep.core().now()
    }

    pub(crate) fn place(&self) -> (Counts, u64) {
        (self.counts(), self.now().number())
    }

    pub(crate) fn running(&self) -> usize {
        self.keep.core().running().len()
    }

    /// The minute from which the journal goes on, and whether the daemon was up.
    pub(crate) fn base(&self) -> (u64, bool) {
        let base = self.keep.base();
        (base.now().number(), base.is_up())
    }

    /// Whether the journal has just these events from this index on.
    pub(crate) fn ends_with(&self, from: usize, events: &[Event]) -> bool {
        let journal = self.keep.journal();
        if from > journal.len() || journal.len() - from != events.len() {
            return false;
        }
        for place in 0..events.len() {
            if journal[from + place].event() != events[place] {
                return false;
            }
        }
        true
    }

    pub(crate) fn close(self, checked: Checked) -> Kept
        requires { plan_in checked ≡ self.keep.core.plan }
    {
        let Desk { keep, seat: _ } = self;
        keep.close(checked)
    }
}
