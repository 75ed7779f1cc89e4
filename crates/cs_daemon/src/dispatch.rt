//! What the lock guards: the keep, and the starts in its journal that workers take.
ghost use Rattle.std.proofs.Props.{props};
ghost use Rattle.std.specs.Prelude.{◌≡◌, ◌⊎◌, ◌+◌, ◌<◌, ◌≤◌, ◌^◌, ◌∷◌, [], IfErr, IfNone, IfSome, OnOk, drop, length, option_map};
ghost use Rattle.cs_daemon.specs.Late.{late_lines};
ghost use Rattle.cs_daemon.specs.Rest.{IsAtRest, IsLeftIn};
ghost use Rattle.cs_daemon.specs.Stamps.{AreLeft};
ghost use Rattle.cs_daemon.specs.Starts.{IsCut, IsRound, IsTaken, desk, since_in, starts_in, with_end};
ghost use Rattle.cs_history.specs.declared.event.Event.TheVariants.{Down as GoesDown};
ghost use Rattle.cs_keep.specs.Keeping.{IsKept, cut_here, with_event};
ghost use Rattle.cs_keep.specs.Tick.{Ticks};
ghost use Rattle.cs_keep.specs.declared.tick.TickFault.TheVariants.{ClockBack};
ghost use Rattle.cs_plan.specs.Plan.{as_plan};

use crate::commands::Returned;
use crate::late::note_overruns;
use crate::notices::Notices;
use crate::plan_ledger::PlanLedger;
use crate::rest::is_at_rest;
use crate::stamps::{CoreStamps, stamps_of};
use cs_civil::Minute;
use cs_core::Core;
use cs_history::{Event, Going, Reply, Run};
use cs_jobs::LogLine;
use cs_keep::{Entry, Keep, Seat, TickFault};
use std::alloc::Global;
use std::marker::Model;
use std::sync::ledger::{Book, Ledger, Share};

/// A start that was taken from the journal, to be run. Only [`Dispatch::take`] makes one, and it
/// can be neither copied nor dropped.
pub(crate) struct Taken {
    going: Going,
}

impl Model for Taken {
    ghost use Rattle.cs_history.specs.declared.run.Going.{Going};

    ghost Value = { Going };

    ghost view = { λ a. a.going };
}

impl Taken {
    pub(crate) fn run(&self) -> Run
        ensures { result ≡ self.now.run }
    {
        self.going.run
    }

    pub(crate) fn into_going(self) -> Going
        ensures { result ≡ self }
    {
        let Taken { going } = self;
        going
    }
}

/// The keep, the index in its journal from which starts aren't taken yet, how many runs were found
/// late, whether no more starts will come, and the minute in which it went down at rest. The book
/// holds the present minute in proofs: only the clock's thread, which has its share, can go on to
/// another.
#[derive(Drop)]
pub(crate) struct Dispatch<J: PlanLedger, T: Ledger> {
    keep: Keep<J>,
    time: Book<T>,
    next: usize,
    overruns: u64,
    over: bool,
    rest: Option<Minute>,
    ghost plan: { keep.core.plan ≡ J.plan },
    ghost place: { next ≤ length keep.journal },
    ghost present: { time.total ≡ keep.core.state.now },
    ghost left: { IfSome rest (IsLeftIn keep) } by { Prim.hlevel props },
}

/// What is left to do outside the lock after a tick.
#[derive(Drop)]
pub(crate) struct Round {
    /// Why the tick ended early, if it did.
    pub(crate) ticked: Result<(), TickFault>,
    /// Whether a worker has a run to start.
    pub(crate) has_start: bool,
    pub(crate) notices: Notices,
    pub(crate) stamps: CoreStamps,
}

impl<J: PlanLedger, T: Ledger> Dispatch<J, T> {
    pub(crate) fn new(keep: Keep<J>, time: Book<T>) -> Dispatch<J, T>
        requires plan { keep.core.plan ≡ J.plan }
        requires time { time.total ≡ keep.core.state.now }
    {
        Dispatch {
            keep,
            time,
            next: 0,
            overruns: 0,
            over: false,
            rest: None,
        }
    }

    pub(crate) fn now(&self) -> Minute {
        self.keep.core().now()
    }

    pub(crate) fn is_at_rest(&self) -> bool {
        is_at_rest(self.keep.core())
    }

    pub(crate) fn has_ended(&self) -> bool {
        self.keep.core().running().is_empty()
    }

    pub(crate) fn late(&mut self, alloc: Global, last: Minute, minute: Minute) -> Notices
        ensures keep { self.new.keep ≡ self.old.keep }
        ensures next { self.new.next ≡ self.old.next }
        ensures lines { result.lost ≡ 0 → result.lines.items ≡ late_lines
            (as_plan self.old.keep.core.plan) last minute self.old.keep.core.state.running }
    {
        let mut notices = Notices::none(alloc);
        let late = note_overruns(self.keep.core(), &mut notices, last, minute);
        self.overruns = self.overruns.saturating_add(late);
        notices
    }

    pub(crate) fn is_waiting(&self) -> bool {
        !self.over && self.next >= self.keep.journal().len()
    }

    pub(crate) fn take(&mut self) -> Option<Taken>
        ensures taken { IsTaken
            (desk self.old.keep self.old.next)
            (option_map (λ taken. taken.run) result)
            (desk self.new.keep self.new.next) }
        ensures since { IfSome result (λ taken. taken.since
            ≡ since_in self.old.keep.core.state.running taken.run) }
        ensures keep { self.new.keep ≡ self.old.keep }
    {
        match next_start(self.keep.journal(), self.next) {
            Some((place, run)) => {
                self.next = place + 1;
                let since = since_of(self.keep.core(), run);
                Some(Taken {
                    going: Going { run, since },
                })
            }
            None => {
                self.next = self.keep.journal().len();
                None
            }
        }
    }

    /// No other end is made. It is refused only where the run doesn't go on.
    #[tactic(auto, using(crate::proofs::Ending::ends))]
    pub(crate) fn end(&mut self, seat: &mut Seat<J>, returned: Returned)
        ensures keep { self.new.keep ≡ with_end self.old.keep returned }
        ensures next { self.new.next ≡ self.old.next }
        ensures grows { seat.old.share ≤ seat.new.share }
        ensures one { seat.new.share ≤ seat.old.share + 1 }
        ensures parts { seat.new.parts ≡ seat.old.parts }
    {
        let _ = self.keep.step(seat, Event::End(returned.into_run()));
    }

    /// Goes down, if that isn't refused. No more starts come then; those in the journal may be
    /// taken.
    pub(crate) fn go_down(&mut self, seat: &mut Seat<J>)
        ensures keep { (self.new.keep ≡ with_event self.old.keep GoesDown)
            ⊎ (self.new.keep ≡ self.old.keep) }
        ensures next { self.new.next ≡ self.old.next }
        ensures grows { seat.old.share ≤ seat.new.share }
        ensures parts { seat.new.parts ≡ seat.old.parts }
        ensures fits { seat.new.share < 2 ^ 64 }
    {
        let rest = self.minute_of_rest();
        let _ = self.keep.step(seat, Event::Down);
        self.rest = rest;
        self.over = true;
        self.keep.audit(seat);
    }

    fn minute_of_rest(&self) -> Option<Minute>
        ensures kept { IsKept self.now.keep }
        ensures rest { IfSome result (λ m. IsAtRest self.now.keep.core.state
            × (self.now.keep.core.state.now ≡ m)) }
    {
        let core = self.keep.core();
        if is_at_rest(core) {
            Some(core.now())
        } else {
            None
        }
    }

    /// Goes on to the minute, notes what to log, and cuts the journal if that may be.
    pub(crate) fn round(
        &mut self,
        alloc: Global,
        seat: &mut Seat<J>,
        time: &mut Share<T>,
        last: Minute,
        minute: Minute,
    ) -> Round
        requires whole { time.old.parts ≡ T.parts }
        requires last { time.old.amount ≡ last }
        ensures whole { time.new.parts ≡ T.parts }
        ensures now { OnOk result.ticked (time.new.amount ≡ minute) }
        ensures back { IfErr result.ticked (λ fault. fault ≡ ClockBack → minute < last) }
        ensures round { IsRound (self.old.keep, seat.old) self.old.next last minute result.ticked
            (self.new.keep, seat.new) self.new.next }
        ensures stamps { result.stamps ≡ self.new.keep.core.state.stamps }
        ensures left { AreLeft J.plan result.stamps }
        ensures rises { OnOk result.ticked (last < minute → seat.old.share < seat.new.share) }
        ensures grows { seat.old.share ≤ seat.new.share }
        ensures parts { seat.new.parts ≡ seat.old.parts }
    {
        let from = self.keep.journal().len();
        let ticked = self.tick(seat, time, last, minute);
        let mut notices = Notices::none(alloc);
        note_replies(self.keep.journal(), &mut notices, from, last);
        let late = note_overruns(self.keep.core(), &mut notices, last, minute);
        self.overruns = self.overruns.saturating_add(late);
        let has_start = next_start(self.keep.journal(), from).is_some();
        let stamps = stamps_of(&self.keep);
        self.cut();
        Round {
            ticked,
            has_start,
            notices,
            stamps,
        }
    }

    #[tactic(auto, using(crate::proofs::Ticking::ticks_place, crate::proofs::Ticking::ticks_back))]
    fn tick(
        &mut self,
        seat: &mut Seat<J>,
        time: &mut Share<T>,
        last: Minute,
        minute: Minute,
    ) -> Result<(), TickFault>
        requires whole { time.old.parts ≡ T.parts }
        requires last { time.old.amount ≡ last }
        ensures whole { time.new.parts ≡ T.parts }
        ensures now { OnOk result (time.new.amount ≡ minute) }
        ensures back { IfErr result (λ fault. fault ≡ ClockBack → minute < last) }
        ensures ticks { Ticks (self.old.keep, seat.old) last minute result
            (self.new.keep, seat.new) }
        ensures next { self.new.next ≡ self.old.next }
        ensures rises { OnOk result (last < minute → seat.old.share < seat.new.share) }
        ensures grows { seat.old.share ≤ seat.new.share }
        ensures parts { seat.new.parts ≡ seat.old.parts }
    {
        self.rest = None;
        self.time.audit(time);
        let ticked = self.keep.tick(seat, last, minute);
        self.time.sub(time, last.number());
        self.time.add(time, self.keep.core().now().number());
        ticked
    }

    /// Starts a new journal, so that it doesn't fill up; only where each start was taken.
    fn cut(&mut self)
        ensures desk { IsCut
            (desk self.old.keep self.old.next)
            (desk self.new.keep self.new.next) }
        ensures keep { (self.new.keep ≡ cut_here self.old.keep)
            ⊎ (self.new.keep ≡ self.old.keep) }
    {
        if next_start(self.keep.journal(), self.next).is_some() {
            return;
        }
        self.rest = None;
        if self.keep.cut() {
            self.next = 0;
        }
    }

    /// Shows that the seat's share is a number of 64 bits.
    pub(crate) fn audit(&mut self, seat: &mut Seat<J>)
        ensures seat { seat.new ≡ seat.old }
        ensures fits { seat.old.share < 2 ^ 64 }
    {
        self.keep.audit(seat)
    }

    pub(crate) fn into_parts(self) -> (Keep<J>, u64, Option<Minute>)
        ensures plan { result.0.core.plan ≡ J.plan }
        ensures left { IfSome result.2 (IsLeftIn result.0) }
    {
        let Dispatch {
            keep,
            time: _,
            next: _,
            overruns,
            over: _,
            rest,
        } = self;
        (keep, overruns, rest)
    }
}

fn since_of(core: &Core, run: Run) -> u64
    ensures { result ≡ since_in core.now.state.running run }
{
    match core.running().since(run) {
        Some(since) => since,
        None => run.at,
    }
}

/// The first start at an index or after it, with its own index.
#[tactic(auto, using(crate::proofs::Taking::start_at, crate::proofs::Taking::no_start_at))]
fn next_start(journal: &[Entry], from: usize) -> Option<(usize, Run)>
    ensures some { IfSome result (λ found. (found.0 < length journal.now)
        × (starts_in (drop from journal.now)
        ≡ found.1 ∷ starts_in (drop (found.0 + 1) journal.now))) }
    ensures none { IfNone result (starts_in (drop from journal.now) ≡ []) }
{
    for place in from..journal.len() {
        if let Reply::Started(run) = journal[place].reply() {
            return Some((place, run));
        }
    }
    None
}

/// Notes which runs wait or are skipped, by the entries from an index on; before them it is minute
/// `last`.
fn note_replies(journal: &[Entry], notices: &mut Notices, from: usize, last: Minute) {
    let mut at = last.number();
    for place in from..journal.len() {
        let entry = &journal[place];
        match entry.event() {
            Event::Minute(minute) => at = minute,
            Event::Up(minute) => at = minute,
            Event::Begin(job) => note_reply(notices, entry.reply(), Run { job, at }),
            _ => {}
        }
    }
}

fn note_reply(notices: &mut Notices, reply: Reply, run: Run) {
    match reply {
        Reply::Waiting => notices.add(LogLine::Waiting(run)),
        Reply::Skipped => notices.add(LogLine::Skipped(run)),
        _ => {}
    }
}
