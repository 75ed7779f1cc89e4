//! The clock's thread, which makes all events except the ends of runs.
ghost use Rattle.std.specs.Prelude.{◌≡◌, ◌+◌, ◌<◌, ◌≤◌, ◌^◌, Err, IfErr, IfSome, IsOk, List, OnOk, Option, Some, ℕ};
ghost use Rattle.cs_civil.specs.Calendar.{last_minute};
ghost use Rattle.cs_daemon.specs.Causes.{IsBack, IsFromTick, ended_by};
ghost use Rattle.cs_daemon.specs.Stamps.{AreLeft, AreWritten, HaveBeenWritten};
ghost use Rattle.cs_daemon.specs.declared.end.Cause.TheVariants.{Stopped, LastMinute, ClockBack, ClockFailed};
ghost use Rattle.cs_device.specs.declared.clock.Tick.TheVariants.{At, Stop};
ghost use Rattle.cs_keep.specs.declared.tick.TickFault.TheVariants.{ClockBack as TickBack};

use crate::dispatch::Round;
use crate::end::Cause;
use crate::notices::Notices;
use crate::plan_ledger::PlanLedger;
use crate::shared::Shared;
use crate::stamps::Stored;
use cs_civil::Minute;
use cs_device::{Clock, StampStore, Tick};
use cs_jobs::LogLine;
use cs_keep::{Seat, TickFault};
use std::io;
use std::sync::Wait;
use std::sync::ledger::{Ledger, Share};

#[derive(Drop)]
pub(crate) struct ClockEnd<J: PlanLedger> {
    pub(crate) cause: Cause,
    pub(crate) seat: Seat<J>,
    pub(crate) ghost fits: { seat.share < 2 ^ 64 },
}

impl<'w, J: PlanLedger, T: Ledger, R: Wait, G, O: io::Write> Shared<'w, J, T, R, G, O> {
    /// Follows the clock from its first minute to the end, goes down, and sees the last runs end.
    /// Without a first minute it makes no event.
    #[tactic(auto, using(crate::proofs::Storing::none_written))]
    pub(crate) fn lead<C: Clock, S: StampStore>(
        &self,
        clock: &mut C,
        store: &mut S,
        stored: &mut Stored,
        seat: Seat<J>,
        time: Share<T>,
        first: Option<Minute>,
    ) -> ClockEnd<J>
        requires whole { time.parts ≡ T.parts }
        requires now { IfSome first (λ m. time.amount ≡ m) }
        requires top { IfSome first (λ m. m ≤ C.top clock.old) }
        requires last { IfSome first (λ m. C.last clock.old ≡ Some (At m)) }
        requires fresh { seat.share ≡ 0 }
        ensures stopped { result.cause ≡ Stopped → C.last clock.new ≡ Some Stop }
        ensures back { result.cause ≡ ClockBack → IsBack (C.top clock.new) (C.last clock.new) }
        ensures end { result.cause ≡ LastMinute → C.last clock.new ≡ Some (At last_minute) }
        ensures rises { result.cause ≡ Stopped
            → C.risen clock.new ≤ C.risen clock.old + result.seat.share }
        ensures failures { C.failures clock.old ≤ C.failures clock.new }
        ensures failed { result.cause ≡ ClockFailed → C.failures clock.old < C.failures clock.new }
        ensures parts { result.seat.parts ≡ seat.parts }
        ensures written { HaveBeenWritten S.writes J.plan stored.old.stamps.items store.old
            stored.new.stamps.items store.new }
        ensures faults { stored.new.faults + S.failures store.old
            ≤ stored.old.faults + S.failures store.new }
    {
        let mut seat = seat;
        let cause = match first {
            Some(first) => self.keep_time(clock, store, stored, &mut seat, time, first),
            None => Cause::NoMemory,
        };
        self.go_down(&mut seat);
        self.see_off(clock);
        ClockEnd { cause, seat }
    }

    fn keep_time<C: Clock, S: StampStore>(
        &self,
        clock: &mut C,
        store: &mut S,
        stored: &mut Stored,
        seat: &mut Seat<J>,
        time: Share<T>,
        first: Minute,
    ) -> Cause
        requires whole { time.parts ≡ T.parts }
        requires now { time.amount ≡ first }
        requires top { first ≤ C.top clock.old }
        requires last { C.last clock.old ≡ Some (At first) }
        ensures stopped { result ≡ Stopped → C.last clock.new ≡ Some Stop }
        ensures back { result ≡ ClockBack → IsBack (C.top clock.new) (C.last clock.new) }
        ensures end { result ≡ LastMinute → C.last clock.new ≡ Some (At last_minute) }
        ensures rises { result ≡ Stopped
            → C.risen clock.new + seat.old.share ≤ C.risen clock.old + seat.new.share }
        ensures failures { C.failures clock.old ≤ C.failures clock.new }
        ensures failed { result ≡ ClockFailed → C.failures clock.old < C.failures clock.new }
        ensures parts { seat.new.parts ≡ seat.old.parts }
        ensures grows { seat.old.share ≤ seat.new.share }
        ensures written { HaveBeenWritten S.writes J.plan stored.old.stamps.items store.old
            stored.new.stamps.items store.new }
        ensures faults { stored.new.faults + S.failures store.old
            ≤ stored.old.faults + S.failures store.new }
    {
        let mut last = first;
        let mut time = time;
        if let Err(cause) = self.go_on(store, stored, seat, &mut time, last, last) {
            return cause;
        }
        for _ in self.rt.forever() {
            let minute = match clock.tick(Some(last)) {
                Tick::At(minute) => minute,
                Tick::Stop => return Cause::Stopped,
                Tick::Failed => return Cause::ClockFailed,
            };
            if let Err(cause) = self.go_on(store, stored, seat, &mut time, last, minute) {
                return cause;
            }
            last = minute;
            if self.leaves_off(clock) {
                return Cause::Stopped;
            }
        }
        unreachable!()
    }

    /// The tick is made under the lock; logging and writing stamps come after it.
    fn go_on<S: StampStore>(
        &self,
        store: &mut S,
        stored: &mut Stored,
        seat: &mut Seat<J>,
        time: &mut Share<T>,
        last: Minute,
        minute: Minute,
    ) -> Result<(), Cause>
        requires whole { time.old.parts ≡ T.parts }
        requires last { time.old.amount ≡ last }
        ensures whole { time.new.parts ≡ T.parts }
        ensures now { OnOk result (time.new.amount ≡ minute) }
        ensures rises { OnOk result (last < minute → seat.old.share < seat.new.share) }
        ensures grows { seat.old.share ≤ seat.new.share }
        ensures parts { seat.new.parts ≡ seat.old.parts }
        ensures cause { IfErr result IsFromTick }
        ensures back { IfErr result (λ cause. cause ≡ ClockBack → minute < last) }
        ensures end { IfErr result (λ cause. cause ≡ LastMinute → minute ≡ last_minute) }
        ensures written { (stamps : List (Option ℕ)) × AreLeft J.plan stamps
            × AreWritten S.writes J.plan.anacrontab.lines stamps
            stored.old.stamps.items store.old stored.new.stamps.items store.new }
        ensures faults { stored.new.faults + S.failures store.old
            ≤ stored.old.faults + S.failures store.new }
    {
        let round = self
            .dispatch
            .lock(self.rt)
            .round(self.alloc, seat, time, last, minute);
        let Round {
            ticked,
            has_start,
            notices,
            stamps,
        } = round;
        if has_start {
            self.bell.notify_all();
        }
        self.tell(&notices, last, minute);
        let failed = stored.write(self.plan, store, &stamps);
        self.log.lock(self.rt).write_unwritten(failed.as_slice());
        cause_to_end(ticked, minute)
    }

    fn tell(&self, notices: &Notices, last: Minute, minute: Minute) {
        let mut log = self.log.lock(self.rt);
        if minute.number() > last.number() + 1 {
            log.write(LogLine::Outage(last, minute));
        }
        log.write_all(notices.lines());
        log.lose(notices.lost());
    }
}

fn cause_to_end(ticked: Result<(), TickFault>, minute: Minute) -> Result<(), Cause>
    ensures value { result ≡ ended_by ticked minute }
    ensures ticked { OnOk result (IsOk ticked) }
    ensures cause { IfErr result IsFromTick }
    ensures back { IfErr result (λ cause. cause ≡ ClockBack → ticked ≡ Err TickBack) }
    ensures end { IfErr result (λ cause. cause ≡ LastMinute → minute ≡ last_minute) }
{
    match ticked {
        Ok(()) if Minute::new(minute.number() + 1).is_none() => Err(Cause::LastMinute),
        Ok(()) => Ok(()),
        Err(TickFault::ClockBack) => Err(Cause::ClockBack),
        Err(TickFault::HistoryFull) => Err(Cause::HistoryFull),
        Err(TickFault::OutOfMemory) => Err(Cause::NoMemory),
    }
}
