ghost use Rattle.std.specs.Prelude.{◌≡◌, ◌↔◌, ◌<◌, ◌≤◌, ◌+◌, ◌-◌, pos, IsTrue, IfSome, Some};
ghost use Rattle.std.specs.Prelude.{None, ℕ};
ghost use Rattle.std.specs.Prelude.{◌+ℤ◌, unwrap_or, is_some, true, false};
ghost use Rattle.cs_civil.specs.Calendar.{first_minute, last_minute};
ghost use Rattle.cs_device.specs.Rise.{risen_by, top_by};
ghost use Rattle.cs_device.specs.Telling.{nothing_told};
ghost use Rattle.cs_device.specs.declared.clock.Tick.TheVariants.{At, Failed};
ghost use Rattle.cs_machine.specs.declared.attendant.ClockBack.{ClockBack};
ghost use Rattle.cs_machine.specs.Passing.{clock_minute, held, is_behind, IsBackAt, IsMoved, latest, shown, skips};

use crate::attendant::{Attendant, ClockBack};
use cs_civil::{Minute, minute_at};
use cs_device::{Clock, Tick, Told};
use std::time::{Duration, SystemTime};
use std::{thread, time};

/// In minutes, for a clock that was put back.
const LONGEST_WAIT: u64 = 60;

/// The machine's clock at one offset from UTC, which a daemon looks at once a second.
///
/// If the machine's clock is put back by at most an hour, this one stands still until that has
/// caught up, so that no minute comes twice. If it's put back further, this one goes back too. The
/// attendant learns of either once.
///
/// [`Stop`](Tick::Stop) at the limit, and when the daemon is asked to end. [`Failed`](Tick::Failed)
/// if the machine has no time, or it isn't from 1970-01-02 00:00 to 9999-12-31 23:59 at the offset.
/// After 2^64 - 1 failures, another is [`Stop`](Tick::Stop).
#[derive(Drop)]
pub struct MachineClock<'r, R, A> {
    rt: &'r R,
    offset: i16,
    limit: Option<u64>,
    first: Option<Minute>,
    latest: Option<Minute>,
    is_back: bool,
    attendant: A,
    told: Told,
}

impl<'r, R: time::Clock, A: Attendant> MachineClock<'r, R, A> {
    /// Returns a clock without answers yet, `offset` minutes ahead of UTC. With a limit it shows
    /// so many minutes after its first one and then stops; with 0 it stops at its second answer.
    pub fn new(rt: &'r R, offset: i16, limit: Option<u64>, attendant: A) -> MachineClock<'r, R, A>
        ensures told { result.told ≡ nothing_told }
        ensures asked { (result.offset ≡ offset) × (result.limit ≡ limit) × (result.first ≡ None)
            × (result.latest ≡ None) }
        ensures attendant { (result.is_back ≡ false) × (result.attendant ≡ attendant) }
    {
        MachineClock {
            rt,
            offset,
            limit,
            first: None,
            latest: None,
            is_back: false,
            attendant,
            told: Told::nothing(),
        }
    }

    /// Returns this clock for the next daemon, and the attendant that it had. Its minutes are the
    /// same instants, where they are in range at the other offset. Its latest minute is its first
    /// answer, unless the limit is over: so no minute comes twice or gets lost between two daemons.
    pub fn resumed<B>(self, offset: i16, attendant: B) -> (MachineClock<'r, R, B>, A)
        ensures told { result.0.told ≡ nothing_told }
        ensures asked { (result.0.offset ≡ offset) × (result.0.limit ≡ self.entry.limit) }
        ensures first { IsMoved self.entry.offset self.entry.first offset result.0.first }
        ensures latest { IsMoved self.entry.offset self.entry.latest offset result.0.latest }
        ensures attendant { (result.0.is_back ≡ self.entry.is_back)
            × (result.0.attendant ≡ attendant) × (result.1 ≡ self.entry.attendant) }
    {
        let first = moved(self.offset, self.first, offset);
        let latest = moved(self.offset, self.latest, offset);
        let clock = MachineClock {
            rt: self.rt,
            offset,
            limit: self.limit,
            first,
            latest,
            is_back: self.is_back,
            attendant,
            told: Told::nothing(),
        };
        (clock, self.attendant)
    }

    /// Makes this its latest minute, which it shows the next daemon first.
    pub fn set_to(&mut self, minute: Minute)
        ensures { self.new ≡ record self.old { latest = Some minute } }
    {
        self.latest = Some(minute);
    }

    /// Returns its latest minute, if it has one.
    pub fn latest(&self) -> Option<Minute>
        ensures { result ≡ self.now.latest }
    {
        self.latest
    }

    /// Returns its offset, in minutes ahead of UTC.
    pub fn offset(&self) -> i16
        ensures { result ≡ self.now.offset }
    {
        self.offset
    }

    fn answer(&mut self, now: Option<Minute>) -> Tick
        ensures told { self.new.told ≡ self.old.told }
        ensures resumed { now ≡ None → IfSome self.old.latest
            (λ minute. result ≡ shown self.old.limit self.old.first minute) }
        ensures begun { now ≡ None → self.old.latest ≡ None → (m : ℕ) → result ≡ At m
            → A.begins self.old.attendant self.new.attendant }
    {
        match (now, self.latest) {
            (Some(_), _) => self.wait(),
            (None, Some(minute)) => self.show(minute),
            (None, None) => self.begin(),
        }
    }

    fn wait(&mut self) -> Tick
        ensures { self.new.told ≡ self.old.told }
    {
        thread::sleep(self.rt, Duration::from_secs(1));
        // a request that comes while minutes are skipped counts once these were shown
        if !self.has_skipped() && self.attendant.is_stop_asked() {
            return Tick::Stop;
        }
        let tick = self.look();
        if let Tick::Stop = tick {
            self.attendant.tell_over();
        }
        tick
    }

    fn begin(&mut self) -> Tick
        requires { self.old.latest ≡ None }
        ensures told { self.new.told ≡ self.old.told }
        ensures begun { (m : ℕ) → result ≡ At m
            → A.begins self.old.attendant self.new.attendant }
    {
        if !self.attendant.wait_to_begin() {
            return Tick::Stop;
        }
        self.look()
    }

    fn look(&mut self) -> Tick
        ensures told { self.new.told ≡ self.old.told }
        ensures first { self.old.latest ≡ None → self.new.attendant ≡ self.old.attendant }
    {
        let Some(minute) = self.read() else {
            return Tick::Failed;
        };
        self.watch(minute);
        let minute = self.hold(minute);
        self.show(minute)
    }

    fn read(&self) -> Option<Minute> {
        minute_after(unix_seconds(self.rt)?, self.offset)
    }

    fn has_skipped(&self) -> bool {
        match self.read() {
            Some(minute) => skips(self.latest, minute),
            None => false,
        }
    }

    fn watch(&mut self, minute: Minute)
        ensures told { is_behind self.old.latest minute ≡ true → self.old.is_back ≡ false
            → (back : ClockBack) × IsBackAt self.old.latest minute back
            × A.tells self.old.attendant back self.new.attendant }
        ensures once { self.old.is_back ≡ true → self.new.attendant ≡ self.old.attendant }
        ensures untold { is_behind self.old.latest minute ≡ false
            → self.new.attendant ≡ self.old.attendant }
        ensures is_back { self.new ≡ record self.old {
          is_back = is_behind self.old.latest minute;
          attendant = self.new.attendant;
        } }
    {
        let back = back_at(self.latest, minute);
        if let (Some(back), false) = (back, self.is_back) {
            self.attendant.tell_back(back);
        }
        self.is_back = back.is_some();
    }

    fn hold(&mut self, minute: Minute) -> Minute
        ensures value { result ≡ held self.old.latest minute }
        ensures latest { self.new
            ≡ record self.old { latest = Some (latest self.old.latest minute) } }
    {
        let Some(latest) = self.latest else {
            self.latest = Some(minute);
            return minute;
        };
        if minute >= latest {
            self.latest = Some(minute);
            return minute;
        }
        if is_near(latest, minute) {
            latest
        } else {
            minute
        }
    }

    fn show(&mut self, minute: Minute) -> Tick
        ensures tick { result ≡ shown self.old.limit self.old.first minute }
        ensures first { self.new
            ≡ record self.old { first = Some (unwrap_or self.old.first minute) } }
    {
        let Some(first) = self.first else {
            self.first = Some(minute);
            return Tick::At(minute);
        };
        match self.limit {
            Some(0) => Tick::Stop,
            // none have passed if the clock went back
            Some(limit) if limit < minute.number().saturating_sub(first.number()) => Tick::Stop,
            _ => Tick::At(minute),
        }
    }
}

pub(crate) fn moved(offset: i16, minute: Option<Minute>, other_offset: i16) -> Option<Minute>
    ensures { IsMoved offset minute other_offset result }
{
    minute_ahead(minute?, i32::from(other_offset) - i32::from(offset))
}

fn minute_ahead(minute: Minute, by: i32) -> Option<Minute>
    ensures value { IfSome result (λ ahead. pos ahead ≡ pos minute +ℤ by) }
    ensures in_range { (n : ℕ) → first_minute ≤ n → n ≤ last_minute
        → pos n ≡ pos minute +ℤ by → result ≡ Some n }
{
    Minute::new(u64::try_from(minute.number() as i64 + i64::from(by)).ok()?)
}

fn back_at(latest: Option<Minute>, shown: Minute) -> Option<ClockBack>
    ensures behind { is_some result ≡ is_behind latest shown }
    ensures back { IfSome result (IsBackAt latest shown) }
{
    let latest = latest?;
    if shown >= latest {
        return None;
    }
    Some(ClockBack {
        shown,
        latest,
        is_waited_for: is_near(latest, shown),
    })
}

fn skips(latest: Option<Minute>, minute: Minute) -> bool
    ensures { result ≡ skips latest minute }
{
    match latest {
        Some(latest) => latest.number() + 1 < minute.number(),
        None => false,
    }
}

fn is_near(latest: Minute, minute: Minute) -> bool
    ensures { IsTrue result ↔ (latest - minute ≤ 60) }
{
    latest.number().saturating_sub(minute.number()) <= LONGEST_WAIT
}

/// The whole seconds since 1970-01-01 00:00 UTC, if the machine's clock can be read.
pub fn unix_seconds<R: time::Clock>(rt: &R) -> Option<u64> {
    let now = SystemTime::now(rt).ok()?;
    let since = now.duration_since(SystemTime::UNIX_EPOCH).ok()?;
    Some(since.as_secs())
}

pub(crate) fn minute_after(seconds: u64, offset: i16) -> Option<Minute>
    ensures { result ≡ clock_minute offset seconds }
{
    minute_at(i64::try_from(seconds).ok()?, offset).ok()
}

impl<'r, R: time::Clock, A: Attendant> Clock for MachineClock<'r, R, A> {
    ghost last = { λ c. c.told.last };

    ghost failures = { λ c. c.told.failures };

    ghost top = { λ c. c.told.top };

    ghost risen = { λ c. c.told.risen };

    fn tick(&mut self, now: Option<Minute>) -> Tick
        ensures resumed { now ≡ None → IfSome self.old.latest
            (λ minute. result ≡ shown self.old.limit self.old.first minute) }
        ensures begun { now ≡ None → self.old.latest ≡ None → (m : ℕ) → result ≡ At m
            → A.begins self.old.attendant self.new.attendant }
        ensures last { self.new.told.last ≡ Some result }
        ensures failures { self.old.told.failures ≤ self.new.told.failures }
        ensures failed { result ≡ Failed → self.old.told.failures < self.new.told.failures }
        ensures top { self.new.told.top ≡ top_by self.old.told.top result }
        ensures risen { self.new.told.risen
            ≡ self.old.told.risen + risen_by self.old.told.top result }
    {
        let tick = self.answer(now);
        self.told.tell(tick)
    }

    fn stops_at_rest(&mut self) -> bool {
        if !self.attendant.is_rest_awaited() {
            return false;
        }
        self.told.tell(Tick::Stop);
        true
    }

    fn look_on(&mut self) -> Option<Minute> {
        thread::sleep(self.rt, Duration::from_secs(1));
        self.attendant.attend();
        self.read()
    }
}
