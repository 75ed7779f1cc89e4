//! The machine's clock over a time that only sleeping moves on.
use cs_civil::Minute;
use cs_device::{Clock, Tick};
use cs_machine::{Attendant, ClockBack, MachineClock};
use std::cell::Cell;
use std::time::Duration;
use std::{io, time};

/// A time in seconds since 1970, how long was slept so far, and whether it can be read.
#[derive(Drop)]
struct Time {
    now: Cell<u64>,
    slept: Cell<u64>,
    is_broken: Cell<bool>,
}

impl Time {
    fn new(now: u64) -> Time {
        Time {
            now: Cell::new(now),
            slept: Cell::new(0),
            is_broken: Cell::new(false),
        }
    }

    fn set(&self, now: Option<u64>) {
        self.is_broken.set(now.is_none());
        self.now.set(now.unwrap_or(0));
    }
}

impl time::Clock for Time {
    fn monotonic(&self) -> io::Result<Duration> {
        Err(io::Error::from(io::ErrorKind::Unsupported))
    }

    fn since_1970(&self) -> io::Result<Duration> {
        if self.is_broken.get() {
            return Err(io::Error::from(io::ErrorKind::Other));
        }
        Ok(Duration::from_secs(self.now.get()))
    }

    fn sleep(&self, duration: Duration) {
        self.now
            .set(self.now.get().saturating_add(duration.as_secs()));
        self.slept
            .set(self.slept.get().saturating_add(duration.as_secs()));
    }
}

/// An attendant that reports a request to stop from its `end`-th question on, and counts questions.
#[derive(Drop)]
struct Counting<'a> {
    asked: &'a Cell<u64>,
    end: u64,
}

impl<'a> Attendant for Counting<'a> {
    fn is_stop_asked(&mut self) -> bool {
        self.asked.set(self.asked.get().saturating_add(1));
        self.asked.get() >= self.end
    }

    fn wait_to_begin(&mut self) -> bool {
        true
    }

    fn tell_back(&mut self, _back: ClockBack) {}

    fn tell_over(&mut self) {}

    fn attend(&mut self) {}

    fn is_rest_awaited(&self) -> bool {
        self.end == 0
    }
}

/// 2023-02-28 22:59:00 in UTC, and its minute.
const SECOND: u64 = 1_677_625_140;

const MINUTE: u64 = 27_960_419;

fn at(minute: u64) -> Tick {
    match Minute::new(minute) {
        Some(minute) => Tick::At(minute),
        None => Tick::Failed,
    }
}

fn next(clock: &mut MachineClock<'_, Time, Counting<'_>>, minute: u64) -> Tick {
    clock.tick(Minute::new(minute))
}

/// Times, 0 for one that can't be read: some go back, by up to an hour and by more, and some come
/// after a clock with a limit of five minutes has stopped.
const TIMES: [u64; 10] = [
    0,
    SECOND,
    0,
    SECOND - 60,
    SECOND - 3_600,
    SECOND - 3_660,
    SECOND + 359,
    SECOND + 360,
    0,
    SECOND + 9_000,
];

#[test]
fn looks_at_the_time(rt: HostRuntime) {
    let answers = [
        Tick::Failed,
        at(MINUTE),
        Tick::Failed,
        at(MINUTE),
        at(MINUTE),
        at(MINUTE - 61),
        at(MINUTE + 5),
        Tick::Stop,
        Tick::Failed,
        Tick::Stop,
    ];
    let time = Time::new(0);
    let asked = Cell::new(0);
    let attendant = Counting {
        asked: &asked,
        end: u64::MAX,
    };
    let mut clock = MachineClock::new(&time, 0, Some(5), attendant);
    for (now, answer) in TIMES.iter().zip(&answers) {
        // it sleeps for a second first
        time.set(now.checked_sub(1));
        assert!(rt; next(&mut clock, MINUTE) == *answer, "{now}");
    }
}

/// Whether the clock sleeps and asks once for each answer after the first, until the `end`-th
/// question stops it.
fn ends_when_asked(end: u64) -> bool {
    let time = Time::new(SECOND);
    let asked = Cell::new(0);
    let attendant = Counting { asked: &asked, end };
    let mut clock = MachineClock::new(&time, 0, None, attendant);
    if next(&mut clock, 0) != at(MINUTE) {
        return false;
    }
    for seconds in 1..end {
        let answer = next(&mut clock, MINUTE);
        if answer != at(MINUTE) || (time.slept.get(), asked.get()) != (seconds, seconds) {
            return false;
        }
    }
    next(&mut clock, MINUTE) == Tick::Stop && (time.slept.get(), asked.get()) == (end, end)
}

/// A request while the clock skips minutes is heard a second later: these are an outage. The next
/// minute isn't skipped.
#[test]
fn asked_while_it_skips(rt: HostRuntime) {
    let time = Time::new(SECOND);
    let asked = Cell::new(0);
    let attendant = Counting {
        asked: &asked,
        end: 2,
    };
    let mut clock = MachineClock::new(&time, 0, None, attendant);
    assert!(rt; next(&mut clock, 0) == at(MINUTE) && asked.get() == 0);
    time.set(Some(SECOND + 59));
    assert!(rt; next(&mut clock, MINUTE) == at(MINUTE + 1) && asked.get() == 1);
    time.set(Some(SECOND + 179));
    assert!(rt; next(&mut clock, MINUTE + 1) == at(MINUTE + 3) && asked.get() == 1);
    assert!(rt; next(&mut clock, MINUTE + 3) == Tick::Stop && asked.get() == 2);
}

/// A clock stops a daemon at rest only if its attendant waits for that.
#[test]
fn stops_at_rest(rt: HostRuntime) {
    for end in 0..2 {
        let time = Time::new(SECOND);
        let asked = Cell::new(0);
        let attendant = Counting { asked: &asked, end };
        let mut clock = MachineClock::new(&time, 0, None, attendant);
        assert!(rt; next(&mut clock, 0) == at(MINUTE));
        assert!(rt; clock.stops_at_rest() == (end == 0) && asked.get() == 0);
    }
}

/// A clock that was asked to stop still shows the time, and keeps its first answer.
#[test]
fn looks_on(rt: HostRuntime) {
    let time = Time::new(SECOND);
    let asked = Cell::new(0);
    let attendant = Counting {
        asked: &asked,
        end: 1,
    };
    let mut clock = MachineClock::new(&time, 0, None, attendant);
    assert!(rt; next(&mut clock, 0) == at(MINUTE) && next(&mut clock, MINUTE) == Tick::Stop);
    time.set(Some(SECOND + 299));
    assert!(rt; clock.look_on() == Minute::new(MINUTE + 5) && asked.get() == 1);
    time.set(None);
    assert!(rt; clock.look_on().is_none() && next(&mut clock, 0) == at(MINUTE));
}

/// The clock sleeps for a second before its second answer, the third and so on; at the request to
/// stop it stops, though it could give its minute.
#[test]
fn asked_to_end(rt: HostRuntime) {
    for end in 1..5 {
        assert!(rt; ends_when_asked(end), "{end}");
    }
}
