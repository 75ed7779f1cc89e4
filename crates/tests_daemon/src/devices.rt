//! Made-up devices, and what they tell each other.
ghost use Rattle.std.specs.Prelude.{◌≡◌};

use cs_civil::{Bytes, Day, Minute};
use cs_device::{Clock, Failures, Gate, Outcome, Point, Runner, Stamp, StampStore, Tick, Told};
use cs_history::Run;
use std::io::ErrorKind;
use std::sync::atomic::{AtomicU64, Ordering};
use std::time::Duration;
use std::{io, thread, time};

#[derive(Drop)]
pub(crate) struct Seen {
    /// The last minute that the clock gave.
    pub(crate) minute: AtomicU64,
    /// How many runs of other jobs than the first have passed the gate's second point.
    pub(crate) others: AtomicU64,
    /// How often a stamp was to be written.
    pub(crate) writes: AtomicU64,
    /// How often a device has waited in vain.
    pub(crate) missed: AtomicU64,
}

impl Seen {
    pub(crate) fn nothing() -> Seen {
        Seen {
            minute: AtomicU64::new(0),
            others: AtomicU64::new(0),
            writes: AtomicU64::new(0),
            missed: AtomicU64::new(0),
        }
    }
}

/// Gives the minutes in turn, the last one again until so many writes of stamps were tried, and
/// then stops.
#[derive(Drop)]
pub(crate) struct ListClock<'a, R> {
    pub(crate) rt: &'a R,
    pub(crate) seen: &'a Seen,
    pub(crate) minutes: &'a [u64],
    pub(crate) writes: u64,
    pub(crate) at: usize,
    pub(crate) repeats: u64,
    pub(crate) more: u64,
    pub(crate) rest_from: u64,
    pub(crate) told: Told,
}

impl<'a, R: time::Clock> ListClock<'a, R> {
    fn next(&mut self) -> Tick
        ensures { self.new.told ≡ self.old.told }
    {
        if let Some(minute) = self.minutes.get(self.at) {
            self.at += 1;
            return self.show(*minute);
        }
        if self.repeats == 0 || self.seen.writes.load(Ordering::SeqCst) >= self.writes {
            return Tick::Stop;
        }
        self.repeats -= 1;
        thread::sleep(self.rt, Duration::from_millis(1));
        match self.minutes.last() {
            Some(minute) => self.show(*minute),
            None => Tick::Stop,
        }
    }

    fn show(&self, minute: u64) -> Tick {
        match Minute::new(minute) {
            Some(minute) => {
                self.seen.minute.store(minute.number(), Ordering::SeqCst);
                Tick::At(minute)
            }
            None => Tick::Failed,
        }
    }
}

impl<'a, R: time::Clock> Clock for ListClock<'a, R> {
    ghost last = { λ c. c.told.last };

    ghost failures = { λ c. c.told.failures };

    ghost top = { λ c. c.told.top };

    ghost risen = { λ c. c.told.risen };

    fn tick(&mut self, _now: Option<Minute>) -> Tick {
        let tick = self.next();
        self.told.tell(tick)
    }

    fn stops_at_rest(&mut self) -> bool {
        let stops = self.seen.minute.load(Ordering::SeqCst) >= self.rest_from;
        if stops {
            self.told.tell(Tick::Stop);
        }
        stops
    }

    fn look_on(&mut self) -> Option<Minute> {
        thread::sleep(self.rt, Duration::from_millis(1));
        let mut minute = self.seen.minute.load(Ordering::SeqCst);
        if self.more > 0 {
            self.more -= 1;
            minute = minute.saturating_add(1);
            self.seen.minute.store(minute, Ordering::SeqCst);
        }
        Minute::new(minute)
    }
}

const KILLED: &str = "job cron.daily at 2024-01-01 01:00";

/// Answers that each command exited with 3, except one that isn't started, and the run of one name,
/// which signal 9 ends.
#[derive(Drop)]
pub(crate) struct FailingRunner {
    pub(crate) runs: u64,
    /// Which command isn't started, counted from 1; 0 for none.
    pub(crate) fails: u64,
    pub(crate) failures: Failures,
}

impl Runner for FailingRunner {
    ghost use Rattle.std.specs.Prelude.{⊤};

    ghost runs = { λ before words outcome behind. ⊤ };

    ghost failures = { λ r. r.failures };

    fn run(
        &mut self,
        name: &[u8],
        _user: Option<&[u8]>,
        _command: &[u8],
        _input: Option<&[u8]>,
        _env: &[(Bytes, Bytes)],
        _until: Option<Minute>,
    ) -> Outcome {
        self.runs = self.runs.saturating_add(1);
        if self.runs == self.fails && self.failures.count() {
            return Outcome::NotStarted;
        }
        if name == KILLED.as_bytes() {
            return Outcome::Killed(9);
        }
        Outcome::Exited(3)
    }
}

/// Keeps what is written to it, except for one write that fails.
#[derive(Drop)]
pub(crate) struct FailingLog {
    pub(crate) text: Vec<u8>,
    pub(crate) writes: u64,
    /// Which write fails, counted from 1; 0 for none.
    pub(crate) fails: u64,
}

impl io::Write for FailingLog {
    fn write(&mut self, buf: &[u8]) -> io::Result<usize> {
        self.writes = self.writes.saturating_add(1);
        if self.writes == self.fails {
            return Err(io::Error::from(ErrorKind::StorageFull));
        }
        self.text.extend_from_slice(buf)?;
        Ok(buf.len())
    }

    fn flush(&mut self) -> io::Result<()> {
        Ok(())
    }
}

/// What runs of the first job are held for, before they begin.
#[derive(Clone, Copy)]
pub(crate) enum Hold {
    Never,
    /// Until the clock has given this minute.
    Until(u64),
    /// Until a run of another job has ended.
    ForOthers,
}

/// Holds runs of the first job, at most so many milliseconds.
#[derive(Drop)]
pub(crate) struct HoldingGate<'a, R> {
    pub(crate) rt: &'a R,
    pub(crate) seen: &'a Seen,
    pub(crate) hold: Hold,
    pub(crate) most: u64,
}

impl<'a, R: time::Clock> HoldingGate<'a, R> {
    fn is_awaited(&self) -> bool {
        match self.hold {
            Hold::Never => true,
            Hold::Until(minute) => self.seen.minute.load(Ordering::SeqCst) >= minute,
            Hold::ForOthers => self.seen.others.load(Ordering::SeqCst) > 0,
        }
    }

    fn wait(&self) -> bool {
        for _ in 0..self.most {
            if self.is_awaited() {
                return true;
            }
            thread::sleep(self.rt, Duration::from_millis(1));
        }
        false
    }
}

impl<'a, R: time::Clock> Gate for HoldingGate<'a, R> {
    fn pass(&self, run: Run, point: Point) {
        match point {
            Point::Before if run.job == 0 => {
                if !self.wait() {
                    self.seen.missed.fetch_add(1, Ordering::SeqCst);
                }
            }
            Point::After if run.job != 0 => {
                self.seen.others.fetch_add(1, Ordering::SeqCst);
            }
            _ => {}
        }
    }
}

/// Holds no stamp at first. So many writes fail, the first ones.
#[derive(Drop)]
pub(crate) struct FailingStore<'a> {
    pub(crate) seen: &'a Seen,
    pub(crate) left: u64,
    pub(crate) failures: Failures,
}

impl<'a> StampStore for FailingStore<'a> {
    ghost use Rattle.std.specs.Prelude.{⊤};

    ghost reads = { λ before identifier answer behind. ⊤ };

    ghost writes = { λ before identifier day answer behind. ⊤ };

    ghost failures = { λ s. s.failures };

    fn read(&mut self, _identifier: &[u8]) -> Stamp {
        Stamp::Absent
    }

    fn write(&mut self, _identifier: &[u8], _day: Day) -> bool {
        self.seen.writes.fetch_add(1, Ordering::SeqCst);
        if self.left == 0 {
            return true;
        }
        self.left -= 1;
        !self.failures.count()
    }
}
