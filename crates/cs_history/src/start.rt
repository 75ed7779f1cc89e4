ghost use Rattle.std.specs.Prelude.{◌≡◌, ◌≤◌, ◌<◌, [], length};

use arrayvec::ArrayVec;
use cs_civil::{Day, Minute};
use std::marker::Model;

/// The most stamps of a start, and jobs of an anacrontab.
pub const MAX_STAMPS: usize = 64;

/// The start of a history: the minute, up or down, and the anacron stamps. Nothing runs.
#[derive(Drop)]
pub struct Start {
    minute: Minute,
    up: bool,
    stamps: ArrayVec<Option<Day>, 64>,
}

impl Model for Start {
    ghost use Rattle.cs_history.specs.History.{Start as Opening};

    ghost Value = { Opening };

    ghost view = { λ s. record { now = s.minute; up = s.up; stamps = s.stamps.items } };
}

impl Start {
    /// Returns the start at this minute. `stamps` are those of the anacron jobs in order of line,
    /// `None` for a job that has none. Jobs past the end have none, and stamps past the last job
    /// are ignored.
    pub fn new(now: Minute, up: bool, stamps: ArrayVec<Option<Day>, 64>) -> Start
        ensures { result ≡ record { now = now; up = up; stamps = stamps.items } }
    {
        Start {
            minute: now,
            up,
            stamps,
        }
    }

    /// Copies the start.
    pub fn copy(&self) -> Start
        ensures { result ≡ self.now }
    {
        Start::new(self.minute, self.up, copy_stamps(self.stamps()))
    }

    /// Returns the civil minute at which the history starts.
    pub fn now(&self) -> Minute
        ensures { result ≡ self.now.now }
    {
        self.minute
    }

    /// Whether the daemon is up.
    pub fn is_up(&self) -> bool
        ensures { result ≡ self.now.up }
    {
        self.up
    }

    /// Returns the stamps, at most 64.
    pub fn stamps(&self) -> &[Option<Day>]
        ensures value { result.now ≡ self.now.stamps }
        ensures few { length result.now ≤ MAX_STAMPS }
    {
        self.stamps.as_slice()
    }
}

/// Copies stamps, of which a start has at most 64; of more it copies none.
pub fn copy_stamps(stamps: &[Option<Day>]) -> ArrayVec<Option<Day>, 64>
    ensures few { length stamps.now ≤ MAX_STAMPS → result.items ≡ stamps.now }
    ensures many { MAX_STAMPS < length stamps.now → result.items ≡ [] }
{
    match ArrayVec::try_from(stamps) {
        Ok(copy) => copy,
        Err(_) => ArrayVec::new(),
    }
}
