use crate::gains::{MINUTES_OF_DAY, is_waited_for};
use crate::latest::latest_starts;
use crate::queue::{Queue, QueuedRun};
use cs_claims::MAX_GROUPS;
use cs_profile::{Calendar, DAYS_BEFORE, Facts};
use cs_windows::{Window, touches};
use indexmap::{IndexMap, IndexSet};
use std::alloc::{AllocError, Global};

/// How long runs that wait for a lock may really go on, day by day of a calendar.
///
/// A run that begins in minute `s` has ended before `s` plus its longest time, so the next holder
/// begins a minute before that at the latest: each link of a chain of runs loses a minute against
/// the bounds of a certificate. Each wait that is given here occurs in some history of the plan,
/// unless a run of mode skip finds the lock held.
///
/// Some waits may be longer than is given. Runs that share a lock are taken to wait for all that
/// hold it alone, and to keep nobody waiting. A run of mode try is taken to get the lock when it is
/// due, and of the runs due before it, only the one in question to wait past it.
#[derive(Drop)]
pub struct ExactWaits<'a> {
    facts: &'a Facts,
    calendar: &'a Calendar,
    queues: Vec<Queue>,
}

/// The profiles of up to four successive days. The places of missing days have a profile that no
/// day has.
type Profiles = [u16; 4];

fn profiles_from(profiles: &[u16], first: usize, length: usize) -> Profiles {
    let mut found = [u16::MAX; 4];
    for (place, profile) in found.iter_mut().enumerate() {
        if place < length {
            *profile = profiles
                .get(first.saturating_add(place))
                .copied()
                .unwrap_or(u16::MAX);
        }
    }
    found
}

/// Places of first days of stretches with the same profiles. No day is among them whose locks are
/// all free no later than another's.
type Firsts = Vec<usize>;

/// The window of a run on the last of `length` days, if the run waits and the window reaches that
/// day.
fn window_of(facts: &Facts, run: &QueuedRun, length: u8) -> Option<Window> {
    let task = facts.tasks().get(usize::from(run.job))?;
    let place = u8::try_from(run.due / MINUTES_OF_DAY).ok()?;
    let until = run.start.saturating_add(u32::from(task.max));
    let window = Window {
        job: run.job,
        day_back: length.checked_sub(1)?.checked_sub(place)?,
        from: u16::try_from(run.due % MINUTES_OF_DAY).ok()?,
        reach: u16::try_from(until.saturating_sub(run.due)).unwrap_or(u16::MAX),
    };
    if task.mode.waits() && touches(&window, 0, cs_civil::MINUTES_OF_DAY) {
        Some(window)
    } else {
        None
    }
}

impl<'a> ExactWaits<'a> {
    /// Returns the waits of a plan over its calendar. The only error is out of memory.
    pub fn of(
        alloc: Global,
        facts: &'a Facts,
        calendar: &'a Calendar,
    ) -> Result<ExactWaits<'a>, AllocError> {
        let mut queues = Vec::new(alloc);
        for group in 0..MAX_GROUPS {
            if is_waited_for(facts, group) {
                queues.push(Queue::of(alloc, facts, calendar, group)?)?;
            }
        }
        Ok(ExactWaits {
            facts,
            calendar,
            queues,
        })
    }

    /// Whether each lock is free on one day no later than on the other.
    fn is_within(&self, one: usize, other: usize) -> bool {
        for queue in self.queues.as_slice() {
            if queue.free_on(one) > queue.free_on(other) {
                return false;
            }
        }
        true
    }

    fn add(&self, firsts: &mut Firsts, first: usize) -> Result<(), AllocError> {
        for other in firsts.as_slice() {
            if self.is_within(first, *other) {
                return Ok(());
            }
        }
        firsts.retain(|other| !self.is_within(*other, first));
        firsts.push(first)?;
        Ok(())
    }

    fn firsts(&self, alloc: Global, length: usize) -> Result<Vec<Firsts>, AllocError> {
        let profiles = self.calendar.profiles();
        let mut seen = IndexSet::new(alloc);
        let mut sorted: Vec<Firsts> = Vec::new(alloc);
        for first in DAYS_BEFORE..profiles.len().saturating_add(1).saturating_sub(length) {
            let (number, is_new) = seen.insert_full(profiles_from(profiles, first, length))?;
            if is_new {
                sorted.push(Vec::new(alloc))?;
            }
            if let Some(firsts) = sorted.get_mut(number) {
                self.add(firsts, first)?;
            }
        }
        Ok(sorted)
    }

    /// Returns the last days of the stretches of this many days, up to four, that are worth a look,
    /// rising, as days since 1970-01-01. Of two stretches with the same profiles, one is ignored if
    /// on its first day each lock is free no later than on the other's. The only error is out of
    /// memory.
    pub fn last_days(&self, alloc: Global, length: u8) -> Result<Vec<u64>, AllocError> {
        let firsts = self.firsts(alloc, usize::from(length))?;
        let after = self.calendar.day_at(usize::from(length)).saturating_sub(1);
        let mut days = Vec::new(alloc);
        for like in firsts.as_slice() {
            for place in like.as_slice() {
                days.push(after.saturating_add(*place as u64))?;
            }
        }
        days.sort()?;
        Ok(days)
    }

    /// Returns the windows of jobs that wait, on the last of `length` days, up to four, of which
    /// the last is this one: for each run that is due on one of them, from its due minute to the
    /// last in which it may go on. They are in no order. The only error is out of memory.
    pub fn windows(
        &self,
        alloc: Global,
        last_day: u64,
        length: u8,
    ) -> Result<Vec<Window>, AllocError> {
        let mut windows = Vec::new(alloc);
        let before = self.calendar.first_day().saturating_add(u64::from(length));
        let Some(first) = last_day.saturating_add(1).checked_sub(before) else {
            return Ok(windows);
        };
        let first = first as usize;
        let profiles = profiles_from(self.calendar.profiles(), first, usize::from(length));
        for queue in self.queues.as_slice() {
            let runs = latest_starts(alloc, queue, profiles.as_slice(), queue.free_on(first))?;
            for run in runs.as_slice() {
                if let Some(window) = window_of(self.facts, run, length) {
                    windows.push(window)?;
                }
            }
        }
        Ok(windows)
    }

    /// Returns the windows of the stretch of `length` days that ends with this day, in their order,
    /// where each of a job that waits is cut to what it really can be. One that then doesn't reach
    /// the last day is dropped. The only error is out of memory.
    pub fn cut(
        &self,
        alloc: Global,
        last_day: u64,
        length: u8,
        windows: &[Window],
    ) -> Result<Vec<Window>, AllocError> {
        let mut own = IndexMap::new(alloc);
        for window in self.windows(alloc, last_day, length)?.as_slice() {
            own.insert((window.job, window.day_back, window.from), *window)?;
        }
        let mut exact = Vec::new(alloc);
        for window in windows {
            let really = match self.facts.tasks().get(usize::from(window.job)) {
                Some(task) if task.is_cron && task.mode.waits() => own
                    .get(&(window.job, window.day_back, window.from))
                    .copied(),
                _ => Some(*window),
            };
            if let Some(window) = really {
                exact.push(window)?;
            }
        }
        Ok(exact)
    }
}
