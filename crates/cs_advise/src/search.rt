//! The search for changes that make a plan safe. Nothing here is relied on: each change is judged
//! again before it is printed.

use crate::change::{Change, Member, Shift, Start};
use crate::changing::changed_plan;
use crate::shifting::shifted_start;
use crate::source::Source;
use cs_civil::Hours;
use cs_history::Mode;
use cs_maker::{Maker, Outlook};
use cs_plan::{MAX_CAPACITY, Plan};
use rayon::prelude::*;
use std::alloc::{AllocError, Global};
use std::thread::Threads;

/// The most minutes by which a start is shifted: less than a day.
const MOST_MINUTES: u64 = 1_439;

#[derive(Drop)]
pub(crate) struct Search<'a, R> {
    pub(crate) rt: &'a R,
    pub(crate) alloc: Global,
    pub(crate) source: &'a Source,
    pub(crate) plan: &'a Plan,
    /// How many changes are enough.
    pub(crate) most: usize,
}

/// Starts are shifted by each of so many minutes first, then by every fifth; where that helps, by
/// those just before it.
const FINE: u16 = 5;

/// The minutes by which each of two starts is shifted.
const STEPS: [u16; 10] = [5, 10, 15, 20, 30, 40, 50, 60, 90, 120];

/// Whether a start of the job in this direction is among the changes.
fn is_found(changes: &[Change], job: u16, shift: Shift) -> bool {
    for change in changes {
        if let Change::Start(start) = change {
            let is_so = if shift.is_later {
                start.shift.is_later
            } else {
                !start.shift.is_later
            };
            if start.job == job && is_so {
                return true;
            }
        }
    }
    false
}

/// A member of which values are tried.
#[derive(Clone, Copy)]
enum Tried {
    /// The longest time of a job.
    Max(u16),
    Capacity,
    /// The first of the catch-up hours.
    From,
    /// The end of the catch-up hours.
    To,
}

impl<R: Threads + Sync> Search<'_, R> {
    fn is_safe(&self, change: &Change) -> Result<bool, AllocError> {
        let found = changed_plan(self.alloc, self.source, self.plan, change)?;
        let Some(changed) = found else {
            return Ok(false);
        };
        match Maker::of(self.alloc, &changed.plan)?.outlook(self.alloc, 0)? {
            Outlook::Safe => Ok(true),
            Outlook::Broken(_) | Outlook::Unbounded => Ok(false),
        }
    }

    /// Adds shifted starts of two jobs, if fields can express them and the plan is safe with them;
    /// returns whether it is.
    fn add_both(
        &self,
        changes: &mut Vec<Change>,
        jobs: (u16, u16),
        shifts: (Shift, Shift),
    ) -> Result<bool, AllocError> {
        let (source, plan) = (self.source, self.plan);
        let Some(one) = shifted_start(self.alloc, source, plan, jobs.0, shifts.0)? else {
            return Ok(false);
        };
        let Some(other) = shifted_start(self.alloc, source, plan, jobs.1, shifts.1)? else {
            return Ok(false);
        };
        let change = Change::Both(one, other);
        let is_safe = self.is_safe(&change)?;
        if is_safe {
            changes.push(change)?;
        }
        Ok(is_safe)
    }

    /// Adds the nearest shifted starts of the first two jobs with which the plan is safe. At most
    /// 400 are judged.
    fn add_pair(
        &self,
        changes: &mut Vec<Change>,
        jobs: &[u16],
        within: u16,
    ) -> Result<(), AllocError> {
        let [one, other, ..] = jobs else {
            return Ok(());
        };
        // by 10 to 240 minutes together, with each step of the first job, in each of four ways
        for number in 0..231 * 40u16 {
            let minutes = STEPS[usize::from(number / 4 % 10)];
            let others = (10 + number / 40).saturating_sub(minutes);
            if minutes <= within && others <= within && STEPS.as_slice().contains(&others) {
                let shifts = (
                    Shift {
                        is_later: number % 4 < 2,
                        minutes,
                    },
                    Shift {
                        is_later: number % 2 == 0,
                        minutes: others,
                    },
                );
                if self.add_both(changes, (*one, *other), shifts)? {
                    return Ok(());
                }
            }
        }
        Ok(())
    }

    fn safe_start(&self, job: u16, shift: Shift) -> Result<Option<Change>, AllocError> {
        let Some(start) = shifted_start(self.alloc, self.source, self.plan, job, shift)? else {
            return Ok(None);
        };
        let change = Change::Start(start);
        let is_safe = self.is_safe(&change)?;
        Ok(if is_safe { Some(change) } else { None })
    }

    /// The shifted start of a job, if the plan is safe with it; preferably one shifted by up to four
    /// minutes less.
    fn near_start(&self, job: u16, shift: Shift) -> Result<Option<Change>, AllocError> {
        let Some(start) = self.safe_start(job, shift)? else {
            return Ok(None);
        };
        if FINE < shift.minutes {
            for minutes in shift.minutes.saturating_sub(FINE - 1)..shift.minutes {
                if let Some(nearer) = self.safe_start(job, Shift { minutes, ..shift })? {
                    return Ok(Some(nearer));
                }
            }
        }
        Ok(Some(start))
    }

    /// Adds the shifted starts of these jobs with which the plan is safe, found by several threads,
    /// where a job has none in that direction.
    fn add_starts(
        &self,
        changes: &mut Vec<Change>,
        jobs: &[u16],
        minutes: u16,
    ) -> Result<(), AllocError> {
        let mut tried = Vec::new(self.alloc);
        for place in 0..2 * jobs.len() {
            let (job, is_later) = (jobs[place / 2], place % 2 == 0);
            let shift = Shift { is_later, minutes };
            if !is_found(changes.as_slice(), job, shift) {
                tried.push((job, shift))?;
            }
        }
        let found = tried
            .as_slice()
            .par_iter()
            .with_min_len(1)
            .map(|it: &(u16, Shift)| -> Result<Option<Change>, AllocError> {
                self.near_start(it.0, it.1)
            })
            .collect::<Result<Vec<Option<Change>>, AllocError>>(self.rt, self.alloc)??;
        for change in found {
            if let Some(change) = change {
                changes.push(change)?;
            }
        }
        Ok(())
    }

    /// None for a value that can't be.
    fn with_value(&self, tried: Tried, value: u16) -> Option<Member> {
        let hours = self.plan.hours();
        let (from, to) = match tried {
            Tried::Max(_) if value == 0 => return None,
            Tried::Max(job) => return Some(Member::Max(job, value)),
            Tried::Capacity => return Some(Member::Capacity(u8::try_from(value).ok()?)),
            Tried::From => (value, hours.to()),
            Tried::To => (hours.from(), value),
        };
        match Hours::new(u64::from(from), u64::from(to)) {
            Some(hours) => Some(Member::Hours(hours)),
            None => None,
        }
    }

    /// Halves between a safe value of a member and an unsafe one, and adds the last safe one,
    /// unless there are enough changes.
    fn add_value(
        &self,
        changes: &mut Vec<Change>,
        tried: Tried,
        safe: u16,
        unsafe_value: u16,
    ) -> Result<(), AllocError> {
        if self.most <= changes.len() {
            return Ok(());
        }
        let (mut near, mut far) = (safe, unsafe_value);
        for _ in 0..16 {
            let middle = if near < far {
                near.saturating_add(far.saturating_sub(near) / 2)
            } else {
                near.saturating_sub(near.saturating_sub(far) / 2)
            };
            if middle != near {
                let is_safe = match self.with_value(tried, middle) {
                    Some(member) => self.is_safe(&Change::Member(member))?,
                    None => false,
                };
                if is_safe {
                    near = middle;
                } else {
                    far = middle;
                }
            }
        }
        if let Some(member) = self.with_value(tried, near) {
            changes.push(Change::Member(member))?;
        }
        Ok(())
    }

    /// Adds the other modes of a job with which the plan is safe, until there are enough changes.
    fn add_modes(&self, changes: &mut Vec<Change>, job: u16) -> Result<(), AllocError> {
        for mode in [Mode::Wait, Mode::Skip, Mode::Try, Mode::Shared] {
            let change = Change::Member(Member::Mode(job, mode));
            let is_tried = changes.len() < self.most && mode != self.plan.job_at(job).mode();
            if is_tried && self.is_safe(&change)? {
                changes.push(change)?;
            }
        }
        Ok(())
    }

    fn add_declared(&self, changes: &mut Vec<Change>, jobs: &[u16]) -> Result<(), AllocError> {
        for job in jobs {
            self.add_value(changes, Tried::Max(*job), 0, self.plan.job_at(*job).max())?;
        }
        for job in jobs {
            self.add_modes(changes, *job)?;
        }
        Ok(())
    }

    /// Adds changes with which the plan is safe, of these jobs and for all jobs, nearest first,
    /// until there are enough; if there is none, one of two starts.
    pub(crate) fn add_changes(
        &self,
        changes: &mut Vec<Change>,
        jobs: &[u16],
        within: u64,
    ) -> Result<(), AllocError> {
        let within = within.min(MOST_MINUTES) as u16;
        for minutes in 1..=within {
            let is_tried = minutes <= FINE || minutes % FINE == 0 || minutes == within;
            if is_tried && changes.len() < self.most {
                self.add_starts(changes, jobs, minutes)?;
            }
        }
        changes.sort_by_key(|change| match change {
            Change::Start(start) => start.shift.minutes,
            _ => 0,
        })?;
        self.add_declared(changes, jobs)?;
        // where the greatest capacity doesn't help, none does
        let greatest = Change::Member(Member::Capacity(MAX_CAPACITY));
        if changes.len() < self.most && self.is_safe(&greatest)? {
            let (safe, low) = (u16::from(MAX_CAPACITY), u16::from(self.plan.capacity()));
            self.add_value(changes, Tried::Capacity, safe, low)?;
        }
        if !self.plan.anacrontab().lines().is_empty() {
            let (from, to) = (self.plan.hours().from(), self.plan.hours().to());
            self.add_value(changes, Tried::To, from, to)?;
            self.add_value(changes, Tried::From, to, from)?;
        }
        if changes.is_empty() {
            return self.add_pair(changes, jobs, within);
        }
        Ok(())
    }
}
