//! Who comes one after the other for the lock of a group, day by day.
use crate::gains::{MINUTES_OF_DAY, waits_for};
use cs_profile::{Calendar, Due, Facts, Task};
use std::alloc::{AllocError, Global};

/// When the lock is free is followed no further ahead than this many minutes.
const MOST_AHEAD: u32 = 11_520;

#[derive(Clone, Copy)]
pub(crate) struct QueuedRun {
    pub(crate) job: u16,
    /// The minute at which it is due, from the start of the day, or of the first of some days.
    pub(crate) due: u32,
    /// For how many minutes it keeps the lock from the next: one less than its longest time, since
    /// the next begins in the minute in which it ends. A run that shares the lock keeps it from
    /// nobody, and waits until the others have had it.
    pub(crate) work: u32,
    /// Whether it is of mode try: it has the lock from its due minute on, if the runs before it
    /// have ended by then, or never.
    pub(crate) is_tried: bool,
    /// When the next run has the lock, if all that are due up to this one have it first.
    pub(crate) free: u32,
    /// When it has the lock at the latest.
    pub(crate) start: u32,
}

impl QueuedRun {
    /// When it has had the lock, if it is of mode try and gets it.
    pub(crate) fn tried(self) -> Option<u32> {
        if self.is_tried {
            Some(self.due.saturating_add(self.work))
        } else {
            None
        }
    }

    /// When the next run has the lock, if those before this one leave it free from minute `free`
    /// on. A run of mode try doesn't count if they keep the lock for longer.
    fn free_after(self, free: u32) -> u32 {
        match self.tried() {
            Some(tried) => free.max(tried),
            None => free.max(self.due).saturating_add(self.work),
        }
    }
}

#[derive(Drop)]
pub(crate) struct QueueDay {
    /// By the minute at which they are due, those of mode try before others.
    pub(crate) runs: Vec<QueuedRun>,
    /// For how many minutes they keep the lock together, if those of mode try don't get it.
    work: u32,
    /// From which minute on the lock is free, if it is free when the day begins.
    free: u32,
}

#[derive(Drop)]
pub(crate) struct Queue {
    /// By profile.
    days: Vec<QueueDay>,
    /// From which minute of the day on the lock is free, for all that was due before, on each day
    /// of the calendar.
    free: Vec<u32>,
    /// For how many minutes runs that wait for the lock may keep it from the next, each once.
    pub(crate) works: Vec<u32>,
}

pub(crate) fn work_of(task: &Task) -> u32 {
    if task.mode.shares() {
        return 0;
    }
    u32::from(task.max).saturating_sub(1)
}

/// The runs that take the lock of the group on a day on which these jobs are due, by the minute at
/// which they are due, those of mode try before others.
fn runs_on(
    alloc: Global,
    tasks: &[Task],
    due: &[Due],
    group: u8,
) -> Result<Vec<QueuedRun>, AllocError> {
    let mut runs = Vec::new(alloc);
    for due in due {
        if let Some(task) = tasks.get(usize::from(due.job)) {
            if task.takes_lock_of(group) {
                for minute in task.minutes(*due) {
                    let minute = u32::from(*minute);
                    runs.push(QueuedRun {
                        job: due.job,
                        due: minute,
                        work: work_of(task),
                        is_tried: task.is_try(),
                        free: 0,
                        start: minute,
                    })?;
                }
            }
        }
    }
    runs.sort_by_key(|run| (run.due, !run.is_tried))?;
    Ok(runs)
}

/// Lets the runs have the lock one after the other, from minute `free` on, and returns when it is
/// free after them.
pub(crate) fn line_up(runs: &mut [QueuedRun], free: u32) -> u32 {
    let mut free = free;
    for run in runs.iter_mut() {
        free = run.free_after(free);
        run.free = free;
    }
    free
}

fn queue_days(alloc: Global, facts: &Facts, group: u8) -> Result<Vec<QueueDay>, AllocError> {
    let mut days = Vec::new(alloc);
    for due in facts.due() {
        let mut runs = runs_on(alloc, facts.tasks(), due.as_slice(), group)?;
        let free = line_up(runs.as_mut_slice(), 0);
        let mut work: u32 = 0;
        for run in runs.as_slice() {
            if !run.is_tried {
                work = work.saturating_add(run.work);
            }
        }
        days.push(QueueDay { runs, work, free })?;
    }
    Ok(days)
}

fn free_by_day(alloc: Global, days: &[QueueDay], profiles: &[u16]) -> Result<Vec<u32>, AllocError> {
    let mut by_day = Vec::new(alloc);
    let mut free: u32 = 0;
    for profile in profiles {
        by_day.push(free)?;
        if let Some(day) = days.get(usize::from(*profile)) {
            let ahead = free.saturating_add(day.work).max(day.free);
            free = ahead.saturating_sub(MINUTES_OF_DAY).min(MOST_AHEAD);
        }
    }
    Ok(by_day)
}

fn works_of(alloc: Global, tasks: &[Task], group: u8) -> Result<Vec<u32>, AllocError> {
    let mut works: Vec<u32> = Vec::new(alloc);
    for task in tasks {
        let work = work_of(task);
        if waits_for(task, group) && !works.as_slice().contains(&work) {
            works.push(work)?;
        }
    }
    Ok(works)
}

impl Queue {
    pub(crate) fn of(
        alloc: Global,
        facts: &Facts,
        calendar: &Calendar,
        group: u8,
    ) -> Result<Queue, AllocError> {
        let days = queue_days(alloc, facts, group)?;
        Ok(Queue {
            free: free_by_day(alloc, days.as_slice(), calendar.profiles())?,
            days,
            works: works_of(alloc, facts.tasks(), group)?,
        })
    }

    /// From which minute of the day on the lock is free on a day, by the day's place in the
    /// calendar.
    pub(crate) fn free_on(&self, place: usize) -> u32 {
        self.free.get(place).copied().unwrap_or(0)
    }

    pub(crate) fn runs_of(&self, profile: u16) -> &[QueuedRun] {
        match self.days.get(usize::from(profile)) {
            Some(day) => day.runs.as_slice(),
            None => &[],
        }
    }
}
