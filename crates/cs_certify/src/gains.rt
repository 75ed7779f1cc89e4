//! What arrives for the lock of a group day by day, and what that leaves for the day after.
use crate::numbers::{first_places, number_at};
use cs_profile::{Due, Facts, Task};
use std::alloc::{AllocError, Global};

pub(crate) const MINUTES_OF_DAY: u32 = cs_civil::MINUTES_OF_DAY as u32;

/// Runs that are due at one minute and take the lock of a group.
#[derive(Clone, Copy)]
pub(crate) struct Arrival {
    /// The minute of the day.
    pub(crate) minute: u32,
    /// How many minutes they take together, one after the other.
    pub(crate) work: u32,
}

impl Arrival {
    /// From which minute on the lock is free, if it would be free from `free` on without these.
    pub(crate) fn free_after(&self, free: u32) -> u32 {
        free.max(self.minute).saturating_add(self.work)
    }
}

/// What arrives for the lock of a group on a day.
#[derive(Drop)]
pub(crate) struct Arrivals {
    /// By minute, rising. Minutes at which nothing arrives are missing.
    pub(crate) list: Vec<Arrival>,
    /// How many minutes all of it takes together.
    work: u32,
    /// What is left of it when the day ends, if nothing was left from the day before.
    rest: u32,
}

impl Arrivals {
    /// What is left when a day ends, if `carry` was left when it began.
    pub(crate) fn left(&self, carry: u32) -> u32 {
        let through = carry.saturating_add(self.work);
        through.saturating_sub(MINUTES_OF_DAY).max(self.rest)
    }
}

pub(crate) fn waits_for(task: &Task, group: u8) -> bool {
    task.is_cron && task.mode.waits() && task.group == Some(group)
}

pub(crate) fn is_waited_for(facts: &Facts, group: u8) -> bool {
    for task in facts.tasks() {
        if waits_for(task, group) {
            return true;
        }
    }
    false
}

fn work_by_minute(
    alloc: Global,
    tasks: &[Task],
    due: &[Due],
    group: u8,
) -> Result<Vec<u32>, AllocError> {
    let mut work: Vec<u32> = Vec::from_elem(alloc, 0, MINUTES_OF_DAY as usize)?;
    for due in due {
        if let Some(task) = tasks.get(usize::from(due.job)) {
            if task.takes_lock_of(group) {
                for minute in task.minutes(*due) {
                    if let Some(work) = work.get_mut(usize::from(*minute)) {
                        *work = work.saturating_add(u32::from(task.max));
                    }
                }
            }
        }
    }
    Ok(work)
}

fn arrivals_of(
    alloc: Global,
    tasks: &[Task],
    due: &[Due],
    group: u8,
) -> Result<Arrivals, AllocError> {
    let by_minute = work_by_minute(alloc, tasks, due, group)?;
    let mut list = Vec::new(alloc);
    let mut sum: u32 = 0;
    let mut free: u32 = 0;
    for (minute, work) in (0..MINUTES_OF_DAY).zip(by_minute.as_slice()) {
        if *work > 0 {
            let arrival = Arrival {
                minute,
                work: *work,
            };
            sum = sum.saturating_add(arrival.work);
            free = arrival.free_after(free);
            list.push(arrival)?;
        }
    }
    Ok(Arrivals {
        list,
        work: sum,
        rest: free.saturating_sub(MINUTES_OF_DAY),
    })
}

/// What arrives for the lock of a group on days of each kind.
#[derive(Drop)]
pub(crate) struct Gains {
    /// The sort of each kind, as [`Facts::sorts`] has it.
    pub(crate) sorts: Vec<u16>,
    by_sort: Vec<Arrivals>,
}

impl Gains {
    pub(crate) fn of(alloc: Global, facts: &Facts, group: u8) -> Result<Gains, AllocError> {
        let sorts = facts.sorts(alloc, group)?;
        let mut by_sort = Vec::new(alloc);
        for kind in first_places(alloc, &sorts)?.as_slice() {
            let due = facts.due_on(*kind);
            by_sort.push(arrivals_of(alloc, facts.tasks(), due, group)?)?;
        }
        Ok(Gains { sorts, by_sort })
    }

    pub(crate) fn on(&self, kind: usize) -> Option<&Arrivals> {
        self.by_sort.get(usize::from(number_at(&self.sorts, kind)))
    }
}
