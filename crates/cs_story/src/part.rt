use crate::wanted::task_of;
use cs_profile::Facts;

/// How the runs of a job go on beside others.
#[derive(Clone, Copy, PartialEq, Eq)]
pub(crate) enum Part {
    /// A cron job without a lock.
    Free,
    /// One that holds the lock of its group alone.
    Holder,
    /// One that shares the lock of its group.
    Sharer,
    /// An anacron job.
    CatchUp,
}

impl Part {
    pub(crate) fn takes_lock(self) -> bool {
        self == Part::Holder || self == Part::Sharer
    }
}

pub(crate) fn part_of(facts: &Facts, job: u16) -> Option<Part> {
    let task = task_of(facts, job)?;
    if !task.is_cron {
        return Some(Part::CatchUp);
    }
    if !task.mode.takes_lock() {
        return Some(Part::Free);
    }
    Some(if task.mode.shares() {
        Part::Sharer
    } else {
        Part::Holder
    })
}

pub(crate) fn is_of(facts: &Facts, job: u16, group: u8) -> bool {
    match task_of(facts, job) {
        Some(task) => task.group == Some(group),
        None => false,
    }
}

pub(crate) fn takes_lock_of(facts: &Facts, job: u16, group: u8) -> bool {
    match task_of(facts, job) {
        Some(task) => task.mode.takes_lock() && task.group == Some(group),
        None => false,
    }
}

pub(crate) fn weight(facts: &Facts, job: u16) -> u8 {
    match task_of(facts, job) {
        Some(task) => task.weight,
        None => 0,
    }
}
