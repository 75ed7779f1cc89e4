use crate::due::Due;
use cs_crontab::When;
use cs_history::Mode;
use cs_plan::Plan;
use cs_schedule::Schedule;
use std::alloc::{AllocError, Global};

/// What a job of a plan does, as the maker sees it.
#[derive(Drop)]
pub struct Task {
    /// Whether it is a cron job; else it is an anacron job, and catches up.
    pub is_cron: bool,
    pub mode: Mode,
    /// The number of its group among the plan's, if it belongs to one.
    pub group: Option<u8>,
    /// Whether that group is exclusive.
    pub is_exclusive: bool,
    pub weight: u8,
    /// The longest time of a run, in minutes.
    pub max: u16,
    /// For how many minutes it is put off in its pass; 0 for a cron job.
    pub delay: u32,
    /// At which minutes it is due on its days, rising: a list for all days on which they are the
    /// same, by the zone's clock. None is empty. An anacron job has none.
    pub lists: Vec<Vec<u16>>,
}

impl Task {
    /// Returns whether it is of mode try: a run that finds its lock held doesn't start.
    pub fn is_try(&self) -> bool {
        self.mode == Mode::Try
    }

    /// Returns whether it is a cron job that takes the lock of this group.
    pub fn takes_lock_of(&self, group: u8) -> bool {
        self.is_cron && self.mode.takes_lock() && self.group == Some(group)
    }

    /// Returns at which minutes it is due on such days, rising.
    pub fn minutes(&self, due: Due) -> &[u16] {
        match self.lists.get(usize::from(due.list)) {
            Some(list) => list.as_slice(),
            None => &[],
        }
    }
}

pub(crate) fn schedule_of(plan: &Plan, number: usize) -> Option<&Schedule> {
    match plan.crontab().lines().get(number)?.when() {
        When::At(schedule) => Some(schedule),
        When::Reboot => None,
    }
}

pub(crate) fn tasks_of(alloc: Global, plan: &Plan) -> Result<Vec<Task>, AllocError> {
    let mut tasks = Vec::new(alloc);
    for (number, job) in plan.jobs().iter().enumerate() {
        let is_cron = number < plan.crons();
        let place = number.saturating_sub(plan.crons());
        let delay = match plan.anacrontab().lines().get(place) {
            Some(line) if !is_cron => line.delay(),
            _ => 0,
        };
        tasks.push(Task {
            is_cron,
            mode: job.mode(),
            group: job.group(),
            is_exclusive: plan.is_exclusive(job.group()),
            weight: job.weight(),
            max: job.max(),
            delay,
            lists: Vec::new(alloc),
        })?;
    }
    Ok(tasks)
}
