use crate::clock::Clock;
use crate::due::{Due, numbers_by_kind};
use crate::kinds;
use crate::task::{Task, schedule_of, tasks_of};
use cs_civil::DayKind;
use cs_plan::Plan;
use std::alloc::{AllocError, Global};

/// What the maker reads off a plan once.
#[derive(Drop)]
pub struct Facts {
    tasks: Vec<Task>,
    kinds: Vec<DayKind>,
    successors: Vec<[u16; 2]>,
    profiles: Vec<u16>,
    due: Vec<Vec<Due>>,
    /// For each cron job the numbers of its lists by kind.
    rows: Vec<Vec<u16>>,
}

/// For each cron job the numbers of its lists by kind. Adds the lists to the tasks.
fn rows_of(
    alloc: Global,
    plan: &Plan,
    clock: &Clock,
    kinds: &[DayKind],
    tasks: &mut [Task],
) -> Result<Vec<Vec<u16>>, AllocError> {
    let mut rows = Vec::new(alloc);
    for (number, task) in tasks.iter_mut().enumerate() {
        let row = match schedule_of(plan, number) {
            Some(schedule) => numbers_by_kind(alloc, clock, schedule, kinds, &mut task.lists)?,
            None => Vec::new(alloc),
        };
        rows.push(row)?;
    }
    Ok(rows)
}

fn due_on(alloc: Global, rows: &[Vec<u16>], kind: usize) -> Result<Vec<Due>, AllocError> {
    let mut due = Vec::new(alloc);
    for (job, numbers) in rows.iter().enumerate() {
        let number = numbers.get(kind).copied().unwrap_or(0);
        if number > 0 {
            due.push(Due {
                job: u16::try_from(job).unwrap_or(u16::MAX),
                list: number - 1,
            })?;
        }
    }
    Ok(due)
}

fn due_lists(
    alloc: Global,
    rows: &[Vec<u16>],
    profiles: &[u16],
) -> Result<Vec<Vec<Due>>, AllocError> {
    let mut lists = Vec::new(alloc);
    for (kind, profile) in profiles.iter().enumerate() {
        if usize::from(*profile) == lists.len() {
            lists.push(due_on(alloc, rows, kind)?)?;
        }
    }
    Ok(lists)
}

impl Facts {
    /// Returns what there is to know of a plan. The only error is out of memory.
    pub fn of(alloc: Global, plan: &Plan) -> Result<Facts, AllocError> {
        let mut tasks = tasks_of(alloc, plan)?;
        let kinds = kinds::kinds(alloc)?;
        let successors = kinds::successors(alloc, kinds.as_slice())?;
        let clock = Clock::of(alloc, *plan.zone(), kinds.as_slice(), successors.as_slice())?;
        let rows = rows_of(alloc, plan, &clock, kinds.as_slice(), tasks.as_mut_slice())?;
        let profiles = kinds::sorts(alloc, tasks.as_slice(), rows.as_slice(), kinds.len(), None)?;
        let due = due_lists(alloc, rows.as_slice(), profiles.as_slice())?;
        Ok(Facts {
            tasks,
            kinds,
            successors,
            profiles,
            due,
            rows,
        })
    }

    /// Returns what each job does, by number.
    pub fn tasks(&self) -> &[Task] {
        self.tasks.as_slice()
    }

    /// Returns all kinds of days, by number.
    pub fn kinds(&self) -> &[DayKind] {
        self.kinds.as_slice()
    }

    /// Returns the numbers of the two kinds that can come after each kind, by number; twice the
    /// same if only one can.
    pub fn successors(&self) -> &[[u16; 2]] {
        self.successors.as_slice()
    }

    /// Returns the profile of each kind, by number. Kinds have the same profile exactly if the same
    /// cron jobs are due on them, at the same minutes. Profiles are numbered from 0, in order of
    /// their first kind.
    pub fn profiles(&self) -> &[u16] {
        self.profiles.as_slice()
    }

    /// Returns the sort of each kind for the lock of a group, by number. Kinds are of the same sort
    /// exactly if the same cron jobs that take the lock are due on them, at the same minutes. Sorts
    /// are numbered from 0, in order of their first kind. The only error is out of memory.
    pub fn sorts(&self, alloc: Global, group: u8) -> Result<Vec<u16>, AllocError> {
        let kinds = self.kinds.len();
        kinds::sorts(alloc, &self.tasks, &self.rows, kinds, Some(group))
    }

    /// Returns the cron jobs that are due on days of each profile, rising.
    pub fn due(&self) -> &[Vec<Due>] {
        self.due.as_slice()
    }

    /// Returns the cron jobs that are due on days of a kind, by its number, rising.
    pub fn due_on(&self, kind: usize) -> &[Due] {
        let profile = self.profiles.get(kind).copied().unwrap_or(u16::MAX);
        match self.due.get(usize::from(profile)) {
            Some(due) => due.as_slice(),
            None => &[],
        }
    }
}
