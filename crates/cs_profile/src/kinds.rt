use crate::task::Task;
use cs_civil::{DayKind, all_kinds, kind_number, next_kinds};
use std::alloc::{AllocError, Global};

pub(crate) fn kinds(alloc: Global) -> Result<Vec<DayKind>, AllocError> {
    let mut kinds = Vec::new(alloc);
    for kind in all_kinds() {
        kinds.push(kind)?;
    }
    Ok(kinds)
}

pub(crate) fn successors(alloc: Global, kinds: &[DayKind]) -> Result<Vec<[u16; 2]>, AllocError> {
    let mut successors = Vec::new(alloc);
    for kind in kinds {
        let next = next_kinds(*kind);
        let mut numbers = [0, 0];
        for kind in next.as_slice() {
            numbers = [numbers[1], kind_number(*kind)];
        }
        if next.len() < 2 {
            numbers[0] = numbers[1];
        }
        successors.push(numbers)?;
    }
    Ok(successors)
}

/// Splits this many sorts of days by a job's minutes: kinds get one sort exactly if they had one,
/// and the job has the same list of minutes on both, or none. Sorts are numbered from 0, in order
/// of their first kind. Returns how many there are, too.
fn told_apart(
    alloc: Global,
    (sorts, count): (&[u16], u16),
    numbers: &[u16],
    lists: usize,
) -> Result<(Vec<u16>, u16), AllocError> {
    let choices = lists.saturating_add(1);
    let places = choices.saturating_mul(usize::from(count));
    let mut seen: Vec<Option<u16>> = Vec::from_elem(alloc, None, places)?;
    let mut count: u16 = 0;
    let mut finer = Vec::with_capacity(alloc, sorts.len())?;
    for (sort, number) in sorts.iter().zip(numbers) {
        let first = usize::from(*sort).saturating_mul(choices);
        let place = first.saturating_add(usize::from(*number));
        let number = match seen.get(place) {
            Some(Some(number)) => *number,
            _ => count,
        };
        if number == count {
            if let Some(new) = seen.get_mut(place) {
                *new = Some(number);
            }
            count = count.saturating_add(1);
        }
        finer.push(number)?;
    }
    Ok((finer, count))
}

/// The sort of each kind of day, by the minutes of the cron jobs that take the lock of the group,
/// or of all if there is none. `rows` has the number of each cron job's list by kind.
pub(crate) fn sorts(
    alloc: Global,
    tasks: &[Task],
    rows: &[Vec<u16>],
    kinds: usize,
    group: Option<u8>,
) -> Result<Vec<u16>, AllocError> {
    let mut sorts = Vec::from_elem(alloc, 0, kinds)?;
    let mut count = 1;
    for (task, numbers) in tasks.iter().zip(rows) {
        let is_seen = match group {
            Some(group) => task.takes_lock_of(group),
            None => true,
        };
        if is_seen && !numbers.is_empty() {
            let lists = task.lists.len();
            (sorts, count) = told_apart(alloc, (&sorts, count), numbers, lists)?;
        }
    }
    Ok(sorts)
}
