use crate::lock::Lock;
use crate::nodes::Classing;
use crate::numbers::minutes_at;
use crate::pieces::pieces;
use cs_civil::Sequence;
use cs_claims::{CertError, CertFault, Class, DueList, GroupBacklog};
use cs_profile::{Due, Facts};
use cs_wait::{Backlog, BadPiece, Piece};
use std::alloc::{AllocError, Global};

fn due_lists(alloc: Global, facts: &Facts, due: &[Due]) -> Result<Sequence<DueList>, AllocError> {
    let mut lists = Sequence::new(alloc);
    for due in due {
        if let Some(task) = facts.tasks().get(usize::from(due.job)) {
            let minutes = Sequence::from_slice(alloc, task.minutes(*due))?;
            lists.push(DueList {
                job: due.job,
                minutes,
            })?;
        }
    }
    Ok(lists)
}

/// The only errors are `BadEntry`, if the pieces make no backlog, and out of memory.
pub(crate) fn group_backlog(
    alloc: Global,
    group: u8,
    pieces: &[Piece],
) -> Result<GroupBacklog, CertError> {
    match Backlog::new(Vec::from_slice(alloc, pieces)?) {
        Ok(backlog) => Ok(GroupBacklog { group, backlog }),
        Err(BadPiece) => Err(CertError::Fault(CertFault::BadEntry)),
    }
}

/// What waits or runs on days of a kind, for each lock.
fn backlogs(
    alloc: Global,
    locks: &[Lock],
    kind: usize,
) -> Result<Sequence<GroupBacklog>, CertError> {
    let mut backlogs = Sequence::new(alloc);
    for lock in locks {
        let arrivals = match lock.gains.on(kind) {
            Some(arrivals) => arrivals.list.as_slice(),
            None => &[],
        };
        let pieces = pieces(alloc, arrivals, minutes_at(&lock.carries, kind))?;
        if !pieces.is_empty() {
            backlogs.push(group_backlog(alloc, lock.group, &pieces)?)?;
        }
    }
    Ok(backlogs)
}

pub(crate) fn classes_of(
    alloc: Global,
    facts: &Facts,
    classing: &Classing,
) -> Result<Sequence<Class>, CertError> {
    let mut listed = Sequence::new(alloc);
    for kind in classing.firsts.as_slice() {
        listed.push(Class {
            due: due_lists(alloc, facts, facts.due_on(*kind))?,
            backlog: backlogs(alloc, &classing.locks, *kind)?,
        })?;
    }
    Ok(listed)
}
