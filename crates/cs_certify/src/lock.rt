use crate::carry::least_carries;
use crate::gains::{Gains, is_waited_for};
use crate::reaches::{Longest, longest_waits};
use cs_claims::MAX_GROUPS;
use cs_profile::Facts;
use std::alloc::{AllocError, Global};

/// The greatest reach of a certificate, in minutes.
pub(crate) const MOST_REACH: u32 = 4_320;

#[derive(Drop)]
pub(crate) struct Lock {
    pub(crate) group: u8,
    pub(crate) gains: Gains,
    /// What may be left when days of each kind begin, by the kind's number; empty if nothing is.
    pub(crate) carries: Vec<u32>,
    /// How long runs of the jobs that wait for it may go on, by the job's number.
    pub(crate) longest: Vec<Longest>,
}

/// What is left when days of each kind begin, by the kind's number, with days of one profile taken
/// to be alike. `None` if that changes the longest waits.
fn coarse_carries(
    alloc: Global,
    facts: &Facts,
    group: u8,
    gains: &Gains,
    longest: &[Longest],
) -> Result<Option<Vec<u32>>, AllocError> {
    let Some(carries) = least_carries(alloc, facts, gains, facts.profiles())? else {
        return Ok(None);
    };
    let waits = longest_waits(alloc, facts, group, gains, carries.as_slice())?;
    if waits.as_slice() == longest {
        Ok(Some(carries))
    } else {
        Ok(None)
    }
}

/// The lock of this group. `None` if what waits for it has no bound, or a run waits for longer than
/// three days. Days of one profile are taken to be alike if that makes no reach longer. `kinds` are
/// the numbers of all kinds.
fn lock_of(
    alloc: Global,
    facts: &Facts,
    group: u8,
    kinds: &[u16],
) -> Result<Option<Lock>, AllocError> {
    let gains = Gains::of(alloc, facts, group)?;
    let Some(least) = least_carries(alloc, facts, &gains, kinds)? else {
        return Ok(None);
    };
    let longest = longest_waits(alloc, facts, group, &gains, least.as_slice())?;
    for wait in longest.as_slice() {
        if wait.reach > MOST_REACH {
            return Ok(None);
        }
    }
    let coarse = if least.is_empty() {
        None
    } else {
        coarse_carries(alloc, facts, group, &gains, longest.as_slice())?
    };
    Ok(Some(Lock {
        group,
        gains,
        carries: coarse.unwrap_or(least),
        longest,
    }))
}

/// The locks that jobs wait for, by group. `None` if one has no bound by which runs wait for at
/// most three days.
pub(crate) fn locks(alloc: Global, facts: &Facts) -> Result<Option<Vec<Lock>>, AllocError> {
    let mut kinds = Vec::new(alloc);
    for kind in 0..facts.kinds().len() {
        kinds.push(u16::try_from(kind).unwrap_or(u16::MAX))?;
    }
    let mut locks = Vec::new(alloc);
    for group in 0..MAX_GROUPS {
        if is_waited_for(facts, group) {
            match lock_of(alloc, facts, group, kinds.as_slice())? {
                Some(lock) => locks.push(lock)?,
                None => return Ok(None),
            }
        }
    }
    Ok(Some(locks))
}
