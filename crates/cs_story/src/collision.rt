use crate::aim::{Aim, MAX_AIMS};
use crate::part::{Part, is_of, part_of};
use crate::wanted::Wanted;
use cs_plan::Plan;
use cs_profile::Facts;
use std::alloc::{AllocError, Global};

/// How many runs of one part are looked at.
const PLAINEST: usize = 3;

fn plainest(
    alloc: Global,
    facts: &Facts,
    runs: &[Wanted],
    group: u8,
) -> Result<Vec<Wanted>, AllocError> {
    let mut chosen: Vec<Wanted> = Vec::new(alloc);
    for run in runs {
        let part = part_of(facts, run.job);
        let mut alike: usize = 0;
        for other in chosen.as_slice() {
            let is_alike = part_of(facts, other.job) == part;
            alike = alike.saturating_add(usize::from(is_alike));
        }
        if is_of(facts, run.job, group) && alike < PLAINEST {
            chosen.push(*run)?;
        }
    }
    Ok(chosen)
}

/// Whether two runs of one exclusive group can go on at once. Its lock keeps its own takers apart,
/// and anacron its jobs.
fn can_clash(facts: &Facts, one: Wanted, other: Wanted) -> bool {
    let Some(one) = part_of(facts, one.job) else {
        return false;
    };
    let Some(other) = part_of(facts, other.job) else {
        return false;
    };
    let is_locked = one.takes_lock() && other.takes_lock();
    let is_in_turn = one == Part::CatchUp && other == Part::CatchUp;
    !is_locked && !is_in_turn
}

fn add_pairs(
    alloc: Global,
    aims: &mut Vec<Aim>,
    facts: &Facts,
    runs: &[Wanted],
) -> Result<(), AllocError> {
    for (place, other) in runs.iter().enumerate() {
        for one in &runs[..place] {
            if can_clash(facts, *one, *other) {
                aims.push(Aim::pair(alloc, *one, *other)?)?;
            }
        }
    }
    Ok(())
}

pub(crate) fn collisions(
    alloc: Global,
    plan: &Plan,
    facts: &Facts,
    runs: &[Wanted],
) -> Result<Vec<Aim>, AllocError> {
    let mut aims: Vec<Aim> = Vec::new(alloc);
    for (place, group) in plan.groups().iter().enumerate() {
        if group.is_exclusive() {
            let members = plainest(alloc, facts, runs, place as u8)?;
            add_pairs(alloc, &mut aims, facts, members.as_slice())?;
        }
    }
    aims.sort_by_key(|aim| aim.queueing())?;
    aims.truncate(MAX_AIMS);
    Ok(aims)
}
