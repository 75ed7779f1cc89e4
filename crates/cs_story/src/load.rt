use crate::aim::Aim;
use crate::part::{Part, is_of, part_of, weight};
use crate::wanted::Wanted;
use cs_plan::Plan;
use cs_profile::Facts;
use std::alloc::{AllocError, Global};
use std::cmp::Reverse;

fn belongs(facts: &Facts, run: Wanted, part: Part, group: Option<u8>) -> bool {
    let is_member = match group {
        Some(group) => is_of(facts, run.job, group),
        None => true,
    };
    is_member && part_of(facts, run.job) == Some(part)
}

fn heaviest(facts: &Facts, runs: &[Wanted], part: Part, group: Option<u8>) -> Option<Wanted> {
    let mut most = 0;
    let mut found = None;
    for run in runs {
        if belongs(facts, *run, part, group) && weight(facts, run.job) > most {
            most = weight(facts, run.job);
            found = Some(*run);
        }
    }
    found
}

fn add_all(
    chosen: &mut Vec<Wanted>,
    facts: &Facts,
    runs: &[Wanted],
    part: Part,
    group: Option<u8>,
) -> Result<(), AllocError> {
    for run in runs {
        if belongs(facts, *run, part, group) {
            chosen.push(*run)?;
        }
    }
    Ok(())
}

/// Adds the heaviest runs that the lock of a group lets go on at once: all that share it, or one
/// that doesn't.
fn add_group(
    chosen: &mut Vec<Wanted>,
    facts: &Facts,
    runs: &[Wanted],
    group: u8,
) -> Result<(), AllocError> {
    let mut shared: u64 = 0;
    for run in runs {
        if belongs(facts, *run, Part::Sharer, Some(group)) {
            shared = shared.saturating_add(u64::from(weight(facts, run.job)));
        }
    }
    if let Some(run) = heaviest(facts, runs, Part::Holder, Some(group)) {
        if u64::from(weight(facts, run.job)) >= shared {
            chosen.push(run)?;
            return Ok(());
        }
    }
    add_all(chosen, facts, runs, Part::Sharer, Some(group))
}

/// The heaviest runs that can go on at once, the heaviest first.
fn heaviest_together(
    alloc: Global,
    plan: &Plan,
    facts: &Facts,
    runs: &[Wanted],
) -> Result<Vec<Wanted>, AllocError> {
    let mut chosen: Vec<Wanted> = Vec::new(alloc);
    add_all(&mut chosen, facts, runs, Part::Free, None)?;
    for (place, _) in plan.groups().iter().enumerate() {
        add_group(&mut chosen, facts, runs, place as u8)?;
    }
    if let Some(run) = heaviest(facts, runs, Part::CatchUp, None) {
        chosen.push(run)?;
    }
    chosen.sort_by_key(|run| Reverse(weight(facts, run.job)))?;
    Ok(chosen)
}

/// The fewest runs that can go on at once and weigh more than the capacity: as many of the heaviest
/// as it takes.
pub(crate) fn overload(
    alloc: Global,
    plan: &Plan,
    facts: &Facts,
    runs: &[Wanted],
) -> Result<Vec<Aim>, AllocError> {
    let mut sum: u64 = 0;
    let mut chosen: Vec<Wanted> = Vec::new(alloc);
    for run in heaviest_together(alloc, plan, facts, runs)?.as_slice() {
        if sum <= u64::from(plan.capacity()) {
            sum = sum.saturating_add(u64::from(weight(facts, run.job)));
            chosen.push(*run)?;
        }
    }
    let mut aims: Vec<Aim> = Vec::new(alloc);
    aims.push(Aim { runs: chosen })?;
    Ok(aims)
}
