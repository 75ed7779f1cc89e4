use crate::breach::{Breach, Rule};
use crate::collision::collisions;
use crate::load::overload;
use crate::part::takes_lock_of;
use crate::wanted::{Wanted, runs_of, task_of};
use cs_plan::Plan;
use cs_profile::Facts;
use std::alloc::{AllocError, Global};

pub(crate) const MAX_AIMS: usize = 8;

/// What a story may aim at: that these runs go on at once. Those that begin in one minute begin in
/// this order.
#[derive(Drop)]
pub(crate) struct Aim {
    pub runs: Vec<Wanted>,
}

impl Aim {
    pub(crate) fn pair(alloc: Global, one: Wanted, other: Wanted) -> Result<Aim, AllocError> {
        Ok(Aim {
            runs: Vec::from_slice(alloc, &[one, other])?,
        })
    }

    /// How many of the runs have to wait.
    pub(crate) fn queueing(&self) -> usize {
        let mut queueing: usize = 0;
        for run in self.runs.as_slice() {
            queueing = queueing.saturating_add(usize::from(run.queues()));
        }
        queueing
    }
}

/// Pairs the skip job with each of the plainest runs that take its group's lock.
fn blocked(
    alloc: Global,
    facts: &Facts,
    runs: &[Wanted],
    barred: Wanted,
) -> Result<Vec<Aim>, AllocError> {
    let mut aims: Vec<Aim> = Vec::new(alloc);
    let group = match task_of(facts, barred.job) {
        Some(task) => task.group,
        None => None,
    };
    let Some(group) = group else {
        return Ok(aims);
    };
    for run in runs {
        if aims.len() >= MAX_AIMS {
            break;
        }
        if *run != barred && takes_lock_of(facts, run.job, group) {
            aims.push(Aim::pair(alloc, *run, barred)?)?;
        }
    }
    Ok(aims)
}

/// What a story of this breach may aim at, the plainest first.
pub(crate) fn aims(
    alloc: Global,
    plan: &Plan,
    facts: &Facts,
    breach: &Breach,
) -> Result<Vec<Aim>, AllocError> {
    let runs = runs_of(alloc, plan, facts, breach)?;
    match breach.rule {
        Rule::Collision => collisions(alloc, plan, facts, runs.as_slice()),
        Rule::OverCapacity => overload(alloc, plan, facts, runs.as_slice()),
        Rule::SkipBlocked { skip } => {
            let barred = Wanted {
                job: skip,
                due: breach.at,
                start: breach.at,
            };
            blocked(alloc, facts, runs.as_slice(), barred)
        },
    }
}
