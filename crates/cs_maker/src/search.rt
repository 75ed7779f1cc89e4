//! The search for a counterexample: windows in which no job waits come first.
use crate::exact::{exact_story, greatest_reaches};
use crate::maker::Maker;
use crate::reason::Reason;
use crate::sweep::first_breach;
use cs_certify::Bounds;
use cs_history::Script;
use cs_overlap::Roles;
use cs_plan::Plan;
use cs_profile::{Calendar, Facts};
use cs_story::{Breach, tell};
use std::alloc::{AllocError, Global};

/// How many steps a search takes at most for each job of the plan.
const STEPS_OF_JOB: u64 = 4_000_000;

/// How many looks its stories take at most, and how many more for each job.
const MOST_LOOKS: u64 = 400_000;

const LOOKS_OF_JOB: u64 = 50_000;

/// What a search may still do.
#[derive(Drop)]
pub(crate) struct Budget {
    /// How often it may compare a window with a minute.
    pub(crate) steps: u64,
    /// How often its stories may look at an event or a run.
    pub(crate) looks: u64,
}

impl Budget {
    fn of(plan: &Plan) -> Budget {
        let jobs = plan.jobs().len() as u64;
        Budget {
            steps: jobs.saturating_mul(STEPS_OF_JOB),
            looks: jobs.saturating_mul(LOOKS_OF_JOB).saturating_add(MOST_LOOKS),
        }
    }
}

/// What a search for a counterexample reads. Only a plan that is refused has one.
#[derive(Drop)]
pub(crate) struct Search<'a> {
    pub(crate) plan: &'a Plan,
    pub(crate) facts: &'a Facts,
    pub(crate) calendar: Calendar,
    pub(crate) roles: Roles,
}

/// A counterexample with jobs that wait as long as they can, if that is unbounded, or this reason.
fn unbounded(
    alloc: Global,
    search: &Search<'_>,
    reason: Reason,
    budget: &mut Budget,
) -> Result<Result<Script, Reason>, AllocError> {
    let reaches = greatest_reaches(alloc, search.facts)?;
    Ok(exact_story(alloc, search, reaches.as_slice(), budget)?.ok_or(reason))
}

/// A counterexample with jobs that wait as long as they can within these bounds. `NotChecked` if
/// the windows of these bounds break no rule, so that the checker had nothing to refuse.
fn bounded(
    alloc: Global,
    search: &Search<'_>,
    bounds: &Bounds,
    budget: &mut Budget,
) -> Result<Result<Script, Reason>, AllocError> {
    let reaches = bounds.reaches.as_slice();
    if first_breach(alloc, search, reaches, &mut u64::MAX)?.is_none() {
        return Ok(Err(Reason::NotChecked));
    }
    Ok(exact_story(alloc, search, reaches, budget)?.ok_or(Reason::NoScript))
}

fn plain(
    alloc: Global,
    search: &Search<'_>,
    breach: &Breach,
    budget: &mut Budget,
) -> Result<Result<Script, Reason>, AllocError> {
    let told = tell(
        alloc,
        search.plan,
        search.facts,
        &search.calendar,
        breach,
        &mut budget.looks,
    )?;
    match told {
        Some(script) => Ok(Ok(script)),
        None => unbounded(alloc, search, Reason::NoScript, budget),
    }
}

impl Maker<'_> {
    /// Returns a script that should show the plan unsafe, or why there is none: `NoReach` if
    /// nothing bounds how long jobs wait, `NoScript` if windows break a rule, else `NotChecked`.
    /// The only error is out of memory.
    pub fn counterexample(&self, alloc: Global) -> Result<Result<Script, Reason>, AllocError> {
        let search = Search {
            plan: self.plan,
            facts: &self.facts,
            calendar: Calendar::of(alloc, &self.facts)?,
            roles: Roles::of(alloc, self.plan)?,
        };
        let mut budget = Budget::of(self.plan);
        let mut steps = match &self.bounds {
            Some(_) => u64::MAX,
            None => budget.steps,
        };
        if let Some(breach) = first_breach(alloc, &search, &[], &mut steps)? {
            return plain(alloc, &search, &breach, &mut budget);
        }
        budget.steps = budget.steps.min(steps);
        match &self.bounds {
            Some(bounds) => bounded(alloc, &search, bounds, &mut budget),
            None => unbounded(alloc, &search, Reason::NoReach, &mut budget),
        }
    }
}
