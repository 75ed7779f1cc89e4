use crate::aim::Aim;
use crate::chain::{Chain, Chains, Tried, chains_for};
use crate::part::{is_of, takes_lock_of};
use crate::stay::{Stay, stays_for};
use crate::wanted::{Wanted, is_wanted, task_of};
use cs_profile::{Calendar, Facts};
use std::alloc::{AllocError, Global};

/// How a story is to reach its aim.
#[derive(Drop)]
pub(crate) struct Plot<'a> {
    pub facts: &'a Facts,
    pub runs: Vec<Wanted>,
    /// The chains by which some of them start late.
    pub chains: Vec<Chain>,
    /// Their runs of mode try, by the minute at which they are due.
    pub tried: Vec<Tried>,
    /// When the daemon is up.
    pub stays: Vec<Stay>,
}

fn waits_for(facts: &Facts, chain: Chain, run: Wanted) -> bool {
    let waits = match task_of(facts, run.job) {
        Some(task) => task.mode.waits(),
        None => false,
    };
    waits && is_of(facts, run.job, chain.group) && chain.from <= run.due && run.due < chain.to
}

impl<'a> Plot<'a> {
    /// The plot of an aim, if the runs that are to start late can.
    pub(crate) fn of(
        alloc: Global,
        facts: &'a Facts,
        calendar: &Calendar,
        aim: &Aim,
    ) -> Result<Option<Plot<'a>>, AllocError> {
        let aimed = aim.runs.as_slice();
        let Some(found) = chains_for(alloc, facts, calendar, aimed)? else {
            return Ok(None);
        };
        let Chains {
            list: chains,
            tried,
        } = found;
        // a run that waits as others of its group do starts with them
        let mut runs: Vec<Wanted> = Vec::new(alloc);
        for run in aimed {
            let mut later = *run;
            for chain in chains.as_slice() {
                if waits_for(facts, *chain, *run) {
                    later.start = later.start.max(chain.to);
                }
            }
            runs.push(later)?;
        }
        let stays = stays_for(alloc, facts, chains.as_slice(), runs.as_slice())?;
        Ok(Some(Plot {
            facts,
            runs,
            chains,
            tried,
            stays,
        }))
    }

    pub(crate) fn wants(&self, job: u16, due: u64) -> bool {
        is_wanted(self.runs.as_slice(), job, due)
    }

    /// Whether a run of this job that begins in this minute becomes part of a chain.
    pub(crate) fn links(&self, job: u16, minute: u64) -> bool {
        for chain in self.chains.as_slice() {
            if chain.from <= minute
                && minute < chain.to
                && takes_lock_of(self.facts, job, chain.group)
            {
                return true;
            }
        }
        false
    }

    pub(crate) fn catch_up(&self) -> Option<Wanted> {
        for run in self.runs.as_slice() {
            if let Some(task) = task_of(self.facts, run.job) {
                if !task.is_cron {
                    return Some(*run);
                }
            }
        }
        None
    }
}
