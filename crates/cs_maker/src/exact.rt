//! Counterexamples with jobs that wait for a lock, from windows as long as runs can really go on.
ghost use Rattle.std.specs.Prelude.{◌≤◌, length};

use crate::breaches::{breach_on, broken_by};
use crate::search::{Budget, Search};
use crate::stretches::days_of;
use crate::sweep::steps_held;
use cs_certify::ExactWaits;
use cs_civil::{Day, MINUTES_OF_DAY, kind_of};
use cs_classes::{Chain, occupied};
use cs_history::Script;
use cs_profile::Facts;
use cs_story::{Breach, tell};
use cs_windows::{JobReach, Occupied, Window, windows_on};
use std::alloc::{AllocError, Global};

/// The greatest reach of a certificate, in minutes.
const GREATEST_REACH: u16 = 4_320;

/// The search ends after this many breaches without a counterexample.
const MOST_BREACHES: u8 = 16;

/// Reaches for the jobs that wait, longer than any of a certificate.
pub(crate) fn greatest_reaches(alloc: Global, facts: &Facts) -> Result<Vec<JobReach>, AllocError> {
    let mut reaches = Vec::new(alloc);
    for (number, task) in facts.tasks().iter().enumerate() {
        if task.is_cron && task.mode.waits() {
            reaches.push(JobReach {
                job: u16::try_from(number).unwrap_or(u16::MAX),
                reach: GREATEST_REACH,
            })?;
        }
    }
    Ok(reaches)
}

fn kinds_until(last_day: u64, days: u8) -> Chain {
    let mut kinds = Chain::new();
    for days_back in (0..days.min(4)).rev() {
        if let Some(day) = Day::new(last_day.saturating_sub(u64::from(days_back))) {
            let _ = kinds.try_push(kind_of(day));
        }
    }
    kinds
}

/// Windows no shorter than the exact ones, and the days of their stretches.
#[derive(Drop)]
struct Bounded<'a> {
    occupied: Vec<Occupied<'a>>,
    days: u8,
}

/// What the exact windows of the stretch that ends on this day break. `steps` are those left,
/// before and after.
fn breach_until(
    alloc: Global,
    search: &Search<'_>,
    waits: &ExactWaits<'_>,
    bounded: &Bounded<'_>,
    last_day: u64,
    steps: &mut u64,
) -> Result<Option<Breach>, AllocError>
    requires { length bounded.now.occupied.items ≤ 320 }
{
    let kinds = kinds_until(last_day, bounded.days);
    let windows = windows_on(alloc, bounded.occupied.as_slice(), kinds.as_slice())?;
    *steps = steps.saturating_sub(steps_held(windows.as_slice()));
    if *steps == 0 {
        return Ok(None);
    }
    let quiet = search.roles.quiet(alloc, windows.as_slice())?;
    if quiet.by_all() {
        return Ok(None);
    }
    // each window is compared with each minute of a day
    let compared = (windows.len() as u64).saturating_mul(u64::from(MINUTES_OF_DAY));
    *steps = steps.saturating_sub(compared);
    let exact = waits.cut(alloc, last_day, bounded.days, windows.as_slice())?;
    match broken_by(alloc, &search.roles, quiet, exact.as_slice())? {
        Some(found) => Ok(Some(breach_on(alloc, last_day, exact.as_slice(), found)?)),
        None => Ok(None),
    }
}

/// The first counterexample for what exact windows break on one of these days. None if there is
/// none, many breaches have none, or the budget is used up.
fn story_on(
    alloc: Global,
    search: &Search<'_>,
    waits: &ExactWaits<'_>,
    bounded: &Bounded<'_>,
    last_days: &[u64],
    budget: &mut Budget,
) -> Result<Option<Script>, AllocError>
    requires { length bounded.now.occupied.items ≤ 320 }
{
    let mut untold: u8 = 0;
    for last_day in last_days {
        if budget.steps == 0 || budget.looks == 0 {
            return Ok(None);
        }
        let found = breach_until(alloc, search, waits, bounded, *last_day, &mut budget.steps)?;
        let Some(breach) = found else {
            continue;
        };
        let told = tell(
            alloc,
            search.plan,
            search.facts,
            &search.calendar,
            &breach,
            &mut budget.looks,
        )?;
        untold = untold.saturating_add(1);
        if told.is_some() || untold == MOST_BREACHES {
            return Ok(told);
        }
    }
    Ok(None)
}

/// A counterexample in which each run goes on exactly as long as it can, or none if none is found.
/// The reaches of the jobs that wait are no less than the exact ones.
pub(crate) fn exact_story(
    alloc: Global,
    search: &Search<'_>,
    reaches: &[JobReach],
    budget: &mut Budget,
) -> Result<Option<Script>, AllocError> {
    let waits = ExactWaits::of(alloc, search.facts, &search.calendar)?;
    let occupied = occupied(alloc, search.plan, reaches)?;
    let days = days_of(occupied.as_slice());
    let bounded = Bounded { occupied, days };
    let last_days = waits.last_days(alloc, days)?;
    story_on(
        alloc,
        search,
        &waits,
        &bounded,
        last_days.as_slice(),
        budget,
    )
}
