use crate::breaches::{Found, breach_on, broken_by, last_day};
use crate::search::Search;
use crate::stretches::{days_of, stretches_by};
use cs_civil::MINUTES_OF_DAY;
use cs_classes::occupied;
use cs_overlap::Roles;
use cs_plan::Plan;
use cs_profile::Facts;
use cs_story::Breach;
use cs_windows::{JobReach, Window, windows_on};
use std::alloc::{AllocError, Global};

/// What the windows of a stretch break.
#[derive(Drop)]
pub(crate) struct Broken {
    /// The profiles of its days.
    pub(crate) profiles: Vec<u16>,
    pub(crate) windows: Vec<Window>,
    pub(crate) found: Found,
}

/// How many steps it takes to compare these windows with the minutes that they hold.
pub(crate) fn steps_held(windows: &[Window]) -> u64 {
    let mut held = 0u64;
    for window in windows {
        held = held.saturating_add(u64::from(window.reach.min(MINUTES_OF_DAY)));
    }
    held
}

/// What the windows of a plan break first, where waiting jobs have these reaches, and others their
/// declared times. If that is nothing and steps are left, no history breaks a declaration while
/// runs end within the reaches.
pub(crate) fn first_broken(
    alloc: Global,
    plan: &Plan,
    facts: &Facts,
    roles: &Roles,
    reaches: &[JobReach],
    steps: &mut u64,
) -> Result<Option<Broken>, AllocError> {
    let occupied = occupied(alloc, plan, reaches)?;
    let days = days_of(occupied.as_slice());
    let stretches = stretches_by(alloc, days, facts.profiles())?;
    for (profiles, kinds) in &stretches {
        let windows = windows_on(alloc, occupied.as_slice(), kinds.as_slice())?;
        *steps = steps.saturating_sub(steps_held(windows.as_slice()));
        if *steps == 0 {
            return Ok(None);
        }
        // the quick test shows that most break nothing
        let quiet = roles.quiet(alloc, windows.as_slice())?;
        if let Some(found) = broken_by(alloc, roles, quiet, windows.as_slice())? {
            return Ok(Some(Broken {
                profiles: Vec::from_slice(alloc, profiles.as_slice())?,
                windows,
                found,
            }));
        }
    }
    Ok(None)
}

/// The same as a breach of the calendar.
pub(crate) fn first_breach(
    alloc: Global,
    search: &Search<'_>,
    reaches: &[JobReach],
    steps: &mut u64,
) -> Result<Option<Breach>, AllocError> {
    let (plan, facts, roles) = (search.plan, search.facts, &search.roles);
    let Some(broken) = first_broken(alloc, plan, facts, roles, reaches, steps)? else {
        return Ok(None);
    };
    let day = last_day(&search.calendar, broken.profiles.as_slice());
    let windows = broken.windows.as_slice();
    Ok(Some(breach_on(alloc, day, windows, broken.found)?))
}
