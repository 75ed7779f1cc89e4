ghost use Rattle.std.specs.Prelude.{◌≤◌, IfOk, IfSome};
ghost use Rattle.cs_history.specs.Plan.{first_start};

use crate::aim::{Aim, MAX_AIMS, aims};
use crate::breach::Breach;
use crate::moments::live;
use crate::play::{Ending, Play};
use crate::plot::Plot;
use crate::start::start_at;
use crate::wanted::MINUTES_OF_DAY;
use cs_civil::Minute;
use cs_history::{Event, Script};
use cs_plan::Plan;
use cs_profile::{Calendar, Facts};
use std::alloc::{AllocError, Global};

/// 1970-01-04 00:00, before which no history starts.
const FIRST_START: u64 = 4_320;

/// All stays, minute by minute. Before the first the daemon is up from the start on, unless a pass
/// is to begin.
fn perform(play: &mut Play, plot: &Plot<'_>) -> Result<(), Ending> {
    for (place, stay) in plot.stays.as_slice().iter().enumerate() {
        if place > 0 {
            play.take(Event::Down)?;
        }
        if !play.core().is_up() {
            play.take(Event::Up(stay.up))?;
        }
        live(play, plot, stay.up < stay.last)?;
        for before in stay.up..stay.last {
            let minute = before.saturating_add(1);
            play.take(Event::Minute(minute))?;
            live(play, plot, minute < stay.last)?;
        }
    }
    Ok(())
}

/// The script of a plot, from this minute on, if it breaks the plan. `looks` are those left, before
/// and after.
fn script_from(
    alloc: Global,
    plan: &Plan,
    plot: &Plot<'_>,
    minute: Minute,
    looks: &mut u64,
) -> Result<Option<Script>, AllocError>
    ensures { IfOk result (λ found. IfSome found (λ script. first_start ≤ script.start.now)) }
{
    if minute.number() < FIRST_START {
        return Ok(None);
    }
    let start = start_at(plan, plot, minute);
    let rounds = plot.chains.len() as u64 + 1;
    let mut play = Play::open(alloc, plan, &start, *looks, rounds)?;
    let ended = perform(&mut play, plot);
    let Play {
        trial: _,
        events,
        looks: left,
        rounds: _,
    } = play;
    *looks = left;
    match ended {
        Err(Ending::Broken) => Ok(Some(Script { start, events })),
        Err(Ending::OutOfMemory) => Err(AllocError),
        Ok(()) | Err(Ending::Stuck) => Ok(None),
    }
}

/// The script of an aim, if one is found. Each run that others put off costs a look for each minute
/// of a day.
fn script_of(
    alloc: Global,
    plan: &Plan,
    facts: &Facts,
    calendar: &Calendar,
    aim: &Aim,
    looks: &mut u64,
) -> Result<Option<Script>, AllocError>
    ensures { IfOk result (λ found. IfSome found (λ script. first_start ≤ script.start.now)) }
{
    *looks = looks.saturating_sub((aim.queueing() as u64).saturating_mul(MINUTES_OF_DAY));
    if *looks == 0 {
        return Ok(None);
    }
    let Some(plot) = Plot::of(alloc, facts, calendar, aim)? else {
        return Ok(None);
    };
    let Some(stay) = plot.stays.as_slice().first() else {
        return Ok(None);
    };
    match Minute::new(stay.up) {
        Some(minute) => script_from(alloc, plan, &plot, minute, looks),
        None => Ok(None),
    }
}

/// Returns a script in which the plan is broken although each run ends within its declared time,
/// where these windows break a rule. What it breaks first may be something else. It starts at
/// 1970-01-04 00:00 or later.
///
/// `None` if none of at most 400,000 events is found with so many looks; `looks` are those left,
/// before and after. The only error is out of memory.
pub fn tell(
    alloc: Global,
    plan: &Plan,
    facts: &Facts,
    calendar: &Calendar,
    breach: &Breach,
    looks: &mut u64,
) -> Result<Option<Script>, AllocError>
    ensures { IfOk result (λ found. IfSome found (λ script. first_start ≤ script.start.now)) }
{
    for aim in aims(alloc, plan, facts, breach)?
        .as_slice()
        .iter()
        .take(MAX_AIMS)
    {
        if let Some(script) = script_of(alloc, plan, facts, calendar, aim, looks)? {
            return Ok(Some(script));
        }
    }
    Ok(None)
}
