ghost use Rattle.std.specs.Prelude.{◌≡◌, ◌≤◌, ◌++◌, IfOk, OnOk, length, map};
ghost use Rattle.std.specs.List.{insert};
ghost use Rattle.cs_core.specs.Choices.{by_name, candidates, choices, is_before};
ghost use Rattle.cs_core.specs.Standing.{names};
ghost use Rattle.cs_plan.specs.Plan.{as_plan};
ghost use Rattle.cs_history.specs.Lists.{placed};
ghost use Rattle.cs_history.specs.declared.event.Event.TheVariants as event;

use crate::event_core::Core;
use cs_civil::Sequence;
use cs_history::{Event, Run};
use cs_roster::Roster;
use std::alloc::{AllocError, Global};

impl Core {
    /// Returns the events that may come next: Minute, then Begin, Got, Catch and End, each by job,
    /// then minute, then Down or Up. `Up` is listed with the present minute, and stands for every
    /// later one too.
    pub fn choices(&self, alloc: Global) -> Result<Sequence<Event>, AllocError>
        ensures { IfOk result (λ events. events ≡ choices (as_plan self.now.plan) self.now.state) }
    {
        let candidates = self.candidates(alloc)?;
        let mut events = Sequence::new(alloc);
        for event in candidates.as_slice() {
            if self.refusal(event).is_none() {
                events.push(*event)?;
            }
        }
        Ok(events)
    }

    /// The events that could come next, among them all that may.
    fn candidates(&self, alloc: Global) -> Result<Sequence<Event>, AllocError>
        ensures { IfOk result (λ events. events ≡ candidates self.now.state) }
    {
        let now = self.minute.number();
        let waiting = by_name(alloc, names(alloc, &self.waiting)?.as_slice())?;
        let running = by_name(alloc, names(alloc, &self.running)?.as_slice())?;
        let mut events = Sequence::new(alloc);
        events.push(Event::Minute(now + 1))?;
        add_begins(&mut events, self.due.as_slice())?;
        add_gots(&mut events, waiting.as_slice())?;
        add_catches(&mut events, self.left.as_slice())?;
        add_ends(&mut events, running.as_slice())?;
        events.push(Event::Down)?;
        events.push(Event::Up(now))?;
        Ok(events)
    }
}

fn add_begins(events: &mut Sequence<Event>, jobs: &[u16]) -> Result<(), AllocError>
    ensures { OnOk result (events.new ≡ events.old ++ map (λ j. event.Begin j) jobs.now) }
{
    for job in jobs {
        events.push(Event::Begin(*job))?;
    }
    Ok(())
}

fn add_gots(events: &mut Sequence<Event>, runs: &[Run]) -> Result<(), AllocError>
    ensures { OnOk result (events.new ≡ events.old ++ map (λ w. event.Got w.job w.at) runs.now) }
{
    for run in runs {
        events.push(Event::Got(run.job, run.at))?;
    }
    Ok(())
}

fn add_catches(events: &mut Sequence<Event>, jobs: &[u16]) -> Result<(), AllocError>
    ensures { OnOk result (events.new ≡ events.old ++ map (λ j. event.Catch j) jobs.now) }
{
    for job in jobs {
        events.push(Event::Catch(*job))?;
    }
    Ok(())
}

fn add_ends(events: &mut Sequence<Event>, runs: &[Run]) -> Result<(), AllocError>
    ensures { OnOk result (events.new ≡ events.old ++ map (λ r. event.End r) runs.now) }
{
    for run in runs {
        events.push(Event::End(*run))?;
    }
    Ok(())
}

fn names(alloc: Global, runs: &Roster) -> Result<Vec<Run>, AllocError>
    ensures { IfOk result (λ listed. listed.items ≡ names runs.now) }
{
    let mut listed = Vec::new(alloc);
    for going in runs.iter() {
        listed.push(going.run)?;
    }
    Ok(listed)
}

/// Whether a run comes before another, by job, then minute.
pub fn is_before(one: Run, other: Run) -> bool
    ensures { result ≡ is_before one other }
{
    one.job < other.job || (one.job == other.job && one.at < other.at)
}

/// The index of the first run that this one comes before.
fn place(runs: &[Run], run: Run) -> usize
    ensures bound { result ≤ length runs.now }
    ensures place { insert runs.now result run ≡ placed is_before run runs.now }
{
    for (place, other) in runs.iter().enumerate() {
        if is_before(run, *other) {
            return place;
        }
    }
    runs.len()
}

fn by_name(alloc: Global, runs: &[Run]) -> Result<Vec<Run>, AllocError>
    ensures { IfOk result (λ sorted. sorted.items ≡ by_name runs.now) }
{
    let mut sorted = Vec::new(alloc);
    for run in runs {
        let place = place(sorted.as_slice(), *run);
        sorted.insert(place, *run)?;
    }
    Ok(sorted)
}
