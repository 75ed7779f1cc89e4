//! What `replay --judge` says of a script: what it breaks.
ghost use Rattle.std.specs.Prelude.{◌≡◌, ◌⊎◌, ◌≤◌, ◌-◌, IfOk, map, take};
ghost use Rattle.cs_plan.specs.Plan.{as_plan};
ghost use Rattle.cs_history.specs.Plan.{first_start};
ghost use Rattle.cs_counterexample.specs.Shown.{IsTellable};
ghost use Rattle.cs_show.specs.Verdict.{IsVerdict, TellsBreak, TellsLine, as_script, beginning};
ghost use Rattle.cs_show.specs.Verdict.{broken_line, late_line, line_of};

use cs_civil::Sequence;
use cs_counterexample::{NotShown, Shown, prove_unsafe, shown_text};
use cs_history::{Event, Script, Start};
use cs_plan::Plan;
use std::alloc::{AllocError, Global};

/// The bytes of a script. With `judge`, a first line that begins with `unsafe: ` is made a comment,
/// so that all that `judge` prints of an unsafe plan is a script.
#[tactic(auto, unfolding(crate::specs::Verdict::as_script))]
pub fn as_script(judge: bool, bytes: Vec<u8>) -> Vec<u8>
    ensures { result.items ≡ as_script judge bytes.items }
{
    let mut bytes = bytes;
    if judge && bytes.as_slice().starts_with(b"unsafe: ".as_slice()) && !bytes.is_empty() {
        bytes[0] = b'#';
    }
    bytes
}

fn events_of(alloc: Global, numbered: &[(u32, Event)]) -> Result<Sequence<Event>, AllocError>
    ensures { IfOk result (λ events. events ≡ map (λ e. e.1) numbered.now) }
{
    let mut events = Sequence::new(alloc);
    for (_, event) in numbered {
        events.push(*event)?;
    }
    Ok(events)
}

fn line_of(events: &[(u32, Event)], number: usize) -> u32
    ensures { result ≡ line_of events.now number }
{
    match events.get(number.saturating_sub(1)) {
        Some((line, _)) => *line,
        None => 0,
    }
}

fn broken_line(alloc: Global, plan: &Plan, shown: &Shown) -> Result<Vec<u8>, AllocError>
    requires { IsTellable (as_plan plan.now) shown.now }
    ensures { IfOk result (λ text. text.items ≡ broken_line plan.now shown.now) }
{
    let mut text = shown_text(alloc, plan, shown)?.into_vec();
    text.push(b'\n')?;
    Ok(text)
}

#[tactic(auto, unfolding(crate::specs::Verdict::late_line))]
fn late_line(alloc: Global, number: u32) -> Result<Vec<u8>, AllocError>
    ensures { IfOk result (λ text. text.items ≡ late_line number) }
{
    let text = format!(in alloc;
        "late: script line {number} comes when a run has passed its declared time\n"
    )?;
    Ok(text.into_bytes())
}

fn first_events(events: &[(u32, Event)], count: usize) -> &[(u32, Event)]
    ensures { result.now ≡ take count events.now }
{
    match events.get(..count) {
        Some(front) => front,
        None => events,
    }
}

fn late_verdict(
    alloc: Global,
    plan: &Plan,
    start: Start,
    events: &[(u32, Event)],
    number: usize,
) -> Result<Vec<u8>, AllocError>
    requires { first_start ≤ start.now }
    ensures { IfOk result (λ text.
        TellsBreak plan.now (beginning (record { start = start; events = events.now }) (number - 1))
        text.items
        ⊎ TellsLine plan.now (record { start = start; events = events.now }) number text.items) }
{
    let front = first_events(events, number.saturating_sub(1));
    let script = Script {
        start,
        events: events_of(alloc, front)?,
    };
    match prove_unsafe(alloc, plan, &script) {
        Ok(shown) => broken_line(alloc, plan, &shown),
        Err(NotShown::OutOfMemory) => Err(AllocError),
        Err(_) => late_line(alloc, line_of(events, number)),
    }
}

/// Returns the line on a script, and whether something goes wrong in it. What is broken before a
/// run is late goes before that. There is no line where an event is refused before a run is late.
pub fn verdict(
    alloc: Global,
    plan: &Plan,
    start: Start,
    events: &[(u32, Event)],
) -> Result<(Vec<u8>, bool), AllocError>
    requires { first_start ≤ start.now }
    ensures { IfOk result (λ told. IsVerdict plan.now
        (record { start = start; events = events.now }) told.0.items told.1) }
{
    let script = Script {
        start: start.copy(),
        events: events_of(alloc, events)?,
    };
    match prove_unsafe(alloc, plan, &script) {
        Ok(shown) => Ok((broken_line(alloc, plan, &shown)?, true)),
        Err(NotShown::Late(number)) => {
            Ok((late_verdict(alloc, plan, start, events, number)?, true))
        }
        Err(NotShown::Illegal(_, _)) => Ok((Vec::new(alloc), true)),
        Err(NotShown::NothingBroken) => {
            Ok((Vec::from_slice(alloc, b"safe so far\n".as_slice())?, false))
        }
        Err(NotShown::OutOfMemory) => Err(AllocError),
    }
}
