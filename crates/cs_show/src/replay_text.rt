//! What `replay` says of the events of a script.
ghost use Rattle.std.specs.Prelude.{◌≡◌, ◌≤◌, ◌++◌, IfOk, OnOk, decimal, is_err};
ghost use Rattle.cs_civil.specs.Text.{minute_text};
ghost use Rattle.cs_plan.specs.Plan.{as_plan};
ghost use Rattle.cs_history.specs.Plan.{first_start};
ghost use Rattle.cs_show.specs.Replay.{event_line, event_lines, has_refusal, is_any_refused, last_state, next, replay_text, side, state_line, tried};

use cs_civil::{date_text, push_number};
use cs_core::Core;
use cs_history::{Event, Refusal, Reply, Start};
use cs_plan::Plan;
use cs_report::push_reply;
use std::alloc::{AllocError, Global};

#[tactic(auto, using(crate::proofs::ReplayLemmas::step_taken, crate::proofs::ReplayLemmas::step_refused))]
fn try_event(core: &mut Core, event: Event) -> Result<Result<Reply, Refusal>, AllocError>
    ensures answer { IfOk result (λ answer.
        answer ≡ tried (as_plan core.old.plan) core.old.state event) }
    ensures state { OnOk result
        (core.new.state ≡ next (as_plan core.old.plan) core.old.state event) }
    ensures plan { core.new.plan ≡ core.old.plan }
{
    match core.step(event) {
        Ok(reply) => Ok(Ok(reply)),
        Err(Refusal::OutOfMemory) => Err(AllocError),
        Err(refusal) => Ok(Err(refusal)),
    }
}

#[tactic(auto, unfolding(crate::specs::Replay::event_line))]
fn push_event(
    alloc: Global,
    text: &mut Vec<u8>,
    number: u32,
    answer: Result<Reply, Refusal>,
) -> Result<(), AllocError>
    ensures { OnOk result (text.new.items ≡ text.old.items ++ event_line number answer) }
{
    push_number(alloc, text, u128::from(number))?;
    text.extend_from_slice(b": ")?;
    push_reply(text, answer)?;
    text.extend_from_slice(b"\n")
}

/// Returns whether the event was refused.
fn push_tried(
    alloc: Global,
    text: &mut Vec<u8>,
    core: &mut Core,
    numbered: (u32, Event),
) -> Result<bool, AllocError>
    ensures text { OnOk result (text.new.items ≡ text.old.items
        ++ event_line numbered.0 (tried (as_plan core.old.plan) core.old.state numbered.1)) }
    ensures refused { IfOk result (λ refused.
        refused ≡ is_err (tried (as_plan core.old.plan) core.old.state numbered.1)) }
    ensures state { OnOk result
        (core.new.state ≡ next (as_plan core.old.plan) core.old.state numbered.1) }
    ensures plan { core.new.plan ≡ core.old.plan }
{
    let answer = try_event(core, numbered.1)?;
    push_event(alloc, text, numbered.0, answer)?;
    Ok(answer.is_err())
}

/// Returns whether one of the events was refused.
#[tactic(auto, unfolding(crate::specs::Replay::event_lines, crate::specs::Replay::is_any_refused, crate::specs::Replay::last_state))]
fn push_events(
    alloc: Global,
    text: &mut Vec<u8>,
    core: &mut Core,
    events: &[(u32, Event)],
) -> Result<bool, AllocError>
    ensures text { OnOk result (text.new.items ≡ text.old.items
        ++ event_lines (as_plan core.old.plan) core.old.state events.now) }
    ensures refused { IfOk result (λ refused.
        refused ≡ is_any_refused (as_plan core.old.plan) core.old.state events.now) }
    ensures state { OnOk result
        (core.new.state ≡ last_state (as_plan core.old.plan) core.old.state events.now) }
{
    let mut refused = false;
    let mut rest = events;
    while let [numbered, others @ ..] = rest {
        refused |= push_tried(alloc, text, core, *numbered)?;
        rest = others;
    }
    Ok(refused)
}

fn push_count(
    alloc: Global,
    text: &mut Vec<u8>,
    name: &[u8],
    count: usize,
) -> Result<(), AllocError>
    ensures { OnOk result (text.new.items ≡ text.old.items ++ (name.now ++ decimal count)) }
{
    text.extend_from_slice(name)?;
    push_number(alloc, text, count as u128)
}

fn push_moment(text: &mut Vec<u8>, core: &Core) -> Result<(), AllocError>
    ensures { OnOk result (text.new.items
        ≡ text.old.items ++ (side core.now.state.up ++ minute_text core.now.state.now)) }
{
    let side = if core.is_up() { "up " } else { "down " };
    text.extend_from_slice(side.as_bytes())?;
    text.extend_from_slice(&date_text(core.now()))
}

#[tactic(auto, unfolding(crate::specs::Replay::state_line))]
fn push_state(alloc: Global, text: &mut Vec<u8>, core: &Core) -> Result<(), AllocError>
    ensures { OnOk result (text.new.items ≡ text.old.items ++ state_line core.now.state) }
{
    push_moment(text, core)?;
    push_count(alloc, text, b", pending ", core.pending().len())?;
    push_count(alloc, text, b", waiting ", core.waiting().len())?;
    push_count(alloc, text, b", running ", core.running().len())?;
    text.extend_from_slice(b"\n")
}

/// Returns what `replay` prints of a script, whose events have the numbers of their lines, and
/// whether an event was refused.
#[tactic(auto, unfolding(crate::specs::Replay::replay_text, crate::specs::Replay::has_refusal))]
pub fn replay_text(
    alloc: Global,
    plan: &Plan,
    start: Start,
    events: &[(u32, Event)],
) -> Result<(Vec<u8>, bool), AllocError>
    requires { first_start ≤ start.now }
    ensures text { IfOk result (λ told. told.0.items
        ≡ replay_text plan.now (record { start = start; events = events.now })) }
    ensures refused { IfOk result (λ told. told.1
        ≡ has_refusal plan.now (record { start = start; events = events.now })) }
{
    let mut core = Core::open(alloc, plan, start)?;
    let mut text = Vec::new(alloc);
    let refused = push_events(alloc, &mut text, &mut core, events)?;
    push_state(alloc, &mut text, &core)?;
    Ok((text, refused))
}
