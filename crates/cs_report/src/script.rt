//! Scripts: a start, and the events to try from there.
ghost use Rattle.std.specs.Prelude.{◌≡◌, ◌≤◌, ◌++◌, length, map, IfErr, IfOk, Ok};
ghost use Rattle.cs_table.specs.Text.{lines_of};
ghost use Rattle.cs_report.specs.declared.script.TheConstants.{MAX_SCRIPT};
ghost use Rattle.cs_report.specs.Faults.{IsFaultOf, Meaning, Means, MeansPlain, PlainMeaning};
ghost use Rattle.cs_report.specs.Grammar.{IsScript};
ghost use Rattle.cs_report.specs.Script.{Denotes, lines_from, nothing, numbered_script_of};
ghost use Rattle.cs_report.specs.Script.{script_of};

use crate::partial_script::PartialScript;
use crate::script_fault::{ScriptError, ScriptFault};
use cs_civil::Sequence;
use cs_history::{Event, Script, Start};
use cs_plan::Plan;
use cs_table::text::first_line;
use std::alloc::{AllocError, Global};
use std::marker::Model;

/// The most bytes of a script: 16 MiB (this profile).
pub const MAX_SCRIPT: usize = 16_777_216;

/// A script, and the line number, from 1, of each event.
#[derive(Drop)]
pub struct NumberedScript {
    opening: Start,
    list: Sequence<(u32, Event)>,
}

impl Model for NumberedScript {
    ghost use Rattle.cs_report.specs.Script.{Numbered};

    ghost Value = { Numbered };

    ghost view = { λ a. record { start = a.opening; events = a.list } };

    ghost use Rattle.cs_history.specs.Plan.{first_start};
    ghost use Rattle.std.specs.Prelude.{◌≤◌};

    ghost invariant = { λ a. first_start ≤ a.opening.now };
}

impl NumberedScript {
    ghost use Rattle.cs_history.specs.Plan.{first_start};

    /// Returns the start.
    pub fn start(&self) -> &Start
        ensures { result.now ≡ self.now.start }
    {
        &self.opening
    }

    /// Returns the start, from 1970-01-04 00:00 on, and the events, each with its line number.
    pub fn into_parts(self) -> (Start, Sequence<(u32, Event)>)
        ensures start { result.0 ≡ self.start }
        ensures late { first_start ≤ result.0.now }
        ensures events { result.1 ≡ self.events }
    {
        let NumberedScript { opening, list } = self;
        (opening, list)
    }

    /// Returns the events, each with its line number.
    pub fn events(&self) -> &[(u32, Event)]
        ensures { result.now ≡ self.now.events }
    {
        self.list.as_slice()
    }
}

fn read_lines(alloc: Global, plan: &Plan, bytes: &[u8]) -> Result<PartialScript, ScriptError>
    requires { length bytes.now ≤ MAX_SCRIPT }
    ensures { Denotes (λ draft. draft)
        (lines_from plan.now 1 (nothing plan.now) (lines_of bytes.now)) result }
{
    let mut draft = PartialScript::new(alloc, plan);
    let mut number = 0u32;
    let mut rest = bytes;
    while !rest.is_empty() {
        let (line, after) = first_line(rest);
        number += 1;
        draft.take(plan, number, line)?;
        rest = after;
    }
    Ok(draft)
}

#[tactic(auto, unfolding(crate::specs::Script::numbered_script_of))]
fn read_numbered(alloc: Global, plan: &Plan, bytes: &[u8]) -> Result<NumberedScript, ScriptError>
    ensures { Denotes (λ script. script) (numbered_script_of plan.now bytes.now) result }
{
    if bytes.len() > MAX_SCRIPT {
        return Err(ScriptError::At {
            line: 0,
            fault: ScriptFault::TooLong,
        });
    }
    let draft = read_lines(alloc, plan, bytes)?;
    match draft.start {
        Some((minute, up)) => Ok(NumberedScript {
            opening: Start::new(minute, up, draft.days),
            list: draft.list,
        }),
        None => Err(ScriptError::At {
            line: 0,
            fault: ScriptFault::NoStart,
        }),
    }
}

/// Reads a script like [`read_script`], with the line number of each event.
pub fn read_numbered_script(
    alloc: Global,
    plan: &Plan,
    bytes: &[u8],
) -> Result<NumberedScript, ScriptError>
    // The script that is read is written in the bytes.
    ensures script { IfOk result (IsScript plan.now bytes.now) }
    // err: the first fault; `OutOfMemory` only if memory runs out
    ensures fault { IfErr result (IsFaultOf plan.now bytes.now) }
    // The bytes have no other meaning, and it is returned unless memory runs out.
    ensures only { (meaning : Meaning) → Means plan.now bytes.now meaning
        → Denotes (λ script. script) meaning result }
{
    read_numbered(alloc, plan, bytes)
}

fn events_of(alloc: Global, numbered: &[(u32, Event)]) -> Result<Sequence<Event>, AllocError>
    ensures { IfOk result (λ events. events ≡ map (λ e. e.1) numbered.now) }
{
    let mut events = Sequence::new(alloc);
    for (_, event) in numbered {
        events.push(*event)?;
    }
    Ok(events)
}

#[tactic(auto, unfolding(crate::specs::Script::script_of))]
fn read_plain(alloc: Global, plan: &Plan, bytes: &[u8]) -> Result<Script, ScriptError>
    ensures { Denotes (λ script. script) (script_of plan.now bytes.now) result }
{
    let numbered = read_numbered(alloc, plan, bytes)?;
    let NumberedScript { opening, list } = numbered;
    Ok(Script {
        start: opening,
        events: events_of(alloc, list.as_slice())?,
    })
}

/// Reads a script under the plan, or returns its first fault. The help of `replay` has the forms of
/// its lines.
///
/// In a line the faults come in the order of [`ScriptFault`]'s numbers. A line without fault where
/// the start is required is [`NoStart`](ScriptFault::NoStart).
pub fn read_script(alloc: Global, plan: &Plan, bytes: &[u8]) -> Result<Script, ScriptError>
    ensures script { IfOk result (λ script. MeansPlain plan.now bytes.now (Ok script)) }
    ensures fault { IfErr result (IsFaultOf plan.now bytes.now) }
    ensures only { (meaning : PlainMeaning) → MeansPlain plan.now bytes.now meaning
        → Denotes (λ script. script) meaning result }
{
    read_plain(alloc, plan, bytes)
}
