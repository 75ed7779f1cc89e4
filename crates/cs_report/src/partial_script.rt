ghost use Rattle.std.specs.Prelude.{◌≡◌, ◌≤◌, IfOk, replicate, set, None, Some};
ghost use Rattle.cs_report.specs.Entries.{Gives, IsLateEnough};
ghost use Rattle.cs_report.specs.Script.{Denotes, is_misplaced, is_too_late, nothing, numbered};
ghost use Rattle.cs_report.specs.Script.{said_behind, taken, with_entry};
ghost use Rattle.cs_report.specs.Seen.{entry_seen, form_seen};

use crate::entry::{Entry, entry_of};
use crate::form::{Form, form_of};
use crate::names::place_of;
use crate::script_fault::{ScriptError, ScriptFault};
use arrayvec::ArrayVec;
use cs_civil::{Day, Minute, Sequence};
use cs_history::Event;
use cs_plan::Plan;
use std::alloc::{AllocError, Global};
use std::marker::Model;

/// The lines of a script read so far: the stamps by job of the anacrontab, and the events with
/// their line numbers.
#[derive(Drop)]
pub(crate) struct PartialScript {
    pub(crate) start: Option<(Minute, bool)>,
    pub(crate) days: ArrayVec<Option<Day>, 64>,
    pub(crate) list: Sequence<(u32, Event)>,
}

impl Model for PartialScript {
    ghost use Rattle.cs_report.specs.Script.{PartialScript as Lines};

    ghost Value = { Lines };

    ghost view = { λ a. record { opening = a.start; stamps = a.days.items; events = a.list } };

    ghost use Rattle.cs_history.specs.Plan.{first_start};
    ghost use Rattle.std.specs.Prelude.{IfSome, ◌≤◌};

    ghost invariant = { λ a. IfSome a.start (λ opening. first_start ≤ opening.0) };
}

#[tactic(auto, using(crate::proofs::Stamps::one_none_more))]
fn no_stamps(count: usize) -> ArrayVec<Option<Day>, 64>
    requires { count ≤ 64 }
    ensures { result.items ≡ replicate count None }
{
    let mut stamps = ArrayVec::new();
    for _ in 0..count {
        stamps.push(None);
    }
    stamps
}

impl PartialScript {
    pub(crate) fn new(alloc: Global, plan: &Plan) -> PartialScript
        ensures { result ≡ nothing plan.now }
    {
        PartialScript {
            start: None,
            days: no_stamps(plan.anacrontab().lines().len()),
            list: Sequence::new(alloc),
        }
    }

    #[tactic(auto, unfolding(crate::specs::Script::is_too_late))]
    fn is_too_late(&self, plan: &Plan, identifier: &[u8]) -> bool
        ensures { result ≡ is_too_late plan.now self.now identifier.now }
    {
        if self.list.len() != 0 {
            return true;
        }
        match place_of(plan, identifier) {
            Some(place) => match self.days.get(place) {
                Some(stamp) => stamp.is_some(),
                None => false,
            },
            None => false,
        }
    }

    fn set_stamp(&mut self, place: usize, day: Day)
        ensures { self.new ≡ record self.old { stamps = set self.old.stamps place (Some day) } }
    {
        if place < self.days.len() {
            self.days.as_mut_slice()[place] = Some(day);
        }
    }

    fn is_misplaced(&self, plan: &Plan, form: &Form<'_>) -> bool
        ensures { result ≡ is_misplaced plan.now self.now (form_seen form.now) }
    {
        match form {
            Form::Start(_, _) => self.start.is_some(),
            Form::Stamp(identifier, _) => self.is_too_late(plan, identifier),
            Form::Minute(_)
            | Form::Up(_)
            | Form::Down
            | Form::Begin(_)
            | Form::Got(_, _)
            | Form::Catch(_)
            | Form::EndLine(_, _)
            | Form::EndJob(_, _) => false,
        }
    }

    #[tactic(auto, unfolding(crate::specs::Script::said_behind))]
    fn said(&self, plan: &Plan, line: &[u8]) -> Result<Entry, ScriptFault>
        ensures value { Gives entry_seen result (said_behind plan.now self.now line.now) }
        ensures late { IfOk result (λ x. IsLateEnough (entry_seen x)) }
    {
        let form = form_of(line).ok_or(ScriptFault::BadLine)?;
        if self.is_misplaced(plan, &form) {
            return Err(ScriptFault::BadLine);
        }
        let entry = entry_of(plan, form)?;
        if self.start.is_none() && !entry.is_start() {
            return Err(ScriptFault::NoStart);
        }
        Ok(entry)
    }

    fn add(&mut self, number: u32, entry: Entry) -> Result<(), AllocError>
        requires { IsLateEnough (entry_seen entry) }
        ensures { IfOk result (λ _. self.new ≡ with_entry number (entry_seen entry) self.old) }
    {
        match entry {
            Entry::Start(minute, up) => self.start = Some((minute, up)),
            Entry::Stamp(place, day) => self.set_stamp(place, day),
            Entry::Event(event) => self.list.push((number, event))?,
        }
        Ok(())
    }

    #[tactic(auto, unfolding(crate::specs::Script::taken))]
    pub(crate) fn take(&mut self, plan: &Plan, number: u32, line: &[u8]) -> Result<(), ScriptError>
        ensures { Denotes (λ _. self.new)
            (numbered number (taken plan.now number self.old line.now)) result }
    {
        if let [] | [b'#', ..] = line {
            return Ok(());
        }
        match self.said(plan, line) {
            Ok(entry) => {
                self.add(number, entry)?;
                Ok(())
            }
            Err(fault) => Err(ScriptError::At {
                line: number,
                fault,
            }),
        }
    }
}
