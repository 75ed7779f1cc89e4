//! The content of a script's line under a plan.
ghost use Rattle.std.specs.Prelude.{◌≡◌, ◌≤◌, IfOk};
ghost use Rattle.cs_table.specs.Text.{decimal};
ghost use Rattle.cs_history.specs.Plan.{first_start};
ghost use Rattle.cs_report.specs.Dates.{day_of, from_on, minute_of};
ghost use Rattle.cs_report.specs.Entries.{Gives, IsLateEnough, entry_of, or_fault};
ghost use Rattle.cs_report.specs.declared.script_fault.ScriptFault.TheVariants.{BadDate, UnknownName};
ghost use Rattle.cs_report.specs.Names.{job_named, job_on, place_of};
ghost use Rattle.cs_report.specs.Script.{is_start};
ghost use Rattle.cs_report.specs.Seen.{entry_seen, form_seen};

use crate::dates::{day_of, minute_of};
use crate::form::Form;
use crate::names::{job_named, job_on, place_of};
use crate::script_fault::ScriptFault;
use cs_civil::{Day, Minute};
use cs_history::{Event, Run};
use cs_plan::Plan;

/// The first minute at which a history may start, 1970-01-04 00:00.
pub(crate) const FIRST_START: u64 = 4_320;

#[derive(Drop)]
pub(crate) enum Entry {
    /// Its minute, and whether it is up.
    Start(Minute, bool),
    /// The index of its job in the anacrontab, and its day.
    Stamp(usize, Day),
    Event(Event),
}

impl Entry {
    pub(crate) fn is_start(&self) -> bool
        ensures { result ≡ is_start (entry_seen self.now) }
    {
        matches!(self, Entry::Start(_, _))
    }
}

fn minute_at(moment: &[u8]) -> Result<Minute, ScriptFault>
    ensures { Gives (λ t. t) result (or_fault BadDate (minute_of moment.now)) }
{
    minute_of(moment).ok_or(ScriptFault::BadDate)
}

fn start_minute(moment: &[u8]) -> Result<Minute, ScriptFault>
    ensures value { Gives (λ t. t) result
        (or_fault BadDate (from_on first_start (minute_of moment.now))) }
    ensures late { IfOk result (λ t. first_start ≤ t) }
{
    let minute = minute_at(moment)?;
    if minute.number() < FIRST_START {
        return Err(ScriptFault::BadDate);
    }
    Ok(minute)
}

fn day_at(date: &[u8]) -> Result<Day, ScriptFault>
    ensures { Gives (λ day. day) result (or_fault BadDate (day_of date.now)) }
{
    day_of(date).ok_or(ScriptFault::BadDate)
}

fn command(plan: &Plan, number: &[u8]) -> Result<u16, ScriptFault>
    ensures { Gives (λ j. j) result (or_fault UnknownName (job_on plan.now (decimal number.now))) }
{
    job_on(plan, number).ok_or(ScriptFault::UnknownName)
}

fn anacron_job(plan: &Plan, identifier: &[u8]) -> Result<u16, ScriptFault>
    ensures { Gives (λ j. j) result (or_fault UnknownName (job_named plan.now identifier.now)) }
{
    job_named(plan, identifier).ok_or(ScriptFault::UnknownName)
}

fn place_at(plan: &Plan, identifier: &[u8]) -> Result<usize, ScriptFault>
    ensures { Gives (λ place. place) result
        (or_fault UnknownName (place_of plan.now identifier.now)) }
{
    place_of(plan, identifier).ok_or(ScriptFault::UnknownName)
}

/// Its date is checked before its name.
pub(crate) fn entry_of(plan: &Plan, form: Form<'_>) -> Result<Entry, ScriptFault>
    ensures value { Gives entry_seen result (entry_of plan.now (form_seen form.entry)) }
    ensures late { IfOk result (λ x. IsLateEnough (entry_seen x)) }
{
    let event = match form {
        Form::Start(moment, up) => return Ok(Entry::Start(start_minute(moment)?, up)),
        Form::Stamp(identifier, date) => {
            let day = day_at(date)?;
            return Ok(Entry::Stamp(place_at(plan, identifier)?, day));
        }
        Form::Minute(moment) => Event::Minute(minute_at(moment)?.number()),
        Form::Up(moment) => Event::Up(minute_at(moment)?.number()),
        Form::Down => Event::Down,
        Form::Begin(number) => Event::Begin(command(plan, number)?),
        Form::Got(number, moment) => {
            let at = minute_at(moment)?;
            Event::Got(command(plan, number)?, at.number())
        }
        Form::Catch(identifier) => Event::Catch(anacron_job(plan, identifier)?),
        Form::EndLine(number, moment) => {
            let at = minute_at(moment)?.number();
            let job = command(plan, number)?;
            Event::End(Run { job, at })
        }
        Form::EndJob(identifier, moment) => {
            let at = minute_at(moment)?.number();
            let job = anacron_job(plan, identifier)?;
            Event::End(Run { job, at })
        }
    };
    Ok(Entry::Event(event))
}
