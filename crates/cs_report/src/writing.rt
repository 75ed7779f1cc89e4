ghost use Rattle.std.specs.Prelude.{◌≡◌, ◌≤◌, ◌++◌, true, flat_map, length, IfOk, Ok, OnOk};
ghost use Rattle.std.specs.List.{list_all};
ghost use Rattle.cs_plan.specs.JobNames.{command_name, identifier_of};
ghost use Rattle.cs_history.specs.Step.{is_civil};
ghost use Rattle.cs_report.specs.Faults.{MeansPlain};
ghost use Rattle.cs_report.specs.ReadBack.{tells_command, tells_event, tells_job};
ghost use Rattle.cs_report.specs.ScriptText.{at_minute, event_line};
ghost use Rattle.cs_report.specs.ScriptText.{event_text, is_cron_name};
ghost use Rattle.cs_report.specs.ScriptText.{is_job_name, is_nameable, is_nameable_event};
ghost use Rattle.cs_report.specs.ScriptText.{job_name, on_day, script_text};
ghost use Rattle.cs_report.specs.ScriptText.{stamp_line, stamp_lines, start_line};

use crate::nameable::is_cron;
use crate::script::MAX_SCRIPT;
use cs_anacrontab::Job;
use cs_civil::{Bytes, Day, Minute, date_text, day_text, push_number};
use cs_history::{Event, Script, Start};
use cs_plan::{Plan, identifier_of};
use std::alloc::{AllocError, Global};

fn push_minute(text: &mut Vec<u8>, at: u64) -> Result<(), AllocError>
    requires { is_civil at ≡ true }
    ensures { OnOk result (text.new.items ≡ text.old.items ++ at_minute at) }
{
    let minute = Minute::new(at).unwrap();
    text.push(b' ')?;
    text.extend_from_slice(&date_text(minute))
}

#[tactic(auto, unfolding(cs_plan::specs::JobNames::command_name))]
fn push_command(alloc: Global, text: &mut Vec<u8>, plan: &Plan, job: u16) -> Result<(), AllocError>
    requires { is_cron_name plan.now job ≡ true }
    ensures value { OnOk result (text.new.items ≡ text.old.items ++ command_name plan.now job) }
    ensures tells { OnOk result (tells_command plan.now job ≡ true) }
{
    let number = plan.crontab().lines()[usize::from(job)].number();
    text.extend_from_slice(b"line ")?;
    push_number(alloc, text, u128::from(number))
}

fn push_identifier(text: &mut Vec<u8>, plan: &Plan, job: u16) -> Result<(), AllocError>
    ensures { OnOk result (text.new.items ≡ text.old.items ++ identifier_of plan.now job) }
{
    text.extend_from_slice(identifier_of(plan, usize::from(job)))
}

#[tactic(auto, unfolding(crate::specs::ScriptText::job_name), using(crate::proofs::NamedJobs::anacron_else))]
fn push_job(alloc: Global, text: &mut Vec<u8>, plan: &Plan, job: u16) -> Result<(), AllocError>
    requires { is_job_name plan.now job ≡ true }
    ensures value { OnOk result (text.new.items ≡ text.old.items ++ job_name plan.now job) }
    ensures tells { OnOk result (tells_job plan.now job ≡ true) }
{
    if is_cron(plan, job) {
        return push_command(alloc, text, plan, job);
    }
    text.extend_from_slice(b"job ")?;
    push_identifier(text, plan, job)
}

fn push_event(
    alloc: Global,
    text: &mut Vec<u8>,
    plan: &Plan,
    event: Event,
) -> Result<(), AllocError>
    requires { is_nameable_event plan.now event ≡ true }
    ensures value { OnOk result (text.new.items ≡ text.old.items ++ event_text plan.now event) }
    ensures tells { OnOk result (tells_event plan.now event ≡ true) }
{
    match event {
        Event::Minute(at) => {
            text.extend_from_slice(b"minute")?;
            push_minute(text, at)
        }
        Event::Begin(job) => {
            text.extend_from_slice(b"begin ")?;
            push_command(alloc, text, plan, job)
        }
        Event::Got(job, at) => {
            text.extend_from_slice(b"got ")?;
            push_command(alloc, text, plan, job)?;
            push_minute(text, at)
        }
        Event::Catch(job) => {
            text.extend_from_slice(b"catch ")?;
            push_identifier(text, plan, job)
        }
        Event::End(run) => {
            text.extend_from_slice(b"end ")?;
            push_job(alloc, text, plan, run.job)?;
            push_minute(text, run.at)
        }
        Event::Down => text.extend_from_slice(b"down"),
        Event::Up(at) => {
            text.extend_from_slice(b"up")?;
            push_minute(text, at)
        }
    }
}

fn push_events(
    alloc: Global,
    text: &mut Vec<u8>,
    plan: &Plan,
    events: &[Event],
) -> Result<(), AllocError>
    requires { list_all (is_nameable_event plan.now) events.now ≡ true }
    ensures value { OnOk result
        (text.new.items ≡ text.old.items ++ flat_map (event_line plan.now) events.now) }
    ensures tells { OnOk result (list_all (tells_event plan.now) events.now ≡ true) }
{
    for event in events {
        push_event(alloc, text, plan, *event)?;
        text.push(b'\n')?;
    }
    Ok(())
}

fn push_day(text: &mut Vec<u8>, day: Day) -> Result<(), AllocError>
    ensures { OnOk result (text.new.items ≡ text.old.items ++ on_day day) }
{
    text.push(b' ')?;
    text.extend_from_slice(&day_text(day))
}

fn push_stamp(text: &mut Vec<u8>, job: &Job, stamp: Option<Day>) -> Result<(), AllocError>
    ensures { OnOk result (text.new.items ≡ text.old.items ++ stamp_line job.now stamp) }
{
    let Some(day) = stamp else {
        return Ok(());
    };
    text.extend_from_slice(b"stamp ")?;
    text.extend_from_slice(job.identifier())?;
    push_day(text, day)?;
    text.extend_from_slice(b"\n")
}

#[tactic(auto, unfolding(crate::specs::ScriptText::stamp_lines))]
fn push_stamps(text: &mut Vec<u8>, jobs: &[Job], stamps: &[Option<Day>]) -> Result<(), AllocError>
    ensures { OnOk result (text.new.items ≡ text.old.items ++ stamp_lines jobs.now stamps.now) }
{
    let mut jobs = jobs;
    let mut stamps = stamps;
    while let [job, more_jobs @ ..] = jobs {
        let [stamp, more_stamps @ ..] = stamps else {
            return Ok(());
        };
        push_stamp(text, job, *stamp)?;
        jobs = more_jobs;
        stamps = more_stamps;
    }
    Ok(())
}

fn push_start(text: &mut Vec<u8>, start: &Start) -> Result<(), AllocError>
    ensures { OnOk result (text.new.items ≡ text.old.items ++ start_line start.now) }
{
    text.extend_from_slice(b"start ")?;
    text.extend_from_slice(&date_text(start.now()))?;
    if start.is_up() {
        text.extend_from_slice(b" up\n")
    } else {
        text.extend_from_slice(b" down\n")
    }
}

/// Formats a script that is [`is_nameable`](crate::is_nameable): a line each for the start, its
/// stamps and the events. [`read_script`](crate::read_script) returns the same script if the text
/// isn't too long.
#[tactic(auto, unfolding(crate::specs::ScriptText::script_text), using(crate::proofs::NamedJobs::events_nameable, crate::proofs::BackScript::reads_back))]
pub fn script_text(alloc: Global, plan: &Plan, script: &Script) -> Result<Bytes, AllocError>
    requires { is_nameable plan.now script.now ≡ true }
    ensures value { IfOk result (λ text. text ≡ script_text plan.now script.now) }
    ensures means { IfOk result (λ text.
        length text ≤ MAX_SCRIPT → MeansPlain plan.now text (Ok script.now)) }
{
    let mut text = Vec::new(alloc);
    push_start(&mut text, &script.start)?;
    push_stamps(&mut text, plan.anacrontab().lines(), script.start.stamps())?;
    push_events(alloc, &mut text, plan, script.events.as_slice())?;
    Ok(Bytes::from_vec(text))
}
