ghost use Rattle.std.specs.Prelude.{◌≡◌};
ghost use Rattle.std.specs.List.{list_all};
ghost use Rattle.cs_history.specs.Step.{is_civil};
ghost use Rattle.cs_report.specs.ScriptText.{are_nameable_stamps, is_anacron_name, is_cron_name};
ghost use Rattle.cs_report.specs.ScriptText.{is_name, is_nameable, is_nameable_event};
ghost use Rattle.cs_report.specs.ScriptText.{is_nameable_stamp};

use crate::entry::FIRST_START;
use crate::words::is_word;
use cs_anacrontab::Job;
use cs_civil::{Day, Minute};
use cs_history::{Event, Script};
use cs_plan::{Plan, identifier_of};

#[tactic(auto, unfolding(crate::specs::ScriptText::is_name))]
fn is_name(text: &[u8]) -> bool
    ensures { result ≡ is_name text.now }
{
    is_word(text) && !text.contains(&b'\n')
}

pub(crate) fn is_cron(plan: &Plan, job: u16) -> bool
    ensures { result ≡ is_cron_name plan.now job }
{
    usize::from(job) < plan.crontab().lines().len()
}

#[tactic(auto, unfolding(crate::specs::ScriptText::is_anacron_name))]
fn is_anacron(plan: &Plan, job: u16) -> bool
    ensures { result ≡ is_anacron_name plan.now job }
{
    let crons = plan.crontab().lines().len();
    let number = usize::from(job);
    if number < crons || number - crons >= plan.anacrontab().lines().len() {
        return false;
    }
    is_name(identifier_of(plan, number))
}

fn is_civil(minute: u64) -> bool
    ensures { result ≡ is_civil minute }
{
    Minute::new(minute).is_some()
}

#[tactic(auto, unfolding(crate::specs::ScriptText::is_job_name))]
fn is_nameable_event(plan: &Plan, event: Event) -> bool
    ensures { result ≡ is_nameable_event plan.now event }
{
    match event {
        Event::Minute(at) | Event::Up(at) => is_civil(at),
        Event::Begin(job) => is_cron(plan, job),
        Event::Got(job, at) => is_cron(plan, job) && is_civil(at),
        Event::Catch(job) => is_anacron(plan, job),
        Event::End(run) => {
            (is_cron(plan, run.job) || is_anacron(plan, run.job)) && is_civil(run.at)
        }
        Event::Down => true,
    }
}

fn is_nameable_stamp(job: &Job, stamp: Option<Day>) -> bool
    ensures { result ≡ is_nameable_stamp job.now stamp }
{
    match stamp {
        Some(day) => day.number() >= 1 && is_name(job.identifier()),
        None => true,
    }
}

#[tactic(auto, unfolding(crate::specs::ScriptText::are_nameable_stamps))]
fn are_nameable_stamps(jobs: &[Job], stamps: &[Option<Day>]) -> bool
    ensures { result ≡ are_nameable_stamps jobs.now stamps.now }
{
    let mut jobs = jobs;
    let mut stamps = stamps;
    while let [job, more_jobs @ ..] = jobs {
        let [stamp, more_stamps @ ..] = stamps else {
            return false;
        };
        if !is_nameable_stamp(job, *stamp) {
            return false;
        }
        jobs = more_jobs;
        stamps = more_stamps;
    }
    stamps.is_empty()
}

fn are_nameable_events(plan: &Plan, events: &[Event]) -> bool
    ensures { result ≡ list_all (is_nameable_event plan.now) events.now }
{
    events.iter().all(|event| is_nameable_event(plan, *event))
}

/// Checks whether the script has a text: its start is from 1970-01-04 00:00 on and its other
/// minutes from 1970-01-02 00:00 to 9999-12-31 23:59, it has a place for a stamp of each job of the
/// anacrontab, and each event is of a job of its kind.
#[tactic(auto, unfolding(crate::specs::ScriptText::is_nameable))]
pub fn is_nameable(plan: &Plan, script: &Script) -> bool
    ensures { result ≡ is_nameable plan.now script.now }
{
    if script.start.now().number() < FIRST_START {
        return false;
    }
    if !are_nameable_stamps(plan.anacrontab().lines(), script.start.stamps()) {
        return false;
    }
    are_nameable_events(plan, script.events.as_slice())
}
