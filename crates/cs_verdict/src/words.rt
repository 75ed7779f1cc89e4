ghost use Rattle.std.specs.Prelude.{◌≡◌, ◌++◌, ℕ, List, OnOk, flat_map, map};
ghost use Rattle.cs_verdict.specs.Story.{comment, on_one_line};

use crate::breach::{Breach, takes_part};
use cs_civil::{Bytes, FIRST_MINUTE, LAST_MINUTE, Minute, date_text, push_number};
use cs_counterexample::{Shown, push_run_name};
use cs_history::{Event, Going, Run, Script};
use cs_place::push_shown;
use cs_plan::{Job, Plan};
use cs_wall::push_wall;
use std::alloc::{AllocError, Global};

/// How many bytes of a command are shown.
const WIDTH: usize = 100;

fn push_on_one_line(text: &mut Vec<u8>, words: &[u8]) -> Result<(), AllocError>
    ensures { OnOk result (text.new.items ≡ text.old.items ++ map on_one_line words.now) }
{
    for byte in words {
        text.push(if *byte == b'\n' { b' ' } else { *byte })?;
    }
    Ok(())
}

/// Adds a comment of a script for each of these words. The only error is out of memory.
#[tactic(auto, unfolding(crate::specs::Story::comment))]
pub fn push_comments(text: &mut Vec<u8>, story: &[Bytes]) -> Result<(), AllocError>
    ensures { OnOk result (text.new.items ≡ text.old.items ++ flat_map comment story.now) }
{
    for words in story {
        text.extend_from_slice(b"# ")?;
        push_on_one_line(text, words.as_slice())?;
        text.extend_from_slice(b"\n")?;
    }
    Ok(())
}

/// The front of a text that is shown, up to an ASCII byte, so that no character is cut in two.
fn whole_front(text: &[u8]) -> &[u8] {
    let mut front = text;
    while let [before @ .., last] = front {
        if front.len() <= WIDTH && *last < 128 {
            return front;
        }
        front = before;
    }
    front
}

/// Empty if there is no such job.
fn command_at(plan: &Plan, job: usize) -> &[u8] {
    if let Some(line) = plan.crontab().lines().get(job) {
        return line.command();
    }
    match plan
        .anacrontab()
        .lines()
        .get(job.saturating_sub(plan.crons()))
    {
        Some(line) => line.command(),
        None => b"",
    }
}

fn command_words(alloc: Global, plan: &Plan, job: u16) -> Result<Bytes, AllocError> {
    let command = command_at(plan, usize::from(job));
    let mut words = Vec::from_slice(alloc, b"  ".as_slice())?;
    if command.len() <= WIDTH {
        push_shown(&mut words, command)?;
    } else {
        push_shown(&mut words, whole_front(command))?;
        words.extend_from_slice(b"..")?;
    }
    Ok(Bytes::from_vec(words))
}

pub(crate) fn push_group(text: &mut Vec<u8>, plan: &Plan, group: usize) -> Result<(), AllocError> {
    match plan.groups().get(group) {
        Some(group) => push_shown(text, group.name()),
        None => Ok(()),
    }
}

fn push_group_of(text: &mut Vec<u8>, plan: &Plan, job: Job) -> Result<(), AllocError> {
    match job.group() {
        Some(group) => push_group(text, plan, usize::from(group)),
        None => Ok(()),
    }
}

/// How declarations write each mode, in the order of [`Mode`].
const MODES: [&str; 5] = ["none", "skip", "try", "wait", "shared"];

/// Adds what is declared of a job: `max 30, weight 1, group disk, mode wait`.
pub(crate) fn push_terms(
    alloc: Global,
    text: &mut Vec<u8>,
    plan: &Plan,
    job: Job,
) -> Result<(), AllocError> {
    text.extend_from_slice(b"max ")?;
    push_number(alloc, text, u128::from(job.max()))?;
    text.extend_from_slice(b", weight ")?;
    push_number(alloc, text, u128::from(job.weight()))?;
    if job.group().is_none() {
        return Ok(());
    }
    text.extend_from_slice(b", group ")?;
    push_group_of(text, plan, job)?;
    text.extend_from_slice(b", mode ")?;
    text.extend_from_slice(MODES[job.mode() as usize].as_bytes())
}

/// The minute with this number. One that has no date becomes the first or the last that has one.
fn dated(minute: u64) -> Minute {
    Minute::new(minute.max(FIRST_MINUTE).min(LAST_MINUTE)).unwrap()
}

fn push_run(alloc: Global, text: &mut Vec<u8>, plan: &Plan, run: Run) -> Result<(), AllocError> {
    push_run_name(alloc, text, plan, usize::from(run.job))?;
    text.extend_from_slice(&date_text(dated(run.at)))
}

/// Adds a minute, and what the zone's clock shows then if that differs.
fn push_minute(text: &mut Vec<u8>, plan: &Plan, minute: Minute) -> Result<(), AllocError> {
    text.extend_from_slice(&date_text(minute))?;
    match plan.clocks() {
        Some(names) => push_wall(text, plan.zone(), names.other.as_slice(), minute),
        None => Ok(()),
    }
}

fn run_words(alloc: Global, plan: &Plan, going: Going) -> Result<Bytes, AllocError> {
    let max = u64::from(plan.job_at(going.run.job).max());
    let mut words = Vec::new(alloc);
    push_run(alloc, &mut words, plan, going.run)?;
    words.extend_from_slice(b": began ")?;
    push_minute(&mut words, plan, dated(going.since))?;
    words.extend_from_slice(b", may go on until ")?;
    push_minute(&mut words, plan, dated(going.since.saturating_add(max - 1)))?;
    Ok(Bytes::from_vec(words))
}

fn terms_words(alloc: Global, plan: &Plan, shown: Shown, job: u16) -> Result<Bytes, AllocError> {
    let mut words = Vec::from_slice(alloc, b"  ".as_slice())?;
    if let Shown::Skipped(skipped, _) = shown {
        words.extend_from_slice(b"holds ")?;
        push_group_of(&mut words, plan, plan.job_at(skipped))?;
        words.extend_from_slice(b", ")?;
    }
    push_terms(alloc, &mut words, plan, plan.job_at(job))?;
    Ok(Bytes::from_vec(words))
}

/// Adds when a run began, its command, and what is declared of its job.
fn add_run(
    alloc: Global,
    story: &mut Vec<Bytes>,
    plan: &Plan,
    shown: Shown,
    going: Going,
) -> Result<(), AllocError> {
    story.push(run_words(alloc, plan, going)?)?;
    story.push(command_words(alloc, plan, going.run.job)?)?;
    story.push(terms_words(alloc, plan, shown, going.run.job)?)?;
    Ok(())
}

fn push_broken_words(
    alloc: Global,
    text: &mut Vec<u8>,
    plan: &Plan,
    shown: Shown,
    minute: Minute,
) -> Result<(), AllocError> {
    match shown {
        Shown::Together(one, _) => {
            text.extend_from_slice(b"both need ")?;
            push_group_of(text, plan, plan.job_at(one.job))?;
        }
        Shown::Load(load) => {
            text.extend_from_slice(b"load ")?;
            push_number(alloc, text, u128::from(load))?;
            text.extend_from_slice(b" of ")?;
            push_number(alloc, text, u128::from(plan.capacity()))?;
        }
        Shown::Skipped(job, due) => {
            push_run(alloc, text, plan, Run { job, at: due })?;
            text.extend_from_slice(b" is skipped: ")?;
            push_group_of(text, plan, plan.job_at(job))?;
            return text.extend_from_slice(b" is held");
        }
    }
    text.extend_from_slice(b" at ")?;
    push_minute(text, plan, minute)
}

fn add_broken(
    alloc: Global,
    story: &mut Vec<Bytes>,
    plan: &Plan,
    shown: Shown,
    minute: Minute,
) -> Result<(), AllocError> {
    let mut words = Vec::new(alloc);
    push_broken_words(alloc, &mut words, plan, shown, minute)?;
    story.push(Bytes::from_vec(words))?;
    if let Shown::Skipped(job, _) = shown {
        story.push(command_words(alloc, plan, job)?)?;
    }
    Ok(())
}

/// Adds in comments what is broken at the minute: which lock two runs need, what the load is, or
/// which lock is held, and below that the command of the run that is skipped. The only error is out
/// of memory.
pub fn push_broken(
    alloc: Global,
    text: &mut Vec<u8>,
    plan: &Plan,
    shown: Shown,
    minute: Minute,
) -> Result<(), AllocError>
    ensures { OnOk result ((story : List (List ℕ))
        × (text.new.items ≡ text.old.items ++ flat_map comment story)) }
{
    let mut story = Vec::new(alloc);
    add_broken(alloc, &mut story, plan, shown, minute)?;
    push_comments(text, story.as_slice())
}

/// Returns the story of a breach, the words of a comment each: the runs that take part, each with
/// its command; what is broken; and why the script has outages. The only error is out of memory.
pub fn story(
    alloc: Global,
    plan: &Plan,
    script: &Script,
    shown: Shown,
    breach: &Breach,
) -> Result<Vec<Bytes>, AllocError> {
    let mut story = Vec::new(alloc);
    for going in breach.running.as_slice() {
        if takes_part(plan, shown, going.run) {
            add_run(alloc, &mut story, plan, shown, *going)?;
        }
    }
    add_broken(alloc, &mut story, plan, shown, breach.minute)?;
    let mut has_outage = false;
    for event in script.events.as_slice() {
        has_outage = has_outage || matches!(event, Event::Down);
    }
    if has_outage {
        let words = b"an outage, down to up, only skips minutes in which nothing relevant \
            happens; jobs keep running";
        story.push(Bytes::from_slice(alloc, words)?)?;
    }
    Ok(story)
}
