use crate::words::{push_group, push_terms};
use cs_civil::{Bytes, Minute, kind_of, push_number};
use cs_crontab::{Line, When};
use cs_plan::{Job, Plan, push_command_name};
use std::alloc::{AllocError, Global};

fn is_of(group: usize, job: Job) -> bool {
    match job.group() {
        Some(own) => usize::from(own) == group,
        None => false,
    }
}

fn is_waited_for(plan: &Plan, group: usize) -> bool {
    for job in plan.jobs() {
        if job.mode().waits() && is_of(group, *job) {
            return true;
        }
    }
    false
}

fn add_takers(
    alloc: Global,
    story: &mut Vec<Bytes>,
    plan: &Plan,
    group: usize,
) -> Result<(), AllocError> {
    for (number, job) in plan.jobs().iter().enumerate() {
        if job.mode().takes_lock() && is_of(group, *job) {
            let mut words = Vec::from_slice(alloc, b"  ".as_slice())?;
            push_command_name(alloc, &mut words, plan, number)?;
            words.extend_from_slice(b": ")?;
            push_terms(alloc, &mut words, plan, *job)?;
            story.push(Bytes::from_vec(words))?;
        }
    }
    Ok(())
}

/// Returns the comments on `NoReach`: each group that a job waits for, with the jobs that take its
/// lock. The only error is out of memory.
pub fn no_reach(alloc: Global, plan: &Plan) -> Result<Vec<Bytes>, AllocError> {
    let words = b"in one of these groups, a run may wait for the lock for more than three days, or \
        for ever";
    let mut story = Vec::new(alloc);
    story.push(Bytes::from_slice(alloc, words)?)?;
    for group in 0..plan.groups().len() {
        if is_waited_for(plan, group) {
            let mut words = Vec::from_slice(alloc, b"group ".as_slice())?;
            push_group(&mut words, plan, group)?;
            story.push(Bytes::from_vec(words))?;
            add_takers(alloc, &mut story, plan, group)?;
        }
    }
    Ok(story)
}

fn push_taker_note(
    alloc: Global,
    text: &mut Vec<u8>,
    plan: &Plan,
    at: Minute,
    job: Job,
    line: &Line,
) -> Result<(), AllocError> {
    text.extend_from_slice(b"note: line ")?;
    push_number(alloc, text, u128::from(line.number()))?;
    text.extend_from_slice(b" takes the lock: ")?;
    push_terms(alloc, text, plan, job)?;
    if let When::At(schedule) = line.when() {
        if plan
            .zone()
            .is_due_on(schedule, kind_of(at.day()), at.minute_of_day())
        {
            text.extend_from_slice(b", due then")?;
        }
    }
    text.extend_from_slice(b"\n")
}

/// Returns a note for each job that takes the lock of the group, and whether it is due at the
/// minute: `note: line 2 takes the lock: max 90, weight 1, group disk, mode wait, due then`. The
/// only error is out of memory.
pub fn taker_notes(
    alloc: Global,
    plan: &Plan,
    group: usize,
    at: Minute,
) -> Result<Vec<u8>, AllocError> {
    let mut text = Vec::new(alloc);
    for (number, line) in plan.crontab().lines().iter().enumerate() {
        if let Some(job) = plan.jobs().get(number) {
            if job.mode().takes_lock() && is_of(group, *job) {
                push_taker_note(alloc, &mut text, plan, at, *job, line)?;
            }
        }
    }
    Ok(text)
}
