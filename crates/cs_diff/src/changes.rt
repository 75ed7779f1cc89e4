//! What an edit changes of the jobs.
use crate::binding::Binding;
use crate::page::Page;
use crate::side::Side;
use crate::terms::{push_plan_terms, push_terms};
use crate::times::push_times;
use cs_plan::identifier_of;
use std::alloc::AllocError;

/// Adds `gone: line 3: COMMAND`, or `gone: job ID` of an anacron job.
fn push_whole(page: &mut Page, front: &str, side: Side<'_>, job: u16) -> Result<(), AllocError> {
    page.begin()?;
    page.words(front)?;
    match side.line(job) {
        Some(line) => {
            page.words("line ")?;
            page.number(u64::from(line.number()))?;
            page.words(": ")?;
            page.code(line.command())?;
        }
        None => {
            page.words("job ")?;
            page.code(identifier_of(side.plan, usize::from(job)))?;
        }
    }
    page.end()
}

fn has_moved(old: Side<'_>, new: Side<'_>, was: u16, job: u16) -> bool {
    match (old.line(was), new.line(job)) {
        (Some(before), Some(after)) => before.number() != after.number(),
        _ => false,
    }
}

/// Adds what changed of the jobs that both plans have; returns how many moved to another line, and
/// changed in nothing else.
fn push_changed(
    page: &mut Page,
    old: Side<'_>,
    new: Side<'_>,
    binding: &Binding,
) -> Result<u64, AllocError> {
    let (count, mut moved) = (new.plan.jobs().len() as u16, 0u64);
    for job in 0..count {
        if let Some(was) = binding.was(job) {
            let before = page.text.len();
            push_times(page, old, new, was, job)?;
            push_terms(page, (old, was), (new, job))?;
            if page.text.len() == before && has_moved(old, new, was, job) {
                moved = moved.saturating_add(1);
            }
        }
    }
    Ok(moved)
}

fn push_gone_and_new(
    page: &mut Page,
    old: Side<'_>,
    new: Side<'_>,
    binding: &Binding,
) -> Result<(), AllocError> {
    let (before, after) = (old.plan.jobs().len() as u16, new.plan.jobs().len() as u16);
    for job in 0..before {
        if !binding.stays(job) {
            push_whole(page, "gone: ", old, job)?;
        }
    }
    for job in 0..after {
        if binding.was(job).is_none() {
            push_whole(page, "new: ", new, job)?;
        }
    }
    Ok(())
}

/// Adds a line for each change: jobs that went, that came, lines that are left out, how many moved, and what is otherwise of
/// the others and of the plan.
pub(crate) fn push_changes(
    page: &mut Page,
    old: Side<'_>,
    new: Side<'_>,
    binding: &Binding,
) -> Result<(), AllocError> {
    push_gone_and_new(page, old, new, binding)?;
    new.push_left_out(page, old)?;
    let mut changed = Page::new(page.alloc, page.markdown);
    let moved = push_changed(&mut changed, old, new, binding)?;
    if 0 < moved {
        page.begin()?;
        page.words("moved: ")?;
        page.number(moved)?;
        page.words(if moved == 1 { " job" } else { " jobs" })?;
        page.end()?;
    }
    page.text.extend_from_slice(changed.text.as_slice())?;
    push_plan_terms(page, old, new)
}
