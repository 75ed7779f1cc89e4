//! The changes that make a plan safe, as they are printed.
ghost use Rattle.std.specs.Prelude.{◌≤◌, IfOk, IfSome, length};
ghost use Rattle.cs_advise.specs.Advice.{IsAdvice, IsSafeLine};

use crate::change::Change;
use crate::changing::changed_plan;
use crate::source::Source;
use crate::told::change_line;
use cs_judge::called_safe;
use cs_plan::Plan;
use std::alloc::{AllocError, Global};
use std::thread::Threads;

#[derive(Drop)]
pub(crate) struct Advice {
    pub(crate) changes: Vec<Change>,
    pub(crate) text: Vec<u8>,
}

fn safe_line<R: Threads + Sync>(
    rt: &R,
    alloc: Global,
    source: &Source,
    plan: &Plan,
    change: &Change,
) -> Result<Option<Vec<u8>>, AllocError>
    ensures { IfOk result (λ found. IfSome found
        (λ line. IsSafeLine source.now plan.now change.now line.items)) }
{
    let Some(changed) = changed_plan(alloc, source, plan, change)? else {
        return Ok(None);
    };
    let Some(checked) = called_safe(rt, alloc, &changed.plan)? else {
        return Ok(None);
    };
    let pasted = changed.pasted.as_slice();
    Ok(Some(change_line(alloc, plan, &checked, change, pasted)?))
}

/// Judges the changes in order until `most` of them make the plan safe.
pub(crate) fn told_changes<R: Threads + Sync>(
    rt: &R,
    alloc: Global,
    source: &Source,
    plan: &Plan,
    changes: Vec<Change>,
    most: usize,
) -> Result<Advice, AllocError>
    ensures advice { IfOk result
        (λ advice. IsAdvice source.now plan.now advice.changes.items advice.text.items) }
    ensures few { IfOk result (λ advice. length advice.changes.items ≤ most) }
{
    let mut told = Vec::new(alloc);
    let mut text = Vec::new(alloc);
    for change in changes {
        if most <= told.len() {
            break;
        }
        if let Some(line) = safe_line(rt, alloc, source, plan, &change)? {
            text.extend_from_slice(line.as_slice())?;
            told.push(change)?;
        }
    }
    Ok(Advice {
        changes: told,
        text,
    })
}
