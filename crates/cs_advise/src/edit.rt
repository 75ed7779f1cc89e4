//! Declarations in which one member has another value, and what is pasted to get them.
ghost use Rattle.std.specs.Prelude.{◌≡◌, ◌++◌, IfOk, IfSome, map};
ghost use Rattle.cs_advise.specs.Edit.{HasOther, IsEntryPut, IsMemberPut, IsPut, blank_control};
ghost use Rattle.cs_advise.specs.Edit.{member_text};

use crate::change::Member;
use crate::text::{joined, replaced};
use cs_diagnostics::{Object, Span, parsed, parts, trimmed};
use cs_history::Mode;
use cs_json::{Misread, parse, write};
use cs_plan::{Plan, identifier_of};
use serde_json::Value;
use std::alloc::{AllocError, Global};

#[derive(Drop)]
pub(crate) struct Edit {
    /// What is pasted.
    pub(crate) pasted: Vec<u8>,
    /// The declarations with it.
    pub(crate) text: Vec<u8>,
}

// ---- where something stands

/// The text as an object without members, if it is none.
fn object_in<'v>(alloc: Global, text: &[u8], value: &'v Value) -> Result<Object<'v>, AllocError> {
    let span = trimmed(text, Span::between(0, text.len()));
    Object::new(alloc, text, (value, span))
}

/// The place of a member's value; the end of the last member, if there is no such member.
fn place_of(alloc: Global, text: &[u8], name: &str) -> Result<Option<Span>, AllocError> {
    let Ok(value) = parsed(alloc, text)? else {
        return Ok(None);
    };
    let object = object_in(alloc, text, &value)?;
    if let Some((_, span)) = object.member(name) {
        return Ok(Some(span));
    }
    match object.members.last() {
        Some((_, part)) => Ok(Some(Span::of(part.value.to, 0))),
        None => Ok(None),
    }
}

/// Whether an entry is that of a job.
fn is_of(plan: &Plan, job: usize, entry: &Object<'_>) -> bool {
    let Some(line) = plan.crontab().lines().get(job) else {
        return match entry.text("id") {
            Some((id, _)) => id.as_bytes() == identifier_of(plan, job),
            None => false,
        };
    };
    match (entry.whole("line"), entry.text("command")) {
        (Some((number, _)), _) => number == i128::from(line.number()),
        (None, Some((command, _))) => command.as_bytes() == line.command(),
        (None, None) => false,
    }
}

fn entry_of(
    alloc: Global,
    plan: &Plan,
    job: usize,
    text: &[u8],
) -> Result<Option<Span>, AllocError> {
    let Ok(value) = parsed(alloc, text)? else {
        return Ok(None);
    };
    let object = object_in(alloc, text, &value)?;
    let name = if job < plan.crons() {
        "cron"
    } else {
        "anacron"
    };
    let Some((list, span)) = object.member(name) else {
        return Ok(None);
    };
    let Some(entries) = list.as_array() else {
        return Ok(None);
    };
    for (entry, part) in entries.iter().zip(parts(alloc, text, span)?.iter()) {
        if is_of(plan, job, &Object::new(alloc, text, (entry, part.value))?) {
            return Ok(Some(part.value));
        }
    }
    Ok(None)
}

// ---- what is put there

fn member_text(alloc: Global, name: &str, value: &[u8]) -> Result<Vec<u8>, AllocError>
    ensures { IfOk result (λ text. text.items ≡ member_text name.now value.now) }
{
    let mut text = Vec::from_slice(alloc, b"\"".as_slice())?;
    text.extend_from_slice(name.as_bytes())?;
    text.extend_from_slice(b"\": ")?;
    text.extend_from_slice(value)?;
    Ok(text)
}

fn with_value(
    alloc: Global,
    text: &[u8],
    name: &str,
    value: &[u8],
) -> Result<Option<Vec<u8>>, AllocError>
    ensures { IfOk result (λ found. IfSome found
        (λ new. HasOther text.now name.now value.now new.items)) }
{
    let Some(span) = place_of(alloc, text, name)? else {
        return Ok(None);
    };
    let part = span.bytes(text);
    if part.is_empty() {
        let member = member_text(alloc, name, value)?;
        let put = joined(alloc, b", ".as_slice(), member.as_slice(), part)?;
        return replaced(alloc, text, span.from, part, put.as_slice());
    }
    match parse(alloc, part) {
        Ok(_) => replaced(alloc, text, span.from, part, value),
        Err(Misread::Memory) => Err(AllocError),
        Err(Misread::Fault(_)) => Ok(None),
    }
}

fn on_one_line(alloc: Global, text: &[u8]) -> Result<Vec<u8>, AllocError>
    ensures { IfOk result (λ line. line.items ≡ map blank_control text.now) }
{
    let mut line = Vec::new(alloc);
    for byte in text {
        line.push(if *byte < 32 { b' ' } else { *byte })?;
    }
    Ok(line)
}

fn entry_put(
    alloc: Global,
    plan: &Plan,
    text: &[u8],
    job: u16,
    name: &str,
    value: &[u8],
) -> Result<Option<Edit>, AllocError>
    ensures { IfOk result (λ found. IfSome found (λ edit.
        IsEntryPut text.now name.now value.now edit.pasted.items edit.text.items)) }
{
    let Some(span) = entry_of(alloc, plan, usize::from(job), text)? else {
        return Ok(None);
    };
    let old = span.bytes(text);
    let Some(new) = with_value(alloc, old, name, value)? else {
        return Ok(None);
    };
    let pasted = on_one_line(alloc, new.as_slice())?;
    match replaced(alloc, text, span.from, old, pasted.as_slice())? {
        Some(text) => Ok(Some(Edit { pasted, text })),
        None => Ok(None),
    }
}

fn member_put(
    alloc: Global,
    text: &[u8],
    name: &str,
    value: &[u8],
) -> Result<Option<Edit>, AllocError>
    ensures { IfOk result (λ found. IfSome found (λ edit.
        IsMemberPut text.now name.now value.now edit.pasted.items edit.text.items)) }
{
    let member = member_text(alloc, name, value)?;
    let pasted = joined(alloc, b"{".as_slice(), member.as_slice(), b"}".as_slice())?;
    match with_value(alloc, text, name, value)? {
        Some(text) => Ok(Some(Edit { pasted, text })),
        None => Ok(None),
    }
}

/// Declarations with another value of a member; none where it has no place.
pub(crate) fn edit_of(
    alloc: Global,
    plan: &Plan,
    text: &[u8],
    member: &Member,
) -> Result<Option<Edit>, AllocError>
    ensures { IfOk result (λ found. IfSome found
        (λ edit. IsPut member.now text.now edit.pasted.items edit.text.items)) }
{
    match member {
        Member::Max(job, max) => {
            let value = write(alloc, max)?;
            entry_put(alloc, plan, text, *job, "max", value.as_slice())
        }
        Member::Mode(job, mode) => {
            let value: &[u8] = match mode {
                Mode::Plain => b"\"none\"",
                Mode::Skip => b"\"skip\"",
                Mode::Try => b"\"try\"",
                Mode::Wait => b"\"wait\"",
                Mode::Shared => b"\"shared\"",
            };
            entry_put(alloc, plan, text, *job, "mode", value)
        }
        Member::Capacity(capacity) => {
            let value = write(alloc, capacity)?;
            member_put(alloc, text, "capacity", value.as_slice())
        }
        Member::Hours(hours) => {
            let value = write(alloc, &(hours.from(), hours.to()))?;
            member_put(alloc, text, "hours", value.as_slice())
        }
    }
}
