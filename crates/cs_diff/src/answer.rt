//! The subcommand `diff`.
ghost use Rattle.std.specs.Prelude.{◌≡◌, ◌≢◌, ◌⊎◌, IfOk};
ghost use Rattle.cs_diff.specs.Answer.{IsDiff};
ghost use Rattle.cs_diff.specs.Verdict.{IsVerdict};

use crate::binding::{Binding, bound};
use crate::changes::push_changes;
use crate::meeting::{Meeting, new_meetings};
use crate::page::Page;
use crate::shrunk::push_shrunk;
use crate::side::Side;
use crate::since::first_day;
use crate::times::push_clock;
use crate::verdict::{Verdict, verdict_on};
use cs_args::{DiffWords, WordFault};
use cs_civil::{Bytes, Day, day_text};
use cs_decl::{CronEntry, DeclError, Declarations, read_declarations};
use cs_files::{Fault, Planned, Response, Status};
use std::alloc::{AllocError, Global};
use std::thread::Threads;

/// How many pairs are shown.
const MOST_PAIRS: usize = 100;

/// The entries of cron jobs, for the names in them.
fn entries_of(declared: &Result<Declarations, DeclError>) -> Result<&[CronEntry], AllocError> {
    match declared {
        Ok(declarations) => Ok(declarations.entries().cron.as_slice()),
        Err(DeclError::OutOfMemory) => Err(AllocError),
        Err(DeclError::At { .. }) => Ok(&[]),
    }
}

/// The rule of the zone that is declared; empty without one.
fn zone_of(declared: &Result<Declarations, DeclError>) -> &[u8] {
    match declared {
        Ok(declarations) => match &declarations.entries().zone {
            Some(rule) => rule.as_slice(),
            None => &[],
        },
        Err(_) => &[],
    }
}

/// Adds `NAME and NAME may meet, on 2026-12-01 first, at 23:30`.
fn push_meeting(page: &mut Page, side: Side<'_>, meeting: Meeting) -> Result<(), AllocError> {
    page.begin()?;
    page.job(side, meeting.one)?;
    page.words(" and ")?;
    page.job(side, meeting.other)?;
    page.words(" may meet, on ")?;
    page.text.extend_from_slice(&day_text(meeting.day))?;
    page.words(" first, at ")?;
    push_clock(page, u32::from(meeting.minute))?;
    page.end()
}

fn push_meetings(page: &mut Page, side: Side<'_>, meetings: &[Meeting]) -> Result<(), AllocError> {
    for (place, meeting) in meetings.iter().enumerate() {
        if place < MOST_PAIRS {
            push_meeting(page, side, *meeting)?;
        }
    }
    if MOST_PAIRS < meetings.len() {
        page.begin()?;
        page.words("and ")?;
        page.number((meetings.len() - MOST_PAIRS) as u64)?;
        page.words(" more")?;
        page.end()?;
    }
    Ok(())
}

/// The lines of all changes, and of the pairs that may meet.
fn lines_of(
    alloc: Global,
    markdown: bool,
    old: Side<'_>,
    new: Side<'_>,
    binding: &Binding,
    meetings: &[Meeting],
) -> Result<Vec<u8>, AllocError> {
    let mut page = Page::new(alloc, markdown);
    push_changes(&mut page, old, new, binding)?;
    push_meetings(&mut page, new, meetings)?;
    Ok(page.text)
}

/// The lines of rooms that shrank, if both plans are safe.
fn rooms_of<R: Threads + Sync>(
    rt: &R,
    alloc: Global,
    markdown: bool,
    old: (Side<'_>, Verdict),
    new: (Side<'_>, Verdict),
    binding: &Binding,
) -> Result<Vec<u8>, AllocError>
    requires { IsVerdict old.0.plan.now old.1 × IsVerdict new.0.plan.now new.1 }
{
    let mut page = Page::new(alloc, markdown);
    if let (Verdict::Safe, Verdict::Safe) = (old.1, new.1) {
        push_shrunk(rt, &mut page, old.0, new.0, binding)?;
    }
    Ok(page.text)
}

fn verdict_line(
    alloc: Global,
    markdown: bool,
    old: Verdict,
    new: Verdict,
) -> Result<Vec<u8>, AllocError> {
    let (front, end) = if markdown {
        ("### verdict: ", "\n\n")
    } else {
        ("verdict: ", "\n")
    };
    let (was, is) = (old.text(), new.text());
    Ok(format!(in alloc; "{front}{is}, was {was}{end}")?.into_bytes())
}

/// All lines: in Markdown the verdict is their heading.
fn whole_text(
    alloc: Global,
    markdown: bool,
    lines: &[u8],
    verdict: &[u8],
    rooms: &[u8],
) -> Result<Vec<u8>, AllocError> {
    let none: &[u8] = if markdown {
        b"- no change\n"
    } else {
        b"no change\n"
    };
    let lines = if lines.is_empty() { none } else { lines };
    let (first, second) = if markdown {
        (verdict, lines)
    } else {
        (lines, verdict)
    };
    let mut text = Vec::from_slice(alloc, first)?;
    text.extend_from_slice(second)?;
    text.extend_from_slice(rooms)?;
    Ok(text)
}

fn text_of<R: Threads + Sync>(
    rt: &R,
    alloc: Global,
    markdown: bool,
    old: (Side<'_>, Verdict),
    new: (Side<'_>, Verdict),
    binding: &Binding,
    meetings: &[Meeting],
) -> Result<Vec<u8>, AllocError>
    requires { IsVerdict old.0.plan.now old.1 × IsVerdict new.0.plan.now new.1 }
{
    let lines = lines_of(alloc, markdown, old.0, new.0, binding, meetings)?;
    let rooms = if lines.is_empty() {
        Vec::new(alloc)
    } else {
        rooms_of(rt, alloc, markdown, old, new, binding)?
    };
    let verdict = verdict_line(alloc, markdown, old.1, new.1)?;
    whole_text(
        alloc,
        markdown,
        lines.as_slice(),
        verdict.as_slice(),
        rooms.as_slice(),
    )
}

/// Compares the plans, on days from the first on.
fn compared<R: Threads + Sync>(
    rt: &R,
    alloc: Global,
    markdown: bool,
    old: Side<'_>,
    new: Side<'_>,
    first: Day,
) -> Result<Response, AllocError>
    ensures { IfOk result (IsDiff old.entry.plan.now new.entry.plan.now) }
{
    let binding = bound(alloc, old.plan, new.plan)?;
    let meetings = new_meetings(alloc, old.plan, new.plan, &binding, first)?;
    let was = verdict_on(rt, alloc, old.plan)?;
    let is = verdict_on(rt, alloc, new.plan)?;
    let pairs = meetings.as_slice();
    let text = text_of(rt, alloc, markdown, (old, was), (new, is), &binding, pairs)?;
    let status = if was.is_better_than(is) || !pairs.is_empty() {
        Status::Refused
    } else {
        Status::Done
    };
    Ok(Response::told(status, text, Bytes::new(alloc)))
}

/// Compares what files hold, each with its declarations once more.
fn answered<R: Threads + Sync>(
    rt: &R,
    alloc: Global,
    markdown: bool,
    old: (&Planned, &Result<Declarations, DeclError>),
    new: (&Planned, &Result<Declarations, DeclError>),
    first: Day,
) -> Result<Response, AllocError>
    ensures { IfOk result (IsDiff old.entry.0.now.plan new.entry.0.now.plan) }
{
    let before = Side {
        plan: &old.0.plan,
        entries: entries_of(old.1)?,
        zone: zone_of(old.1),
        text: old.0.table.as_slice(),
    };
    let after = Side {
        plan: &new.0.plan,
        entries: entries_of(new.1)?,
        zone: zone_of(new.1),
        text: new.0.table.as_slice(),
    };
    compared(rt, alloc, markdown, before, after, first)
}

/// Answers `diff OLD.cron OLD.json NEW.cron NEW.json`: what an edit changes, on days from the words'
/// day on, else from `today` on. Status 1 if the verdict got worse, or if windows may meet that
/// couldn't before. The only error is out of memory.
pub fn answer_diff<R: Threads + Sync>(
    rt: &R,
    alloc: Global,
    words: &DiffWords<'_>,
    today: Day,
    old: &Planned,
    new: &Planned,
) -> Result<Response, AllocError>
    ensures diff { IfOk result
        (λ r. (r.status ≡ 3) ⊎ IsDiff old.now.plan new.now.plan r) }
    ensures done { IfOk result (λ r. r.status ≢ 6) }
{
    let first = match first_day(words.since, today) {
        Ok(day) => day,
        Err(fault) => return Fault::Words(WordFault::Date(fault)).response(alloc, b"".as_slice()),
    };
    let before = read_declarations(alloc, old.declarations.as_slice());
    let after = read_declarations(alloc, new.declarations.as_slice());
    let response = answered(
        rt,
        alloc,
        words.markdown,
        (old, &before),
        (new, &after),
        first,
    );
    drop(before);
    drop(after);
    response
}
