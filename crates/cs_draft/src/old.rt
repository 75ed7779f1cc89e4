//! Old declarations as JSON, and the lines to which their entries belong.

use crate::layout::Done;
use crate::told::tell_of;
use cs_crontab::Line;
use cs_decl::{CronEntry, Entries, LineName, is_told_when};
use cs_plan::is_reboot;
use serde_json::Value;
use std::alloc::{AllocError, Global};

/// Old declarations as JSON, and as they were read.
#[derive(Clone, Copy)]
pub(crate) struct Old<'v> {
    pub(crate) value: &'v Value,
    pub(crate) entries: &'v Entries,
    /// Whether nothing was declared: then nothing is noted as new.
    pub(crate) is_draft: bool,
    /// The line that starts more than once in a minute by the zone, which a draft then doesn't name.
    pub(crate) twice: Option<u32>,
}

/// An entry that gives a command.
#[derive(Clone, Copy)]
pub(crate) struct Bound<'v> {
    pub(crate) value: &'v Value,
    pub(crate) name: &'v LineName,
    /// None for an entry of `left_out`.
    pub(crate) entry: Option<&'v CronEntry>,
}

impl<'v> Bound<'v> {
    pub(crate) fn command(&self) -> &'v [u8] {
        match &self.name.command {
            Some(command) => command.as_slice(),
            None => &[],
        }
    }
}

/// The items of the list of that name; none where it is absent.
pub(crate) fn items<'v>(value: &'v Value, name: &str) -> &'v [Value] {
    match value.get(name).and_then(Value::as_array) {
        Some(list) => list.as_slice(),
        None => &[],
    }
}

pub(crate) fn text_of<'v>(value: &'v Value, name: &str) -> Option<&'v str> {
    value.get(name)?.as_str()
}

/// The first item whose member of that name is the text.
pub(crate) fn item_of<'v>(items: &'v [Value], name: &str, text: &[u8]) -> Option<&'v Value> {
    for item in items {
        if let Some(told) = text_of(item, name)
            && told.as_bytes() == text
        {
            return Some(item);
        }
    }
    None
}

/// Adds the entry at that place if it gives a command; else notes that it isn't kept.
fn push_bound<'v>(
    alloc: Global,
    told: &mut Vec<u8>,
    bound: &mut Vec<Bound<'v>>,
    list: &str,
    place: usize,
    entry: Bound<'v>,
) -> Done {
    if entry.name.command.is_some() {
        bound.push(entry)?;
        return Ok(());
    }
    let number = place.saturating_add(1) as u64;
    tell_of(
        alloc,
        told,
        list,
        number,
        " is not kept: it tells no command",
        "",
        "",
    )
}

/// The entries that give a command, in the order of their lines' numbers. Notes the others.
pub(crate) fn bound_in<'v>(
    alloc: Global,
    told: &mut Vec<u8>,
    old: Old<'v>,
) -> Result<Vec<Bound<'v>>, AllocError> {
    let mut bound = Vec::new(alloc);
    let entries = old.entries.cron.as_slice().iter();
    for (i, (value, entry)) in items(old.value, "cron").iter().zip(entries).enumerate() {
        let (name, entry) = (&entry.name, Some(entry));
        push_bound(
            alloc,
            told,
            &mut bound,
            "note: cron ",
            i,
            Bound { value, name, entry },
        )?;
    }
    let names = old.entries.left_out.as_slice().iter();
    for (i, (value, name)) in items(old.value, "left_out").iter().zip(names).enumerate() {
        let entry = None;
        push_bound(
            alloc,
            told,
            &mut bound,
            "note: left_out ",
            i,
            Bound { value, name, entry },
        )?;
    }
    bound.sort_by_key(|entry| entry.name.number)?;
    Ok(bound)
}

// ---- the entries of lines

/// A line and its entry, by their indices.
#[derive(Clone, Copy)]
pub(crate) struct Pair {
    pub(crate) line: usize,
    pub(crate) entry: usize,
}

pub(crate) fn entry_at(pairs: &[Pair], line: usize) -> Option<usize> {
    for pair in pairs {
        if pair.line == line {
            return Some(pair.entry);
        }
    }
    None
}

pub(crate) fn has_line(pairs: &[Pair], entry: usize) -> bool {
    for pair in pairs {
        if pair.entry == entry {
            return true;
        }
    }
    false
}

/// How an entry's schedule compares with that of a line of its command.
#[derive(Clone, Copy)]
enum Tells {
    This,
    None,
    Other,
}

/// Whether the entry can belong to the line. If a line of the command is `@reboot`, it has the
/// entries of `left_out` that give no schedule, or another one.
fn fits(tells: Tells, entry: &Bound<'_>, line: &Line, has_reboot: bool) -> bool {
    let when = &entry.name.when;
    let is_told = match tells {
        Tells::This => when.is_some() && is_told_when(when, line.when()),
        Tells::None => when.is_none(),
        Tells::Other => when.is_some(),
    };
    let is_left_out = entry.entry.is_none();
    let can_be = if is_reboot(line) {
        is_left_out
    } else {
        !(is_left_out && has_reboot)
    };
    is_told && can_be && entry.command() == line.command()
}

/// The entry of the line, by its index. Of the entries and lines without a partner, the first
/// belongs to the first if there are as many of both; with other schedules, only if there is one of
/// both.
fn owner_of(
    tells: Tells,
    bound: &[Bound<'_>],
    lines: &[Line],
    pairs: &[Pair],
    line: &Line,
) -> Option<usize> {
    let has_reboot = !matches!(tells, Tells::This)
        && lines.iter().any(|other| other.command() == line.command() && is_reboot(other));
    let mut owner = None;
    let mut entries = 0usize;
    for (i, entry) in bound.iter().enumerate() {
        if fits(tells, entry, line, has_reboot) && !has_line(pairs, i) {
            owner = owner.or(Some(i));
            entries = entries.saturating_add(1);
        }
    }
    let entry = bound.get(owner?)?;
    let mut count = 0usize;
    for (i, other) in lines.iter().enumerate() {
        if fits(tells, entry, other, has_reboot) && entry_at(pairs, i).is_none() {
            count = count.saturating_add(1);
        }
    }
    let is_clear = match tells {
        Tells::Other => entries == 1 && count == 1,
        _ => entries == count || is_reboot(line),
    };
    if is_clear { owner } else { None }
}

/// The lines that have an entry: first by the same schedule, then by entries that give none, then
/// by those that give another.
pub(crate) fn pairs_of(
    alloc: Global,
    bound: &[Bound<'_>],
    lines: &[Line],
) -> Result<Vec<Pair>, AllocError> {
    let mut pairs: Vec<Pair> = Vec::new(alloc);
    for tells in [Tells::This, Tells::None, Tells::Other] {
        for (place, line) in lines.iter().enumerate() {
            if entry_at(pairs.as_slice(), place).is_some() {
                continue;
            }
            if let Some(entry) = owner_of(tells, bound, lines, pairs.as_slice(), line) {
                pairs.push(Pair { line: place, entry })?;
            }
        }
    }
    Ok(pairs)
}
