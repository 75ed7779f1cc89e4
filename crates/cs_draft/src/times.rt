//! The longest times of entries and of their parts.

use crate::added::{brief_max, is_guess};
use crate::layout::{COMMA, Done, add, add_members, add_number, add_text, begin};
use crate::old::{item_of, items};
use crate::parts::part_of;
use crate::told::tell_of;
use cs_civil::Bytes;
use cs_command::asked_for;
use cs_crontab::Line;
use cs_decl::PartEntry;
use cs_plan::MAX_MINUTES;
use cs_schedule::Schedule;
use serde_json::Value;
use std::alloc::Global;

const MOST: u128 = MAX_MINUTES as u128;

/// Copies the old part, or adds a new one of that name and time.
fn add_part(
    alloc: Global,
    entry: &mut Vec<u8>,
    old: Option<&Value>,
    name: &[u8],
    share: u64,
) -> Done {
    begin(entry, COMMA)?;
    if let Some(old) = old {
        add_members(alloc, entry, COMMA, old, ["name", "max", "note"].as_slice())?;
    } else {
        // names of parts in a table's comments are ASCII
        add_text(alloc, entry, "name", str::from_utf8(name).unwrap_or(""))?;
        add_number(alloc, entry, "max", share)?;
    }
    entry.extend_from_slice(b"}")
}

/// Adds parts of those names: the old ones as they were, new ones of `share` minutes.
pub(crate) fn add_parts(
    alloc: Global,
    entry: &mut Vec<u8>,
    old: &[Value],
    names: &[Bytes],
    share: u64,
) -> Done {
    add(entry, COMMA, "parts", "[")?;
    for name in names {
        let name = name.as_slice();
        add_part(alloc, entry, item_of(old, "name", name), name, share)?;
    }
    entry.extend_from_slice(b"]")
}

pub(crate) fn add_max(alloc: Global, entry: &mut Vec<u8>, max: u64, is_guess: bool) -> Done {
    add_number(alloc, entry, "max", max)?;
    if is_guess {
        add(entry, COMMA, "guess", "true")?;
    }
    Ok(())
}

/// Notes that the times of the line's parts are not measured.
fn tell_default(alloc: Global, told: &mut Vec<u8>, line: &Line, count: u64, share: u64) -> Done {
    let (part, each) = if count == 1 {
        ("part", "")
    } else {
        ("parts", " each")
    };
    let what = format!(in alloc;
        " runs {count} {part} of {share} min{each}: a default, not a measurement"
    )?;
    let number = u64::from(line.number());
    tell_of(alloc, told, "note: line ", number, what.as_str(), "", "")
}

/// Adds the times of a new command: its parts share the time to its next due minute equally, but
/// each has at least one minute.
pub(crate) fn add_new_times(
    alloc: Global,
    entry: &mut Vec<u8>,
    told: &mut Vec<u8>,
    line: &Line,
    schedule: &Schedule,
    asked: u64,
    names: &[Bytes],
) -> Done {
    let asked = asked_for(asked, line.command());
    let count = (names.len() as u64).max(1);
    let all = asked.saturating_mul(count).min(u64::from(MAX_MINUTES));
    let share = brief_max(schedule, all)
        .checked_div(count)
        .unwrap_or(1)
        .max(1);
    let max = share.saturating_mul(count);
    let is_guess = is_guess(line.command(), i128::from(max));
    add_max(alloc, entry, max, is_guess)?;
    if names.is_empty() {
        return Ok(());
    }
    if is_guess {
        tell_default(alloc, told, line, count, share)?;
    }
    add_parts(alloc, entry, &[], names, share)
}

pub(crate) fn add_old_times(alloc: Global, entry: &mut Vec<u8>, old: &Value) -> Done {
    add_members(alloc, entry, COMMA, old, ["max", "guess"].as_slice())?;
    if old.get("parts").is_none() {
        return Ok(());
    }
    add(entry, COMMA, "parts", "[")?;
    for part in items(old, "parts") {
        add_part(alloc, entry, Some(part), &[], 0)?;
    }
    entry.extend_from_slice(b"]")
}

/// The longest time of each new part, at most the asked one, and the sum for all parts; none where
/// no minute is left for each.
pub(crate) fn room_for(asked: u64, old: &[PartEntry], names: &[Bytes]) -> Option<(u64, u64)> {
    let (mut kept, mut new) = (0u128, 0u128);
    for name in names {
        match part_of(old, name.as_slice()) {
            Some(part) => kept = kept.saturating_add(part.max.unsigned_abs()),
            None => new = new.saturating_add(1),
        }
    }
    let most = u128::from(asked);
    let room = MOST.checked_sub(kept)?;
    let share = room.checked_div(new).unwrap_or(most).min(most);
    if share == 0 {
        return None;
    }
    let all = kept.saturating_add(share.saturating_mul(new)).min(MOST);
    Some((share as u64, all as u64))
}
