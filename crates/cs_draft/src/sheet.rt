//! Drafts the entries of lines.

use crate::given::time_of;
use crate::layout::{COMMA, Done, ENTRY, add, add_members, add_number, add_text, begin};
use crate::names::count_like;
use crate::old::{Bound, items};
use crate::parts::{all_are_parts, declarable, has_name, has_part, have_changed, names_at};
use crate::schedule_text::push_schedule;
use crate::times::{add_max, add_new_times, add_old_times, add_parts, room_for};
use crate::told::{CRONTAB, tell_of, warn};
use cs_civil::Bytes;
use cs_command::{behind_place, is_killed, limit_in};
use cs_crontab::Line;
use cs_decl::{CronEntry, PartEntry, is_told_when};
use cs_diagnostics::shown;
use cs_history::Mode;
use cs_place::{Place, place_of};
use cs_plan::MAX_MINUTES;
use cs_retrace::{Given, max_of};
use cs_schedule::Schedule;
use serde_json::Value;
use std::alloc::{AllocError, Global};

#[derive(Clone, Copy)]
pub(crate) struct Asked<'a> {
    /// The lines of the crontab, and their places in a gathered one.
    pub(crate) lines: &'a [Line],
    pub(crate) places: &'a [Place],
    /// The longest time of a new job in minutes, and those that are given for some.
    pub(crate) max: u64,
    pub(crate) given: &'a [Given],
}

fn sleeps_at_random(command: &[u8]) -> bool {
    behind_place(b"sleep", command).is_some()
        && (behind_place(b"rand", command).is_some()
            || behind_place(b"RANDOM", command).is_some()
            || behind_place(b"shuf", command).is_some())
}

fn mode_text(mode: Mode) -> &'static str {
    match mode {
        Mode::Plain => "none",
        Mode::Skip => "skip",
        Mode::Try => "try",
        Mode::Wait => "wait",
        Mode::Shared => "shared",
    }
}

/// The given time that the entry takes. Warns if one is given and not taken.
fn time_given(
    alloc: Global,
    told: &mut Vec<u8>,
    given: &[Given],
    line: &Line,
    is_whole: bool,
    mode: Mode,
) -> Result<Option<u64>, AllocError> {
    let time = time_of(given, line, is_whole, mode);
    if time.is_some() || max_of(given, u64::from(line.number())).is_none() {
        return Ok(time);
    }
    let reason = if is_whole {
        " has a longest time of more than 4320 minutes, which isn't taken"
    } else {
        " has parts: its longest time is their sum, and not the one of its line"
    };
    warn(alloc, told, CRONTAB, line.number(), reason)?;
    Ok(None)
}

/// Begins an entry, with the line's number if the entry is new, if the old one gave a number, or if
/// another line has the same command and schedule.
fn begin_entry(
    alloc: Global,
    entry: &mut Vec<u8>,
    lines: &[Line],
    line: &Line,
    old: Option<Bound<'_>>,
) -> Done {
    begin(entry, ENTRY)?;
    let is_told = match old {
        Some(old) => old.name.number.is_some(),
        None => true,
    };
    if is_told || count_like(true, lines, line) > 1 {
        add_number(alloc, entry, "line", u64::from(line.number()))?;
    }
    Ok(())
}

/// Binds an entry to its line by its command, which JSON can't hold unless it is UTF-8, and by its
/// schedule, if the old entry gave one or another line has the command.
fn bind(
    alloc: Global,
    entry: &mut Vec<u8>,
    told: &mut Vec<u8>,
    lines: &[Line],
    line: &Line,
    old: Option<Bound<'_>>,
) -> Done {
    if let Ok(command) = str::from_utf8(line.command()) {
        add_text(alloc, entry, "command", command)?;
    }
    if let Some(old) = old
        && old.name.when.is_some()
    {
        if is_told_when(&old.name.when, line.when()) {
            return add_members(alloc, entry, COMMA, old.value, ["when"].as_slice());
        }
        let kept = " has another schedule than its entry: the entry is kept";
        tell_of(
            alloc,
            told,
            "note: line ",
            u64::from(line.number()),
            kept,
            "",
            "",
        )?;
    } else if count_like(false, lines, line) <= 1 {
        return Ok(());
    }
    add(entry, COMMA, "when", "\"")?;
    push_schedule(alloc, entry, line.when())?;
    entry.extend_from_slice(b"\"")
}

/// The names of the line's parts. Warns if declarations can't have them.
fn parts_told<'p>(
    alloc: Global,
    told: &mut Vec<u8>,
    places: &'p [Place],
    number: u32,
) -> Result<&'p [Bytes], AllocError> {
    let names = names_at(places, number);
    let parts = declarable(names);
    if parts.len() == names.len() {
        return Ok(parts);
    }
    let reason = if names.len() > usize::from(MAX_MINUTES) {
        " has more parts than a job may have minutes: they aren't declared"
    } else {
        " has two parts of one name: they aren't declared"
    };
    warn(alloc, told, CRONTAB, number, reason)?;
    Ok(parts)
}

/// Warns of what the longest time of a new command may not cover.
pub(crate) fn tell_times(
    alloc: Global,
    told: &mut Vec<u8>,
    table: &str,
    number: u32,
    command: &[u8],
) -> Done {
    if sleeps_at_random(command) {
        let what = " has a random sleep, which its longest time has to include";
        warn(alloc, told, table, number, what)?;
    }
    match limit_in(command) {
        Some(limit) if limit > u64::from(MAX_MINUTES) => {
            let what = " has a timeout of more than 4320 minutes, which no longest time can be";
            warn(alloc, told, table, number, what)
        }
        Some(_) if !is_killed(command) => {
            let front = "note: the command on line ";
            let what = " has a timeout without -k: a program that ignores its signal goes on";
            tell_of(
                alloc,
                told,
                front,
                u64::from(number),
                " of the ",
                table,
                what,
            )
        }
        _ => Ok(()),
    }
}

/// Adds the entry of a new command, with its lock's group and mode, and the default's terms if
/// there is a default.
pub(crate) fn add_new(
    alloc: Global,
    cron: &mut Vec<u8>,
    told: &mut Vec<u8>,
    asked: Asked<'_>,
    line: &Line,
    schedule: &Schedule,
    default: Option<&Value>,
    group: Option<(&str, Mode)>,
) -> Done {
    begin_entry(alloc, cron, asked.lines, line, None)?;
    let names = match default {
        None => parts_told(alloc, told, asked.places, line.number())?,
        Some(_) => &[],
    };
    let mode = match group {
        Some((_, mode)) => mode,
        None => Mode::Plain,
    };
    match (
        time_given(alloc, told, asked.given, line, names.is_empty(), mode)?,
        default,
    ) {
        (Some(max), _) => add_number(alloc, cron, "max", max)?,
        (None, Some(default)) => add_members(alloc, cron, COMMA, default, ["max"].as_slice())?,
        (None, None) => add_new_times(alloc, cron, told, line, schedule, asked.max, names)?,
    }
    match default {
        Some(default) => add_members(alloc, cron, COMMA, default, ["weight"].as_slice())?,
        None => tell_times(alloc, told, CRONTAB, line.number(), line.command())?,
    }
    if let Some((file, mode)) = group {
        add_text(alloc, cron, "group", file)?;
        add_text(alloc, cron, "mode", mode_text(mode))?;
    }
    bind(alloc, cron, told, asked.lines, line, None)?;
    cron.extend_from_slice(b"}")
}

/// Notes new and missing parts.
fn tell_parts(
    alloc: Global,
    told: &mut Vec<u8>,
    number: u64,
    old: &[PartEntry],
    names: &[Bytes],
) -> Done {
    let front = "note: line ";
    for name in names {
        if !has_part(old, name.as_slice()) {
            let name = shown(alloc, name.as_slice())?;
            tell_of(
                alloc,
                told,
                front,
                number,
                " has a new part: ",
                name.as_str(),
                "",
            )?;
        }
    }
    for part in old {
        if !has_name(part.name.as_slice(), names) {
            let name = shown(alloc, part.name.as_slice())?;
            tell_of(
                alloc,
                told,
                front,
                number,
                " has no part ",
                name.as_str(),
                " any more",
            )?;
        }
    }
    Ok(())
}

/// Adds the times of an old entry with parts: of the parts that the table has.
fn add_kept_parts(
    alloc: Global,
    cron: &mut Vec<u8>,
    told: &mut Vec<u8>,
    asked: Asked<'_>,
    number: u32,
    value: &Value,
    old: &CronEntry,
) -> Done {
    let names = parts_told(alloc, told, asked.places, number)?;
    let parts = old.parts.as_slice();
    if !have_changed(names, parts) {
        if place_of(asked.places, number).is_some() && names_at(asked.places, number).is_empty() {
            let kept = " has no parts in the crontab: those of its entry are kept";
            tell_of(alloc, told, "note: line ", u64::from(number), kept, "", "")?;
        }
        return add_old_times(alloc, cron, value);
    }
    let Some((share, all)) = room_for(asked.max, parts, names) else {
        let reason = " has more parts than a job may have minutes: its entry is kept";
        warn(alloc, told, CRONTAB, number, reason)?;
        return add_old_times(alloc, cron, value);
    };
    tell_parts(alloc, told, u64::from(number), parts, names)?;
    add_max(alloc, cron, all, old.guess || !all_are_parts(names, parts))?;
    add_parts(alloc, cron, items(value, "parts"), names, share)
}

/// Adds an old entry, except for a given time, and parts that came or went.
pub(crate) fn add_kept(
    alloc: Global,
    cron: &mut Vec<u8>,
    told: &mut Vec<u8>,
    asked: Asked<'_>,
    line: &Line,
    bound: Bound<'_>,
    old: &CronEntry,
) -> Done {
    let number = u64::from(line.number());
    if bound.command() != line.command() {
        let command = shown(alloc, bound.command())?;
        let front = "note: the command on line ";
        let kept = " changed; its entry keeps the longest time of ";
        tell_of(alloc, told, front, number, kept, command.as_str(), "")?;
    }
    begin_entry(alloc, cron, asked.lines, line, Some(bound))?;
    let is_whole = old.parts.is_empty();
    match time_given(alloc, told, asked.given, line, is_whole, old.mode)? {
        Some(max) => {
            if i128::from(max) < old.max {
                let before = old.max;
                let text = format!(in alloc; ": max {max} min in place of {before} min")?;
                tell_of(alloc, told, "note: line ", number, text.as_str(), "", "")?;
            }
            add_number(alloc, cron, "max", max)?;
        }
        None if is_whole => add_old_times(alloc, cron, bound.value)?,
        None => add_kept_parts(alloc, cron, told, asked, line.number(), bound.value, old)?,
    }
    let names = ["weight", "group", "mode", "name", "note"];
    add_members(alloc, cron, COMMA, bound.value, names.as_slice())?;
    bind(alloc, cron, told, asked.lines, line, Some(bound))?;
    cron.extend_from_slice(b"}")
}

/// Adds the line to `left_out`, with the note of its old entry.
pub(crate) fn leave_out(
    alloc: Global,
    left_out: &mut Vec<u8>,
    told: &mut Vec<u8>,
    lines: &[Line],
    line: &Line,
    old: Option<Bound<'_>>,
) -> Done {
    begin_entry(alloc, left_out, lines, line, old)?;
    if let Some(old) = old {
        add_members(alloc, left_out, COMMA, old.value, ["note"].as_slice())?;
    }
    bind(alloc, left_out, told, lines, line, old)?;
    left_out.extend_from_slice(b"}")
}
