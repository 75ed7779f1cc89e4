//! Finds the lines that entries name.
ghost use Rattle.std.specs.Prelude.{◌≡◌, ◌&&◌, option_map, position, IfOk};
ghost use Rattle.std.specs.List.{find, list_any, count_by};
ghost use Rattle.cs_decl.specs.Join.{is_named, has_no_line, is_unlike, has_other_command};
ghost use Rattle.cs_decl.specs.Join.{is_ambiguous, number_of, cron_numbers, left_out_numbers};
ghost use Rattle.cs_decl.specs.Join.{has_other_schedule};

use crate::entries::{CronEntry, Entries, LineName};
use crate::when::is_told_when;
use cs_civil::{Bytes, Sequence};
use cs_crontab::Line;
use std::alloc::{AllocError, Global};

/// Whether the name is the line's: a number names the line that has it; else a command names each
/// line with that command and, if the name gives one, with its schedule.
pub fn is_named(name: &LineName, line: &Line) -> bool
    ensures { result ≡ is_named name.now line.now }
{
    match name.number {
        Some(number) => number == i128::from(line.number()),
        None => match &name.command {
            Some(told) => {
                told.as_slice() == line.command() && is_told_when(&name.when, line.when())
            }
            None => false,
        },
    }
}

fn has_line(lines: &[Line], name: &LineName) -> bool
    ensures { result ≡ list_any (is_named name.now) lines.now }
{
    lines.iter().any(|line| is_named(name, line))
}

fn is_unlike(command: &[u8], told: &Option<Bytes>) -> bool
    ensures { result ≡ is_unlike command.now told.now }
{
    match told {
        Some(told) => told.as_slice() != command,
        None => false,
    }
}

fn has_other_command(lines: &[Line], name: &LineName) -> bool
    ensures { result ≡ has_other_command lines.now name.now }
{
    lines.iter().any(|line| is_named(name, line) && is_unlike(line.command(), &name.command))
}

fn has_other_schedule(lines: &[Line], name: &LineName) -> bool
    ensures { result ≡ has_other_schedule lines.now name.now }
{
    lines.iter().any(|line| is_named(name, line) && !is_told_when(&name.when, line.when()))
}

fn count_named(lines: &[Line], name: &LineName) -> usize
    ensures { result ≡ count_by (is_named name.now) lines.now }
{
    lines.iter().filter(|line| is_named(name, line)).count()
}

#[tactic(auto, unfolding(crate::specs::Join::is_ambiguous))]
fn is_ambiguous(lines: &[Line], name: &LineName) -> bool
    ensures { result ≡ is_ambiguous lines.now name.now }
{
    count_named(lines, name) > 1
}

pub(crate) fn lineless_cron(entries: &[CronEntry], lines: &[Line]) -> Option<usize>
    ensures { result ≡ position (λ e. has_no_line lines.now e.name) entries.now }
{
    entries
        .iter()
        .position(|entry| !has_line(lines, &entry.name))
}

pub(crate) fn lineless(names: &[LineName], lines: &[Line]) -> Option<usize>
    ensures { result ≡ position (has_no_line lines.now) names.now }
{
    names.iter().position(|name| !has_line(lines, name))
}

pub(crate) fn other_cron(entries: &[CronEntry], lines: &[Line]) -> Option<usize>
    ensures { result ≡ position (λ e. has_other_command lines.now e.name) entries.now }
{
    entries
        .iter()
        .position(|entry| has_other_command(lines, &entry.name))
}

pub(crate) fn other(names: &[LineName], lines: &[Line]) -> Option<usize>
    ensures { result ≡ position (has_other_command lines.now) names.now }
{
    names.iter().position(|name| has_other_command(lines, name))
}

pub(crate) fn mistimed_cron(entries: &[CronEntry], lines: &[Line]) -> Option<usize>
    ensures { result ≡ position (λ e. has_other_schedule lines.now e.name) entries.now }
{
    entries
        .iter()
        .position(|entry| has_other_schedule(lines, &entry.name))
}

pub(crate) fn mistimed(names: &[LineName], lines: &[Line]) -> Option<usize>
    ensures { result ≡ position (has_other_schedule lines.now) names.now }
{
    names
        .iter()
        .position(|name| has_other_schedule(lines, name))
}

pub(crate) fn ambiguous_cron(entries: &[CronEntry], lines: &[Line]) -> Option<usize>
    ensures { result ≡ position (λ e. is_ambiguous lines.now e.name) entries.now }
{
    entries
        .iter()
        .position(|entry| is_ambiguous(lines, &entry.name))
}

pub(crate) fn ambiguous(names: &[LineName], lines: &[Line]) -> Option<usize>
    ensures { result ≡ position (is_ambiguous lines.now) names.now }
{
    names.iter().position(|name| is_ambiguous(lines, name))
}

// ---- numbers

fn named_line<'l>(lines: &'l [Line], name: &LineName) -> Option<&'l Line>
    ensures { option_map (λ l. l.now) result ≡ find (is_named name.now) lines.now }
{
    lines.iter().find(|line| is_named(name, line))
}

fn number_of(lines: &[Line], name: &LineName) -> Option<i128>
    ensures { result ≡ number_of lines.now name.now }
{
    match named_line(lines, name) {
        Some(line) => Some(i128::from(line.number())),
        None => None,
    }
}

pub(crate) fn cron_numbers(
    alloc: Global,
    lines: &[Line],
    entries: &Entries,
) -> Result<Sequence<Option<i128>>, AllocError>
    ensures { IfOk result (λ numbers. numbers ≡ cron_numbers lines.now entries.now) }
{
    let mut numbers = Sequence::new(alloc);
    for entry in entries.cron.as_slice() {
        numbers.push(number_of(lines, &entry.name))?;
    }
    Ok(numbers)
}

pub(crate) fn left_out_numbers(
    alloc: Global,
    lines: &[Line],
    entries: &Entries,
) -> Result<Sequence<Option<i128>>, AllocError>
    ensures { IfOk result (λ numbers. numbers ≡ left_out_numbers lines.now entries.now) }
{
    let mut numbers = Sequence::new(alloc);
    for name in entries.left_out.as_slice() {
        numbers.push(number_of(lines, name))?;
    }
    Ok(numbers)
}
