//! Where the commands of a gathered table come from.
ghost use Rattle.std.specs.Prelude.{◌≡◌, ◌==◌, ◌+◌, ◌^◌, ◌<◌, ◌≤◌, ◌++◌, IfOk, OnOk, length};
ghost use Rattle.std.specs.Option.{option_map};
ghost use Rattle.std.specs.List.{list_any};
ghost use Rattle.cs_table.specs.Text.{lines_of};
ghost use Rattle.cs_table.specs.declared.limits.TheConstants.{MAX_TABLE};
ghost use Rattle.cs_crontab.specs.Faults.{IsCrontab};
ghost use Rattle.cs_place.specs.Places.{before_word, is_among, is_control, is_place, last_word};
ghost use Rattle.cs_place.specs.Places.{line_told, parts_in, place_in, place_line, place_of, place_text, places_from};
ghost use Rattle.cs_place.specs.Places.{places_of, places_told};

use crate::mark::is_gathered;
use crate::part_name::part_in;
use crate::shown::push_shown;
use cs_civil::{Bytes, Sequence, push_number};
use cs_crontab::{Crontab, Line};
use cs_table::text::{first_line, is_blank, trim_end};
use std::alloc::{AllocError, Global};

/// A line of a gathered table, and where it comes from.
#[derive(Drop)]
pub struct Place {
    /// The number of the line in the gathered table, from 1.
    pub line: u32,
    /// `NAME:LINE` of the table that it comes from.
    pub origin: Bytes,
    /// The user as which cron runs the command there.
    pub user: Bytes,
    /// The names of the parts that the command runs by run-parts(8), in their order.
    pub parts: Sequence<Bytes>,
}

/// The text without its last word, and that word.
pub fn split_last_word(text: &[u8]) -> (&[u8], &[u8])
    ensures before { result.0.now ≡ before_word text.now }
    ensures word { result.1.now ≡ last_word text.now }
{
    let mut rest = text;
    while let [others @ .., last] = rest {
        if is_blank(*last) {
            return text.split_at(rest.len());
        }
        rest = others;
    }
    text.split_at(rest.len())
}

fn is_control(byte: u8) -> bool
    ensures { result ≡ is_control byte }
{
    byte < 32 || byte == 127
}

fn has_control(text: &[u8]) -> bool
    ensures { result ≡ list_any is_control text.now }
{
    text.iter().any(|byte| is_control(*byte))
}

fn has_colon(text: &[u8]) -> bool
    ensures { result ≡ list_any (λ b. b == 58) text.now }
{
    text.iter().any(|byte| *byte == b':')
}

fn is_place(text: &[u8]) -> bool
    ensures { result ≡ is_place text.now }
{
    let (before, user) = split_last_word(text);
    has_colon(before) && !user.is_empty() && !has_control(text)
}

/// The parts in the comments that the text begins with.
fn parts_in(alloc: Global, text: &[u8]) -> Result<Sequence<Bytes>, AllocError>
    ensures parts { IfOk result (λ parts. parts ≡ parts_in (lines_of text.now)) }
    ensures few { IfOk result (λ parts. length parts ≤ length text.now) }
{
    let mut parts = Sequence::new(alloc);
    let mut rest = text;
    while !rest.is_empty() {
        let (line, behind) = first_line(rest);
        let Some(name) = part_in(line) else {
            return Ok(parts);
        };
        parts.push(Bytes::from_slice(alloc, name)?)?;
        rest = behind;
    }
    Ok(parts)
}

/// `number` is that of the first line below the comment.
#[tactic(auto, unfolding(crate::specs::Places::place_in))]
fn place_in(
    alloc: Global,
    number: u32,
    comment: &[u8],
    below: &[u8],
) -> Result<Option<Place>, AllocError>
    requires { number + length below.now < 2 ^ 32 }
    ensures { IfOk result (λ place. place ≡ place_in number comment.now (lines_of below.now)) }
{
    let [first, second, third, text @ ..] = comment else {
        return Ok(None);
    };
    if !(*first == b'#' && *second == b'@' && *third == b' ' && is_place(text)) {
        return Ok(None);
    }
    let (before, user) = split_last_word(text);
    let parts = parts_in(alloc, below)?;
    Ok(Some(Place {
        line: number + parts.len() as u32,
        origin: Bytes::from_slice(alloc, trim_end(before))?,
        user: Bytes::from_slice(alloc, user)?,
        parts,
    }))
}

/// Adds the places in the comments of a text that may not be a valid table. The only error is out
/// of memory.
#[tactic(auto, unfolding(crate::specs::Places::places_from))]
pub fn push_places(alloc: Global, places: &mut Vec<Place>, text: &[u8]) -> Result<(), AllocError>
    requires { length text.now ≤ MAX_TABLE }
    ensures { OnOk result (
        places.new.items ≡ places.old.items ++ places_from 2 (lines_of text.now)
        ) }
{
    let mut number = 2u32;
    let mut rest = text;
    while !rest.is_empty() {
        let (line, behind) = first_line(rest);
        if let Some(place) = place_in(alloc, number, line, behind)? {
            places.push(place)?;
        }
        number += 1;
        rest = behind;
    }
    Ok(())
}

/// Returns the places of a gathered table, in order of line; none of another table. The only error
/// is out of memory.
pub fn read_places(
    alloc: Global,
    bytes: &[u8],
    table: &Crontab,
) -> Result<Sequence<Place>, AllocError>
    requires { IsCrontab bytes.now table.now }
    ensures { IfOk result (λ places. places ≡ places_of bytes.now table.now) }
{
    let mut places = Vec::new(alloc);
    if is_gathered(table.settings()) {
        push_places(alloc, &mut places, bytes)?;
    }
    Ok(Sequence::from_vec(places))
}

/// Adds `/etc/cron.d/munin:12 (munin)`.
#[tactic(auto, unfolding(crate::specs::Places::place_text))]
pub fn push_place_text(text: &mut Vec<u8>, place: &Place) -> Result<(), AllocError>
    ensures { OnOk result (text.new.items ≡ text.old.items ++ place_text place.now) }
{
    text.extend_from_slice(place.origin.as_slice())?;
    text.extend_from_slice(b" (")?;
    text.extend_from_slice(place.user.as_slice())?;
    text.extend_from_slice(b")")
}

/// Adds `line 14 is /etc/cron.d/munin:12 (munin): COMMAND`, a line.
#[tactic(auto, unfolding(crate::specs::Places::place_line))]
fn push_place_line(
    alloc: Global,
    text: &mut Vec<u8>,
    place: &Place,
    command: &[u8],
) -> Result<(), AllocError>
    ensures { OnOk result (text.new.items ≡ text.old.items ++ place_line place.now command.now) }
{
    text.extend_from_slice(b"line ")?;
    push_number(alloc, text, u128::from(place.line))?;
    text.extend_from_slice(b" is ")?;
    push_place_text(text, place)?;
    text.extend_from_slice(b": ")?;
    push_shown(text, command)?;
    text.extend_from_slice(b"\n")
}

/// The place of the line of that number, if it has one.
pub fn place_of(places: &[Place], number: u32) -> Option<&Place>
    ensures { option_map (λ place. place.now) result ≡ place_of places.now number }
{
    places.iter().find(|place| place.line == number)
}

fn is_among(jobs: &[usize], job: usize) -> bool
    ensures { result ≡ is_among jobs.now job }
{
    jobs.iter().any(|other| *other == job)
}

fn push_line_told(
    alloc: Global,
    text: &mut Vec<u8>,
    front: &[u8],
    places: &[Place],
    jobs: &[usize],
    job: usize,
    line: &Line,
) -> Result<(), AllocError>
    ensures { OnOk result (text.new.items ≡ text.old.items ++ line_told front.now
        (is_among jobs.now job) (place_of places.now line.now.number) line.now.command) }
{
    match place_of(places, line.number()) {
        Some(place) => {
            if !is_among(jobs, job) {
                return Ok(());
            }
            text.extend_from_slice(front)?;
            push_place_line(alloc, text, place, line.command())
        }
        None => Ok(()),
    }
}

/// Adds `line 14 is /etc/cron.d/munin:12 (munin): COMMAND` after the front, a line for each place
/// of these jobs, which are the numbers of lines from 0. The only error is out of memory.
#[tactic(auto, unfolding(crate::specs::Places::places_told))]
pub fn push_places_told(
    alloc: Global,
    text: &mut Vec<u8>,
    front: &[u8],
    places: &[Place],
    jobs: &[usize],
    lines: &[Line],
) -> Result<(), AllocError>
    ensures { OnOk result (text.new.items ≡ text.old.items
        ++ places_told front.now places.now jobs.now 0 lines.now) }
{
    let mut job = 0;
    let mut lines = lines;
    while let [line, later @ ..] = lines {
        push_line_told(alloc, text, front, places, jobs, job, line)?;
        job += 1;
        lines = later;
    }
    Ok(())
}
