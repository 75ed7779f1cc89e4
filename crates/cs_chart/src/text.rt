//! Texts of a picture: escaped, and cut to fit.
use crate::span::DaySpan;
use bstr::ByteSlice;
use cs_civil::{Day, MINUTES_OF_DAY, Minute, day_text, kind_of, weekday_name};
use cs_plan::Plan;
use cs_wall::push_wall;
use std::alloc::{AllocError, Global};
use std::fmt::Write;
use unicode_width::UnicodeWidthChar;

/// How many cells of a label fit, such as the name of a group.
const LABEL_CELLS: usize = 16;

/// Room for a blank and `(2024-07-01 02:30 NAME)`, with a name of 15 letters.
const WALL_CELLS: usize = 40;

/// How many cells of fixed width a character takes; at least one, so that each text has an end.
fn cells_of(character: char) -> usize {
    character.width().unwrap_or(1).max(1)
}

/// Adds a character. A tab becomes a blank; what XML doesn't allow, or what moves the text around
/// it, becomes U+FFFD.
fn push_character(text: &mut String, character: char) -> Result<(), AllocError> {
    let escaped = match character {
        '&' => "&amp;",
        '<' => "&lt;",
        '>' => "&gt;",
        '"' => "&quot;",
        '\'' => "&#39;",
        '\t' => " ",
        '\0'..='\u{1F}'
        | '\u{7F}'..='\u{9F}'
        | '\u{200E}'..='\u{200F}'
        | '\u{2028}'..='\u{202E}'
        | '\u{2066}'..='\u{2069}'
        | '\u{FFFE}'..='\u{FFFF}' => "\u{FFFD}",
        _ => return text.push(character),
    };
    text.push_str(escaped)
}

/// Whether a text takes so many cells at most.
fn fits(text: &[u8], cells: usize) -> bool {
    let mut left = cells;
    for character in text.chars() {
        let own = cells_of(character);
        if left < own {
            return false;
        }
        left -= own;
    }
    true
}

/// Adds the beginning of a text, so many cells of it at most. `…` stands for what is cut off, and
/// U+FFFD for bytes that are no UTF-8.
pub(crate) fn push_cut(text: &mut String, bytes: &[u8], cells: usize) -> Result<(), AllocError> {
    let mut left = if fits(bytes, cells) {
        cells
    } else {
        cells.saturating_sub(1)
    };
    for character in bytes.chars() {
        let own = cells_of(character);
        if left < own {
            return text.push_str("…");
        }
        left -= own;
        push_character(text, character)?;
    }
    Ok(())
}

/// The longest end of a text that takes so many cells at most.
fn end_of(bytes: &[u8], cells: usize) -> &[u8] {
    for (at, first) in bytes.iter().enumerate() {
        let rest = &bytes[at.min(bytes.len())..];
        let is_first_byte = *first & 0xC0 != 0x80;
        if is_first_byte && fits(rest, cells) {
            return rest;
        }
    }
    &[]
}

/// Adds the end of a text, so many cells of it at most: there names of files differ.
pub(crate) fn push_end(text: &mut String, bytes: &[u8], cells: usize) -> Result<(), AllocError> {
    if fits(bytes, cells) {
        return push_cut(text, bytes, cells);
    }
    text.push_str("…")?;
    let left = cells.saturating_sub(1);
    push_cut(text, end_of(bytes, left), left)
}

/// Adds `YYYY-MM-DD Fri`.
pub(crate) fn push_day(text: &mut String, day: Day) -> Result<(), AllocError> {
    push_cut(text, day_text(day).as_slice(), 10)?;
    text.push_str(" ")?;
    push_cut(text, weekday_name(kind_of(day).dow()).as_bytes(), 3)
}

/// Adds what the clock of the plan's zone shows in a minute, if it isn't what the plan's clock shows:
/// ` (2024-07-01 02:30 CEST)`.
fn push_other(
    alloc: Global,
    text: &mut String,
    plan: Option<&Plan>,
    minute: u64,
) -> Result<(), AllocError> {
    let Some(plan) = plan else {
        return Ok(());
    };
    let Some(clocks) = plan.clocks() else {
        return Ok(());
    };
    let mut wall = Vec::new(alloc);
    if let Some(minute) = Minute::new(minute) {
        push_wall(&mut wall, plan.zone(), clocks.other.as_slice(), minute)?;
    }
    push_cut(text, wall.as_slice(), WALL_CELLS)
}

/// Adds a minute of the picture: `2024-07-01 Mon 01:30`, and in brackets what the clock of the
/// plan's zone shows, where that differs.
pub(crate) fn push_minute(
    alloc: Global,
    text: &mut String,
    span: DaySpan,
    minute: u32,
    plan: Option<&Plan>,
) -> Result<(), AllocError> {
    let place = u8::try_from(minute / u32::from(MINUTES_OF_DAY)).unwrap_or(0);
    let day = span.day(place.min(span.days() - 1));
    push_day(text, day)?;
    let (hour, of_hour) = (minute / 60 % 24, minute % 60);
    write!(text, " {hour:02}:{of_hour:02}")?;
    let of_day = minute % u32::from(MINUTES_OF_DAY);
    let minute = u64::from(MINUTES_OF_DAY) * day.number() + u64::from(of_day);
    push_other(alloc, text, plan, minute)
}

/// Adds the name of a group or what a row says, so far from the left and from the top.
pub(crate) fn push_label(
    text: &mut String,
    x: u32,
    y: u32,
    label: &[u8],
) -> Result<(), AllocError> {
    write!(text, "<text x=\"{x}\" y=\"{y}\">")?;
    push_end(text, label, LABEL_CELLS)?;
    text.push_str("</text>\n")
}
