//! The text of a schedule in an entry.

use crate::layout::Done;
use cs_civil::push_number;
use cs_crontab::{Field, Part, When};
use std::alloc::Global;

/// A step with which `*` matches only the first number of any field.
const FIRST_ALONE: u8 = 60;

/// Whether `*` with the step matches the number.
fn is_every(part: Part, step: u8, number: u8) -> bool {
    number.saturating_sub(part.first()).checked_rem(step) == Some(0)
}

/// Whether the field has all numbers that `*` with the step matches. Weekday 7 is held as 0.
fn has_every(field: &Field, part: Part, step: u8) -> bool {
    for number in part.first()..60 {
        let is_held = number < part.last() || number == part.last() && part != Part::Dow;
        if is_held && is_every(part, step, number) && !field.has(number) {
            return false;
        }
    }
    true
}

/// The least step of which the field has all numbers.
fn step_of(field: &Field, part: Part) -> u8 {
    for step in 1..FIRST_ALONE {
        if has_every(field, part, step) {
            return step;
        }
    }
    FIRST_ALONE
}

fn push_range(alloc: Global, text: &mut Vec<u8>, front: &[u8], first: u8, last: u8) -> Done {
    text.extend_from_slice(front)?;
    push_number(alloc, text, u128::from(first))?;
    if first < last {
        text.extend_from_slice(b"-")?;
        push_number(alloc, text, u128::from(last))?;
    }
    Ok(())
}

/// Adds `*` with a step, if the field began with `*`, and ranges of all other numbers.
fn push_field(alloc: Global, text: &mut Vec<u8>, field: &Field, part: Part) -> Done {
    let mut front = b"".as_slice();
    let mut step = 0;
    if field.begins_with_star() {
        step = step_of(field, part);
        front = b",";
        text.extend_from_slice(b"*")?;
        if step > 1 {
            text.extend_from_slice(b"/")?;
            push_number(alloc, text, u128::from(step))?;
        }
    }
    let mut from = None;
    for number in 0..61 {
        match (from, field.has(number) && !is_every(part, step, number)) {
            (None, true) => from = Some(number),
            (Some(first), false) => {
                push_range(alloc, text, front, first, number.saturating_sub(1))?;
                front = b",";
                from = None;
            }
            _ => {}
        }
    }
    Ok(())
}

pub(crate) fn push_schedule(alloc: Global, text: &mut Vec<u8>, when: &When) -> Done {
    let When::At(schedule) = when else {
        return text.extend_from_slice(b"@reboot");
    };
    for part in [Part::Minute, Part::Hour, Part::Dom, Part::Month, Part::Dow] {
        if part != Part::Minute {
            text.extend_from_slice(b" ")?;
        }
        push_field(alloc, text, schedule.field(part), part)?;
    }
    Ok(())
}
