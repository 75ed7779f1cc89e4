//! Lines of a table whose commands start later or earlier. Nothing here is relied on: a changed
//! table is read again and judged.

use crate::change::{Shift, Start};
use crate::later::is_daily;
use crate::source::Source;
use cs_civil::{Bytes, MINUTES_OF_DAY, push_number};
use cs_crontab::{Part, Schedule, When};
use cs_diagnostics::Span;
use cs_plan::Plan;
use cs_table::text::{first_line, skip_blanks, word};
use std::alloc::{AllocError, Global};

/// Adds the numbers of a bit set with commas between them; `*` if there are `most`.
fn push_numbers(
    alloc: Global,
    text: &mut Vec<u8>,
    numbers: u64,
    most: u32,
) -> Result<(), AllocError> {
    if numbers.count_ones() == most {
        return text.extend_from_slice(b"*");
    }
    let mut is_first = true;
    for number in 0..64u8 {
        if (numbers >> number) & 1 == 1 {
            if !is_first {
                text.push(b',')?;
            }
            is_first = false;
            push_number(alloc, text, u128::from(number))?;
        }
    }
    Ok(())
}

/// The minutes and the hours of a shifted schedule as bit sets; none where no pair of lists gives
/// its times, or where a start passes midnight and the command isn't due each day.
fn shifted_times(schedule: &Schedule, shift: Shift) -> Option<(u64, u64)> {
    let is_daily = is_daily(schedule);
    let mut minutes = 0u64;
    let mut hours = 0u64;
    let mut times = 0u32;
    // so many minutes earlier is the rest of a day later
    let by = if shift.is_later {
        shift.minutes
    } else {
        MINUTES_OF_DAY.saturating_sub(shift.minutes)
    };
    for minute in schedule.times().iter() {
        let at = minute.saturating_add(by);
        let is_over = if shift.is_later {
            at >= MINUTES_OF_DAY
        } else {
            at < MINUTES_OF_DAY
        };
        if is_over && !is_daily {
            return None;
        }
        minutes |= 1u64 << (at % 60);
        hours |= 1u64 << (at / 60 % 24);
        times = times.saturating_add(1);
    }
    if minutes.count_ones().saturating_mul(hours.count_ones()) != times {
        return None;
    }
    Some((minutes, hours))
}

/// Adds the rest of the line after its hour; `@daily` and its like as day fields, each `*` or its
/// first number.
fn push_rest(
    alloc: Global,
    text: &mut Vec<u8>,
    line: &[u8],
    schedule: &Schedule,
) -> Result<(), AllocError> {
    let (first, rest) = word(skip_blanks(line));
    if first.first() != Some(&b'@') {
        return text.extend_from_slice(word(skip_blanks(rest)).1);
    }
    for part in [Part::Dom, Part::Month, Part::Dow] {
        text.push(b' ')?;
        if schedule.field(part).begins_with_star() {
            text.push(b'*')?;
        } else {
            push_number(alloc, text, u128::from(part.first()))?;
        }
    }
    text.extend_from_slice(rest)
}

/// The place of the line of that number; the end of the text without one.
pub(crate) fn line_span(text: &[u8], number: u32) -> Span {
    let mut rest = text;
    for at in 1..=number {
        if rest.is_empty() {
            break;
        }
        let (line, more) = first_line(rest);
        if at == number {
            return Span::of(text.len().saturating_sub(rest.len()), line.len());
        }
        rest = more;
    }
    Span::of(text.len(), 0)
}

/// The start of a job later or earlier, if fields can express it.
pub(crate) fn shifted_start(
    alloc: Global,
    source: &Source,
    plan: &Plan,
    job: u16,
    shift: Shift,
) -> Result<Option<Start>, AllocError> {
    let Some(line) = plan.crontab().lines().get(usize::from(job)) else {
        return Ok(None);
    };
    let When::At(schedule) = line.when() else {
        return Ok(None);
    };
    let Some((minutes, hours)) = shifted_times(schedule, shift) else {
        return Ok(None);
    };
    let mut text = Vec::new(alloc);
    push_numbers(alloc, &mut text, minutes, 60)?;
    text.push(b' ')?;
    push_numbers(alloc, &mut text, hours, 24)?;
    let table = source.table.as_slice();
    let old = line_span(table, line.number()).bytes(table);
    push_rest(alloc, &mut text, old, schedule)?;
    let line = Bytes::from_vec(text);
    Ok(Some(Start { job, shift, line }))
}
