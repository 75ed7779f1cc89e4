//! The script of events in their order.
use crate::entry::{Entry, Turn};
use crate::trace::date;
use std::alloc::{AllocError, Global};

/// Adds the minutes after one minute, up to another.
fn push_minutes(text: &mut Vec<u8>, now: u64, at: u64) -> Result<(), AllocError> {
    for minute in now..at {
        text.extend_from_slice(b"minute ")?;
        text.extend_from_slice(&date(minute + 1))?;
        text.extend_from_slice(b"\n")?;
    }
    Ok(())
}

/// The start: a daemon that began there comes up then.
fn opening_text(
    alloc: Global,
    daemons: (u64, u64),
    opening: (u64, bool),
) -> Result<Vec<u8>, AllocError> {
    let (first, last) = daemons;
    let origin = match first {
        0 => format!(in alloc; "# the log doesn't tell where its daemon began\n")?,
        _ if first < last => format!(in alloc; "# daemons {first} to {last} of the log\n")?,
        1 => format!(in alloc; "")?,
        _ => format!(in alloc; "# daemon {last} of the log, the last\n")?,
    };
    let (at, has_begun) = opening;
    let mut text = origin.into_bytes();
    text.extend_from_slice(b"start ")?;
    text.extend_from_slice(&date(at))?;
    if !has_begun {
        text.extend_from_slice(b" up\n")?;
        return Ok(text);
    }
    text.extend_from_slice(b" down\nup ")?;
    text.extend_from_slice(&date(at))?;
    text.extend_from_slice(b"\n")?;
    Ok(text)
}

/// `daemons` are the numbers of the first and the last. Minutes are written while one is up.
pub(crate) fn written(
    alloc: Global,
    daemons: (u64, u64),
    opening: (u64, bool),
    events: &[Entry],
) -> Result<Vec<u8>, AllocError> {
    let mut text = opening_text(alloc, daemons, opening)?;
    let mut now = opening.0;
    let mut is_up = true;
    for event in events {
        match event.turn {
            Turn::Comes | Turn::Returns => now = event.at,
            _ if is_up => {
                push_minutes(&mut text, now, event.at)?;
                now = now.max(event.at);
            }
            _ => {}
        }
        text.extend_from_slice(event.text.as_slice())?;
        is_up = match event.turn {
            Turn::Comes | Turn::Returns => true,
            Turn::Goes | Turn::Crashes => false,
            _ => is_up,
        };
    }
    Ok(text)
}
