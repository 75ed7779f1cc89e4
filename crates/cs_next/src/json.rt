//! Starts as JSON.
use crate::starts::Start;
use crate::text::{command_of, push_place};
use cs_civil::{Minute, date_text};
use cs_files::Tables;
use cs_place::push_hex;
use serde::Serialize;
use serde_json::to_vec;
use std::alloc::{AllocError, Global};

/// The answer.
#[derive(Drop, Serialize)]
struct Answer {
    /// The minute from which starts are counted.
    from: String,
    starts: Vec<StartTold>,
}

/// A start.
#[derive(Drop, Serialize)]
struct StartTold {
    minute: String,
    /// How many minutes after the first that counts.
    in_minutes: u64,
    /// The number of its line of the crontab.
    #[serde(skip_serializing_if = "Option::is_none")]
    line: Option<u32>,
    place: String,
    command: String,
    /// Whether a text isn't UTF-8, and so is written as it is shown.
    #[serde(skip_serializing_if = "Option::is_none")]
    escaped: Option<bool>,
}

/// Bytes that are UTF-8 as they are; others with `\xNN` for each that isn't printable ASCII and for
/// the backslash, and true.
fn told_text(alloc: Global, bytes: &[u8]) -> Result<(String, bool), AllocError> {
    if let Ok(text) = str::from_utf8(bytes) {
        return Ok((String::from_str(alloc, text)?, false));
    }
    let mut shown = Vec::new(alloc);
    for byte in bytes {
        if byte.is_ascii_graphic() && *byte != b'\\' || *byte == b' ' {
            shown.push(*byte)?;
        } else {
            push_hex(&mut shown, *byte)?;
        }
    }
    match String::from_utf8(shown) {
        Ok(text) => Ok((text, true)),
        Err(_) => Ok((String::new(alloc), true)),
    }
}

/// `YYYY-MM-DDTHH:MM`.
fn minute_text(alloc: Global, minute: Minute) -> Result<String, AllocError> {
    let mut bytes = date_text(minute);
    bytes[10] = b'T';
    let (text, _) = told_text(alloc, bytes.as_slice())?;
    Ok(text)
}

fn told(
    alloc: Global,
    tables: &Tables,
    from: Minute,
    start: Start,
) -> Result<StartTold, AllocError> {
    let mut place = Vec::new(alloc);
    push_place(alloc, &mut place, tables, start.job)?;
    let (place, is_place_shown) = told_text(alloc, place.as_slice())?;
    let (command, is_shown) = told_text(alloc, command_of(tables, start.job))?;
    let line = match tables.crontab.lines().get(usize::from(start.job)) {
        Some(line) => Some(line.number()),
        None => None,
    };
    Ok(StartTold {
        minute: minute_text(alloc, start.minute)?,
        in_minutes: start.minute.number().saturating_sub(from.number()),
        line,
        place,
        command,
        escaped: if is_shown || is_place_shown {
            Some(true)
        } else {
            None
        },
    })
}

fn answer_of(
    alloc: Global,
    tables: &Tables,
    from: Minute,
    starts: &[Start],
) -> Result<Answer, AllocError> {
    let mut all = Vec::new(alloc);
    for start in starts {
        all.push(told(alloc, tables, from, *start)?)?;
    }
    Ok(Answer {
        from: minute_text(alloc, from)?,
        starts: all,
    })
}

/// One object, in a line. The only error is out of memory.
pub(crate) fn starts_json(
    alloc: Global,
    tables: &Tables,
    from: Minute,
    starts: &[Start],
) -> Result<Vec<u8>, AllocError> {
    let answer = answer_of(alloc, tables, from, starts)?;
    let Ok(mut text) = to_vec(alloc, &answer) else {
        return Err(AllocError);
    };
    text.push(b'\n')?;
    Ok(text)
}
