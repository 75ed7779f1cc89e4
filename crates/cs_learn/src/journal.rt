//! Lines of `journalctl -o json`.
use crate::line::{LogLine, message};
use cs_json::{Misread, parse};
use cs_retrace::Moment;
use cs_retrace::words::number;
use cs_table::text::is_among;
use serde_json::Value;
use std::alloc::{AllocError, Global};

/// The text of the first of two members that has one.
fn text_at<'v>(object: &'v Value, name: &str, other: &str) -> Option<&'v [u8]> {
    for name in [name, other] {
        if let Some(member) = object.get(name) {
            if let Some(text) = member.as_str() {
                return Some(text.as_bytes());
            }
        }
    }
    None
}

/// When the line was written, in seconds, by which program and process, and its message. The member
/// for the time is in microseconds.
fn entry(object: &Value) -> Option<(u64, &[u8], u64, &[u8])> {
    let time = text_at(object, "__REALTIME_TIMESTAMP", "")?;
    let (seconds, micros) = time.split_at_checked(time.len().checked_sub(6)?)?;
    let name = text_at(object, "SYSLOG_IDENTIFIER", "_COMM")?;
    let names: &[&[u8]] = &[b"CRON", b"CROND", b"cron", b"crond", b"anacron"];
    if !is_among(names, name) {
        return None;
    }
    number(micros)?;
    let writer = number(text_at(object, "SYSLOG_PID", "_PID")?)?;
    let message = text_at(object, "MESSAGE", "")?;
    Some((number(seconds)?, name, writer, message))
}

pub(crate) fn journal(alloc: Global, text: &[u8]) -> Result<Option<LogLine>, AllocError> {
    let object = match parse(alloc, text) {
        Ok(object) => object,
        Err(Misread::Memory) => return Err(AllocError),
        Err(Misread::Fault(_)) => return Ok(None),
    };
    match entry(&object) {
        Some((seconds, program, writer, text)) => {
            message(alloc, Moment::Universal(seconds), program, writer, text)
        }
        None => Ok(None),
    }
}
