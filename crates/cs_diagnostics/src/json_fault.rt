//! Why a text is not JSON, and where.
use crate::findings::{Done, Findings};
use crate::outline::trimmed;
use crate::span::Span;
use cs_plan::DeclFault;
use serde_json::Error;

fn reason(bytes: &[u8], place: usize) -> &'static str {
    let front = trimmed(bytes, Span::between(0, place)).bytes(bytes);
    let before = front.last().copied();
    if trimmed(bytes, Span::between(place, bytes.len())).is_empty() {
        return match before {
            None => "the file is empty: write an object, {..}",
            Some(_) => "the end is missing: close each quote and bracket",
        };
    }
    if str::from_utf8(bytes).is_err() {
        return "this byte isn't UTF-8: save the file as UTF-8";
    }
    match (bytes.get(place), before) {
        (Some(b'}' | b']'), Some(b',')) => "remove the comma before this bracket",
        (Some(b'\''), _) => "write text in double quotes",
        (Some(b'/' | b'#'), _) => "JSON has no comments: remove this one",
        (Some(b'"' | b'{' | b'['), Some(b'"' | b'}' | b']')) => "add a comma before this",
        (Some(b'"' | b'{' | b'['), Some(byte)) if byte.is_ascii_alphanumeric() => {
            "add a comma before this"
        }
        _ => "this is no JSON: check the quotes, commas and colons here",
    }
}

impl Findings {
    /// Adds where declarations are no JSON, and why they are none.
    pub fn no_json(&mut self, bytes: &[u8], error: &Error) -> Done {
        let place = if error.is_eof() {
            trimmed(bytes, Span::of(0, bytes.len())).to
        } else {
            let column = error.column().saturating_sub(1);
            self.line_start(error.line() as u64).saturating_add(column)
        };
        let (fault, why) = (DeclFault::NotJson, reason(bytes, place));
        self.fault(Span::of(place, 1), format_args!("{fault}: {why}"))
    }
}
