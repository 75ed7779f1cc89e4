//! The words of a line of a table, which has no newline.
use crate::span::Span;
use cs_table::text::{is_among, skip_blanks, word};

/// The next word from an offset on; empty at the end of the line.
pub fn word_from(line: &[u8], from: usize) -> Span {
    let (found, rest) = word(skip_blanks(&line[from.min(line.len())..]));
    let behind = found.len().saturating_add(rest.len());
    Span::of(line.len().saturating_sub(behind), found.len())
}

/// The word after so many others.
pub fn word_after(line: &[u8], others: usize) -> Span {
    let mut found = word_from(line, 0);
    for _ in 0..others {
        found = word_from(line, found.to);
    }
    found
}

/// From one word of a line to the end of another, counted from 0.
pub fn words(line: &[u8], first: usize, last: usize) -> Span {
    Span::between(word_after(line, first).from, word_after(line, last).to)
}

/// Whether the line begins with a word such as `@daily` in place of fields.
pub fn is_word_line(line: &[u8]) -> bool {
    word_from(line, 0).bytes(line).starts_with(b"@".as_slice())
}

/// The offset of the first of these bytes; the end if there is none.
fn first_of(bytes: &[u8], line: &[u8], from: usize) -> usize {
    let rest = &line[from.min(line.len())..];
    for (at, byte) in rest.iter().enumerate() {
        if bytes.contains(byte) {
            return from.saturating_add(at);
        }
    }
    line.len()
}

/// The offset after the quote that closes the one at `from`.
fn behind_quotes(line: &[u8], from: usize) -> Option<usize> {
    let quote = line.get(from).copied().unwrap_or(b'"');
    let end = first_of(&[quote], line, from.saturating_add(1));
    (end < line.len()).then_some(end.saturating_add(1))
}

/// Whether an item is `H`, `H/N` or `H(A-B)`, as those of Jenkins are.
pub(crate) fn is_hashed(item: &[u8]) -> bool {
    let behind = item.get(1).copied().unwrap_or(b'/');
    item.starts_with(b"H".as_slice()) && (behind == b'/' || behind == b'(')
}

/// What is at fault in a setting that can't be read, and why.
pub(crate) fn bad_setting(line: &[u8]) -> (Span, &'static str) {
    let name = word_from(line, 0).from;
    let mut end = first_of(b" \t=", line, name);
    if matches!(line.get(name), Some(b'"' | b'\'')) {
        let Some(closed) = behind_quotes(line, name) else {
            let why = "no quote closes this name: add one at its end";
            return (Span::of(name, 1), why);
        };
        end = closed;
        if end == name.saturating_add(2) {
            let why = "the name is empty: write one between the quotes";
            return (Span::of(name, 2), why);
        }
    }
    let equals = word_from(line, end);
    if line.get(equals.from) != Some(&b'=') {
        let front = Span::between(name, end);
        if is_among(&[b"export".as_slice()], front.bytes(line)) {
            return (front, "remove `export`: a setting is NAME=VALUE alone");
        }
        if is_hashed(front.bytes(line)) {
            let why = "Jenkins has `H` for a minute of its choice: write one, or `*/5` for `H/5`";
            return (front, why);
        }
        let why = "add `=`: a line that begins like this is a setting, NAME=VALUE";
        return (equals, why);
    }
    let value = word_from(line, equals.from.saturating_add(1)).from;
    let Some(end) = behind_quotes(line, value) else {
        let why = "no quote closes this value: add one at its end";
        return (Span::of(value, 1), why);
    };
    let why = "only blanks may follow the closing quote: remove this";
    (word_from(line, end), why)
}
