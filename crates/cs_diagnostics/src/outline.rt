//! The places of the parts of a JSON text. The text is one that `serde_json` reads; the places in
//! any other text have no meaning.
use crate::span::Span;
use serde_json::{Error, Value};
use std::alloc::{AllocError, Global};

/// The JSON value of a text, or why it has none. The only error is out of memory.
pub fn parsed(alloc: Global, bytes: &[u8]) -> Result<Result<Value, Error>, AllocError> {
    match Value::from_slice(alloc, bytes) {
        Err(error) if error.is_memory() => Err(AllocError),
        read => Ok(read),
    }
}

/// The span without JSON's blanks at its ends.
pub fn trimmed(bytes: &[u8], span: Span) -> Span {
    let (mut from, mut to) = (0usize, 0usize);
    for (at, byte) in span.bytes(bytes).iter().enumerate() {
        if !matches!(*byte, b' ' | b'\t' | b'\n' | b'\r') {
            from = if to == 0 { at } else { from };
            to = at.saturating_add(1);
        }
    }
    Span::between(from, to).behind(span.from)
}

/// What a scan of a JSON text knows before the next byte.
#[derive(Drop)]
struct Scan {
    /// How many objects and lists are open.
    depth: usize,
    in_text: bool,
    /// Whether a backslash in a text precedes the byte.
    is_escaped: bool,
}

impl Scan {
    /// Passes a byte; returns whether a name or a part of the outermost object or list ends before
    /// it.
    fn pass(&mut self, byte: u8) -> bool {
        if self.in_text {
            self.in_text = self.is_escaped || byte != b'"';
            self.is_escaped = !self.is_escaped && byte == b'\\';
            return false;
        }
        match byte {
            b'"' => self.in_text = true,
            b'[' | b'{' => self.depth = self.depth.saturating_add(1),
            b']' | b'}' => self.depth = self.depth.saturating_sub(1),
            _ => {}
        }
        match byte {
            b']' | b'}' => self.depth == 0,
            b',' | b':' => self.depth == 1,
            _ => false,
        }
    }
}

/// A member of an object or an item of a list.
#[derive(Clone, Copy)]
pub struct Part {
    /// The place of its name; empty for an item.
    pub name: Span,
    /// The place of its value.
    pub value: Span,
}

/// The members of the object, or the items of the list, at the span. The only error is out of
/// memory.
pub fn parts(alloc: Global, bytes: &[u8], span: Span) -> Result<Vec<Part>, AllocError> {
    let mut parts = Vec::new(alloc);
    let mut scan = Scan {
        depth: 0,
        in_text: false,
        is_escaped: false,
    };
    let mut from = span.from.saturating_add(1);
    let mut name = Span::of(from, 0);
    for (i, byte) in span.bytes(bytes).iter().enumerate() {
        if scan.pass(*byte) {
            let to = span.from.saturating_add(i);
            let value = trimmed(bytes, Span::between(from, to));
            from = to.saturating_add(1);
            if *byte == b':' {
                name = value;
            } else if !value.is_empty() {
                parts.push(Part { name, value })?;
            }
        }
    }
    Ok(parts)
}
