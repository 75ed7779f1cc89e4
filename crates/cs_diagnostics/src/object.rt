//! The objects of a JSON text, with the places of their members.
use crate::outline::{Part, parsed, parts};
use crate::span::Span;
use serde_json::Value;
use std::alloc::{AllocError, Global};

/// An object of a JSON text.
#[derive(Drop)]
pub struct Object<'v> {
    /// Its first byte, the bracket.
    pub bracket: Span,
    /// Its members in their order, with their names.
    pub members: Vec<(String, Part)>,
    value: &'v Value,
}

impl<'v> Object<'v> {
    /// The object at a span of a text, whose value is given. The only error is out of memory.
    pub fn new(
        alloc: Global,
        bytes: &[u8],
        (value, span): (&'v Value, Span),
    ) -> Result<Object<'v>, AllocError> {
        let mut members = Vec::new(alloc);
        for part in parts(alloc, bytes, span)? {
            if let Ok(Value::String(name)) = parsed(alloc, part.name.bytes(bytes))? {
                members.push((name, part))?;
            }
        }
        Ok(Object {
            bracket: Span::of(span.from, 1),
            members,
            value,
        })
    }

    /// Whether it has a member of that name.
    pub fn has(&self, name: &str) -> bool {
        self.member(name).is_some()
    }

    /// The last member of that name, which is the one that counts, and its place.
    pub fn member(&self, name: &str) -> Option<(&'v Value, Span)> {
        for (own, part) in self.members.iter().rev() {
            if own.as_str() == name {
                return Some((self.value.get(name)?, part.value));
            }
        }
        None
    }

    /// The member's text and place, if it is a text.
    pub fn text(&self, name: &str) -> Option<(&'v str, Span)> {
        let (value, span) = self.member(name)?;
        Some((value.as_str()?, span))
    }

    /// The member's whole number and place, if it is one.
    pub fn whole(&self, name: &str) -> Option<(i128, Span)> {
        let (value, span) = self.member(name)?;
        Some((value.as_number()?.as_i128()?, span))
    }
}
