//! The layout of declarations: one entry a line.

use cs_civil::push_number;
use serde_json::Value;
use std::alloc::{AllocError, Global};

pub(crate) type Done = Result<(), AllocError>;

/// Between members, parts and the items of other lists.
pub(crate) const COMMA: &str = ", ";

/// Between the members of the outermost object.
pub(crate) const LINE: &str = ",\n  ";

/// Between entries.
pub(crate) const ENTRY: &str = ",\n    ";

/// A value as JSON, with a blank after each comma of a list.
fn value_text(alloc: Global, value: &Value) -> Result<String, AllocError> {
    let Some(items) = value.as_array() else {
        return value.to_string(alloc);
    };
    let mut text = String::from_str(alloc, "[")?;
    for (i, item) in items.iter().enumerate() {
        if i > 0 {
            text.push_str(COMMA)?;
        }
        text.push_str(item.to_string(alloc)?.as_str())?;
    }
    text.push_str("]")?;
    Ok(text)
}

/// Begins an object of a list, after `between` if it isn't the first.
pub(crate) fn begin(text: &mut Vec<u8>, between: &str) -> Done {
    if text.as_slice().ends_with(b"}") {
        text.extend_from_slice(between.as_bytes())?;
    }
    text.extend_from_slice(b"{")
}

/// Adds a member to an object, after `between` if it isn't the first; `value` is JSON.
pub(crate) fn add(text: &mut Vec<u8>, between: &str, name: &str, value: &str) -> Done {
    let so_far = text.as_slice();
    if !so_far.ends_with(b"{") && !so_far.ends_with(b"{\n  ") {
        text.extend_from_slice(between.as_bytes())?;
    }
    text.extend_from_slice(b"\"")?;
    text.extend_from_slice(name.as_bytes())?;
    text.extend_from_slice(b"\": ")?;
    text.extend_from_slice(value.as_bytes())
}

pub(crate) fn add_number(alloc: Global, text: &mut Vec<u8>, name: &str, number: u64) -> Done {
    add(text, COMMA, name, "")?;
    push_number(alloc, text, u128::from(number))
}

pub(crate) fn add_text(alloc: Global, text: &mut Vec<u8>, name: &str, value: &str) -> Done {
    let value = Value::String(String::from_str(alloc, value)?);
    add(text, COMMA, name, value.to_string(alloc)?.as_str())
}

/// Copies the named members that the value has.
pub(crate) fn add_members(
    alloc: Global,
    text: &mut Vec<u8>,
    between: &str,
    value: &Value,
    names: &[&str],
) -> Done {
    for name in names {
        if let Some(member) = value.get(*name) {
            add(text, between, *name, value_text(alloc, member)?.as_str())?;
        }
    }
    Ok(())
}
