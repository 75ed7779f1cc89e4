//! Finds a member that stands twice in one object of a JSON text.
ghost use Rattle.std.specs.Prelude.{◌≡◌, IfOk, option_map};
ghost use Rattle.json.specs.Strict.{keys};
ghost use Rattle.json.specs.Value.{value_view, items_view, members_view};
ghost use Rattle.cs_decl.specs.Doubled.{doubled, doubled_in_items, doubled_in_members};
ghost use Rattle.cs_decl.specs.Doubled.{doubled_member, first_repeated};

use crate::twice::first_twice;
use cs_civil::Bytes;
use json::{Error, Scratch, Value};
use std::alloc::{AllocError, Global};

fn repeated<'a>(
    alloc: Global,
    members: &Vec<(&'a str, Value<'a>)>,
) -> Result<Option<&'a str>, AllocError>
    ensures { IfOk result (λ found. option_map (λ name. name.now) found
        ≡ first_repeated (keys (members_view members.now.items))) }
{
    let members = members.as_slice();
    match first_twice(alloc, members)? {
        Some(i) => Ok(Some(members[i].0)),
        None => Ok(None),
    }
}

#[cycle(doubled)]
fn in_value<'a>(alloc: Global, value: &Value<'a>) -> Result<Option<&'a str>, AllocError>
    ensures { IfOk result
        (λ found. option_map (λ name. name.now) found ≡ doubled (value_view value.now)) }
{
    match value {
        Value::Array(items) => in_items(alloc, items),
        Value::Object(members) => match repeated(alloc, members)? {
            Some(name) => Ok(Some(name)),
            None => in_members(alloc, members),
        },
        _ => Ok(None),
    }
}

#[cycle(doubled)]
fn in_items<'a>(alloc: Global, items: &Vec<Value<'a>>) -> Result<Option<&'a str>, AllocError>
    ensures { IfOk result (λ found. option_map (λ name. name.now) found
        ≡ doubled_in_items (items_view items.now.items)) }
{
    for item in items {
        if let Some(name) = in_value(alloc, item)? {
            return Ok(Some(name));
        }
    }
    Ok(None)
}

#[cycle(doubled)]
fn in_members<'a>(
    alloc: Global,
    members: &Vec<(&'a str, Value<'a>)>,
) -> Result<Option<&'a str>, AllocError>
    ensures { IfOk result (λ found. option_map (λ name. name.now) found
        ≡ doubled_in_members (members_view members.now.items)) }
{
    for member in members {
        if let Some(name) = in_value(alloc, &member.1)? {
            return Ok(Some(name));
        }
    }
    Ok(None)
}

/// An object's own members come before those of its values. `None` in a text that isn't JSON.
#[tactic(auto, unfolding(crate::specs::Doubled::doubled_member))]
pub(crate) fn doubled_member(alloc: Global, text: &[u8]) -> Result<Option<Bytes>, AllocError>
    ensures { IfOk result (λ found. found ≡ doubled_member text.now) }
{
    let mut scratch = Scratch::new(alloc);
    let value = match Value::from_slice(alloc, text, &mut scratch) {
        Ok(value) => value,
        Err(Error::OutOfMemory) => return Err(AllocError),
        Err(Error::Invalid) => return Ok(None),
        Err(Error::TooLong | Error::DuplicateKey) => return Ok(None),
    };
    match in_value(alloc, &value)? {
        Some(name) => Ok(Some(Bytes::from_slice(alloc, name.as_bytes())?)),
        None => Ok(None),
    }
}
