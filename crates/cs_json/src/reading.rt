ghost use Rattle.std.specs.Prelude.{◌≡◌, List, map, Result, string_bytes, ℤ, ℕ, Bool};
ghost use Rattle.serde_json.specs.Data.{Data};
ghost use Rattle.serde_json.specs.View.{view, items_view};
ghost use Rattle.serde_json.specs.Find.{as_array};
ghost use Rattle.cs_json.specs.Shape.{or_bad_shape, all_as, list_as, whole_number, text, flag};
ghost use Rattle.cs_json.specs.Bytes.{list_of};
ghost use Rattle.cs_json.specs.Gives.{Gives};
ghost use Rattle.cs_json.specs.declared.fault.JsonFault.{JsonFault};

use crate::fault::{BAD_SHAPE, Misread};
use serde_json::Value;
use std::alloc::Global;

/// A type that can be read from a JSON value of the right shape.
pub trait FromJson: Drop {
    /// What a clause sees of a value of this type.
    ghost Seen: { Type 0 };

    ghost seen: { Self → Seen };

    /// The value of a JSON value, or `BadShape`.
    ghost shape: { Data → Result Seen JsonFault };

    /// Reads the JSON value. `BadShape` if it has another shape; `Memory` if memory runs out.
    fn from_json(alloc: Global, value: &Value) -> Result<Self, Misread>
        ensures { Gives seen result (shape (view value.now)) };
}

/// A whole number that `serde_json` holds as a `u64` or an `i64`. `BadShape` for `1.0`, `1e2`, `-0`
/// and larger numbers.
impl FromJson for i128 {
    ghost Seen = { ℤ };

    ghost seen = { λ z. z };

    ghost shape = { whole_number };

    fn from_json(_alloc: Global, value: &Value) -> Result<i128, Misread> {
        match value.as_number() {
            Some(number) => number.as_i128().ok_or(BAD_SHAPE),
            None => Err(BAD_SHAPE),
        }
    }
}

/// `true` or `false`.
impl FromJson for bool {
    ghost Seen = { Bool };

    ghost seen = { λ b. b };

    ghost shape = { flag };

    fn from_json(_alloc: Global, value: &Value) -> Result<bool, Misread> {
        value.as_bool().ok_or(BAD_SHAPE)
    }
}

/// A text.
impl FromJson for String {
    ghost Seen = { List ℕ };

    ghost seen = { string_bytes };

    ghost shape = { text };

    fn from_json(alloc: Global, value: &Value) -> Result<String, Misread> {
        match value.as_str() {
            Some(text) => Ok(String::from_str(alloc, text)?),
            None => Err(BAD_SHAPE),
        }
    }
}

/// A list of any length, all items of one shape.
impl<T: FromJson> FromJson for Vec<T> {
    ghost Seen = { List T.Seen };

    ghost seen = { λ v. map T.seen v.items };

    ghost shape = { list_as T.shape };

    fn from_json(alloc: Global, value: &Value) -> Result<Vec<T>, Misread> {
        each(alloc, items(value)?)
    }
}

/// Returns the items of a list. `BadShape` if it isn't one.
pub fn items(value: &Value) -> Result<&Vec<Value>, Misread>
    ensures { Gives (λ l. items_view l.now.items) result
        (or_bad_shape (as_array (view value.now))) }
{
    value.as_array().ok_or(BAD_SHAPE)
}

fn each<T: FromJson>(alloc: Global, list: &Vec<Value>) -> Result<Vec<T>, Misread>
    ensures { Gives (λ v. map T.seen v.items) result
        (all_as T.shape (list_of (items_view list.now.items))) }
{
    let mut found = Vec::new(alloc);
    for v in list {
        found.push(T::from_json(alloc, v)?)?;
    }
    Ok(found)
}
