ghost use Rattle.std.specs.Prelude.{◌≡◌, map, option_map, string_bytes, bytes_eq};
ghost use Rattle.std.specs.List.{list_all, list_any};
ghost use Rattle.std.specs.BTreeMap.{keys};
ghost use Rattle.serde_json.specs.View.{view};
ghost use Rattle.serde_json.specs.Find.{get};
ghost use Rattle.cs_json.specs.Gives.{Gives};
ghost use Rattle.cs_json.specs.Shape.{or_bad_shape, member_as, member_or_default, member_or_none, object_with, is_among};

use crate::fault::{BAD_SHAPE, Misread};
use crate::reading::FromJson;
use serde_json::{Map, Value};
use std::alloc::Global;

/// Returns the member of that name. `BadShape` if the value is no object, or lacks it.
pub fn value_at<'v>(value: &'v Value, name: &str) -> Result<&'v Value, Misread>
    ensures { Gives (λ v. view v.now) result (or_bad_shape (get name.now (view value.now))) }
{
    value.get(name).ok_or(BAD_SHAPE)
}

/// Reads a required member. `BadShape` if absent or of another shape; `Memory` if memory runs out.
pub fn member<T: FromJson>(alloc: Global, value: &Value, name: &str) -> Result<T, Misread>
    ensures { Gives T.seen result (member_as T.shape name.now (view value.now)) }
{
    T::from_json(alloc, value_at(value, name)?)
}

/// Reads a member, or returns the default if it is absent. `BadShape` for another shape, such as
/// `null`; `Memory` if memory runs out.
pub fn member_or<T: FromJson>(
    alloc: Global,
    value: &Value,
    name: &str,
    default: T,
) -> Result<T, Misread>
    ensures { Gives T.seen result
        (member_or_default T.shape (T.seen default) name.now (view value.now)) }
{
    match value.get(name) {
        Some(found) => T::from_json(alloc, found),
        None => Ok(default),
    }
}

/// Reads a member, or returns `None` if it is absent. `BadShape` for another shape, such as `null`;
/// `Memory` if memory runs out.
pub fn member_if_there<T: FromJson>(
    alloc: Global,
    value: &Value,
    name: &str,
) -> Result<Option<T>, Misread>
    ensures { Gives (option_map T.seen) result
        (member_or_none T.shape name.now (view value.now)) }
{
    match value.get(name) {
        Some(found) => Ok(Some(T::from_json(alloc, found)?)),
        None => Ok(None),
    }
}

fn is_named(names: &[&str], name: &str) -> bool
    ensures { result ≡ list_any (λ n. bytes_eq n.now name.now) names.now }
{
    names.iter().any(|n| *n == name)
}

#[tactic(auto, using(crate::proofs::Items::any_seen))]
fn is_member_name(names: &[&str], name: &str) -> bool
    ensures { result ≡ is_among (map (λ n. n.now) names.now) name.now }
{
    is_named(names, name)
}

fn has_names(object: &Map<String, Value>, names: &[&str]) -> bool
    ensures { result
        ≡ list_all (λ k. is_among (map (λ n. n.now) names.now) (string_bytes k)) (keys object.now) }
{
    object
        .keys()
        .all(|name| is_member_name(names, name.as_str()))
}

/// Checks, without allocating, that the value is an object with no other members than these.
/// `BadShape` if it isn't.
#[tactic(auto, using(crate::proofs::Items::only_names))]
pub fn only_members(value: &Value, names: &[&str]) -> Result<(), Misread>
    ensures { Gives (λ u. u) result
        (object_with (is_among (map (λ n. n.now) names.now)) (view value.now)) }
{
    match value.as_object() {
        Some(object) => if has_names(object, names) {
            Ok(())
        } else {
            Err(BAD_SHAPE)
        },
        None => Err(BAD_SHAPE),
    }
}
