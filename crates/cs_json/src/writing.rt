ghost use Rattle.std.specs.Prelude.{◌≡◌, ◌≤◌, IfOk, map, string_bytes, Some, false, refl};
ghost use Rattle.serde_json.specs.Data.{Data, number, unsigned, array, item, no_items, boolean, string, depth};
ghost use Rattle.serde_json.specs.Read.{max_depth};
ghost use Rattle.serde_json.specs.View.{view, items_of};
ghost use Rattle.serde_json.specs.Written.{compact_text, has_float};
ghost use Rattle.cs_json.specs.Bytes.{json_of};
ghost use Rattle.cs_json.specs.NoFloat.{list_no_float, pair_no_float, triple_no_float};

use serde_json::Value;
use std::alloc::{AllocError, Global};

/// A type that has a JSON value. Members are in alphabetical order, as `serde_json` keeps them.
pub trait ToJson {
    /// The JSON value that is written.
    ghost spelled: { Self → Data };

    /// Returns the JSON value.
    fn to_json(&self, alloc: Global) -> Result<Value, AllocError>
        ensures { IfOk result (λ v. view v ≡ spelled self.now) };

    /// No number in it is a float.
    ghost no_float: { (x : Self) → has_float (spelled x) ≡ false };
}

impl ToJson for u64 {
    ghost spelled = { λ n. number (unsigned n) };

    ghost no_float = { λ _. refl };

    fn to_json(&self, _alloc: Global) -> Result<Value, AllocError> {
        Ok(Value::from(*self))
    }
}

impl ToJson for u32 {
    ghost spelled = { λ n. number (unsigned n) };

    ghost no_float = { λ _. refl };

    fn to_json(&self, alloc: Global) -> Result<Value, AllocError> {
        u64::from(*self).to_json(alloc)
    }
}

impl ToJson for u16 {
    ghost spelled = { λ n. number (unsigned n) };

    ghost no_float = { λ _. refl };

    fn to_json(&self, alloc: Global) -> Result<Value, AllocError> {
        u64::from(*self).to_json(alloc)
    }
}

impl ToJson for u8 {
    ghost spelled = { λ n. number (unsigned n) };

    ghost no_float = { λ _. refl };

    fn to_json(&self, alloc: Global) -> Result<Value, AllocError> {
        u64::from(*self).to_json(alloc)
    }
}

impl ToJson for bool {
    ghost spelled = { λ b. boolean b };

    ghost no_float = { λ _. refl };

    fn to_json(&self, _alloc: Global) -> Result<Value, AllocError> {
        Ok(Value::Bool(*self))
    }
}

impl ToJson for String {
    ghost spelled = { λ s. string (string_bytes s) };

    ghost no_float = { λ _. refl };

    fn to_json(&self, alloc: Global) -> Result<Value, AllocError> {
        Ok(Value::String(String::from_str(alloc, self.as_str())?))
    }
}

/// A list of two.
impl<A: ToJson, B: ToJson> ToJson for (A, B) {
    ghost spelled = { λ p. array (item (A.spelled p.0) (item (B.spelled p.1) no_items)) };

    ghost no_float = { λ p. pair_no_float (A.spelled p.0) (B.spelled p.1)
        (A.no_float p.0) (B.no_float p.1) };

    fn to_json(&self, alloc: Global) -> Result<Value, AllocError> {
        let first = self.0.to_json(alloc)?;
        let second = self.1.to_json(alloc)?;
        Ok(Value::Array(vec![in alloc; first, second]?))
    }
}

/// A list of three.
impl<A: ToJson, B: ToJson, C: ToJson> ToJson for (A, B, C) {
    ghost spelled = { λ p.
        array (item (A.spelled p.0) (item (B.spelled p.1) (item (C.spelled p.2) no_items))) };

    ghost no_float = { λ p. triple_no_float (A.spelled p.0) (B.spelled p.1) (C.spelled p.2)
        (A.no_float p.0) (B.no_float p.1) (C.no_float p.2) };

    fn to_json(&self, alloc: Global) -> Result<Value, AllocError> {
        let first = self.0.to_json(alloc)?;
        let second = self.1.to_json(alloc)?;
        let third = self.2.to_json(alloc)?;
        Ok(Value::Array(vec![in alloc; first, second, third]?))
    }
}

/// A list, in order.
impl<T: ToJson> ToJson for Vec<T> {
    ghost spelled = { λ v. array (items_of (map T.spelled v.items)) };

    ghost no_float = { λ v. list_no_float T.spelled T.no_float v.items };

    fn to_json(&self, alloc: Global) -> Result<Value, AllocError> {
        Ok(Value::Array(values(alloc, self.as_slice())?))
    }
}

fn values<T: ToJson>(alloc: Global, list: &[T]) -> Result<Vec<Value>, AllocError>
    ensures { IfOk result (λ v. map view v.items ≡ map T.spelled list.now) }
{
    let mut found = Vec::new(alloc);
    for x in list {
        found.push(x.to_json(alloc)?)?;
    }
    Ok(found)
}

/// Writes the compact text of a value, which can be read back if it nests at most 127 deep.
pub fn write<T: ToJson>(alloc: Global, value: &T) -> Result<Vec<u8>, AllocError>
    ensures text { IfOk result (λ b. b.items ≡ compact_text (T.spelled value.now)) }
    ensures reads_back { IfOk result
        (λ b. depth (T.spelled value.now) ≤ max_depth
        → json_of b.items ≡ Some (T.spelled value.now)) }
{
    value.to_json(alloc)?.to_vec(alloc)
}
