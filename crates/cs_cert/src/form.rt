ghost use Rattle.std.specs.Prelude.{◌≡◌, IfOk, List, map, Result, [], ◌∷◌};
ghost use Rattle.serde_json.specs.Data.{Data, array, item, no_items};
ghost use Rattle.serde_json.specs.View.{items_of, items_view, view};
ghost use Rattle.serde_json.specs.Find.{as_array};
ghost use Rattle.cs_json.specs.Bytes.{list_of};
ghost use Rattle.cs_json.specs.Gives.{Gives};
ghost use Rattle.cs_json.specs.Shape.{all_as, list_as, member_as, or_bad_shape, pair_as, pair_of, triple_as, triple_of};
ghost use Rattle.cs_json.specs.declared.fault.JsonFault.{JsonFault};

use cs_civil::Sequence;
use cs_json::{BAD_SHAPE, Misread, value_at};
use serde_json::Value;
use std::alloc::{AllocError, Global};

/// A value in the JSON text of a certificate.
///
/// A whole number is held in the type that its rules need. One beyond that type is held as its
/// greatest value, which no rule allows, so that it has the fault that the number itself would
/// have.
pub(crate) trait Form: Drop {
    /// What a clause sees of a value of this type.
    ghost Seen: { Type 0 };

    /// How a clause sees it.
    ghost seen: { Self → Seen };

    /// The value of a JSON value, or `BadShape`.
    ghost said: { Data → Result Seen JsonFault };

    /// The JSON value that is written.
    ghost written: { Seen → Data };

    /// `BadShape` if it has another shape.
    fn read(alloc: Global, value: &Value) -> Result<Self, Misread>
        ensures { Gives seen result (said (view value.now)) };

    fn write(&self, alloc: Global) -> Result<Value, AllocError>
        ensures { IfOk result (λ v. view v ≡ written (seen self.now)) };
}

/// A list of any length.
impl<T: Form> Form for Sequence<T> {
    ghost Seen = { List T.Seen };

    ghost seen = { λ s. map T.seen s };

    ghost said = { list_as T.said };

    ghost written = { λ xs. array (items_of (map T.written xs)) };

    fn read(alloc: Global, value: &Value) -> Result<Sequence<T>, Misread> {
        Ok(Sequence::from_vec(read_each(alloc, items(value)?)?))
    }

    fn write(&self, alloc: Global) -> Result<Value, AllocError> {
        Ok(Value::Array(write_each(alloc, self.as_slice())?))
    }
}

pub(crate) fn items(value: &Value) -> Result<&Vec<Value>, Misread>
    ensures { Gives (λ l. items_view l.now.items) result
        (or_bad_shape (as_array (view value.now))) }
{
    value.as_array().ok_or(BAD_SHAPE)
}

fn read_each<T: Form>(alloc: Global, list: &Vec<Value>) -> Result<Vec<T>, Misread>
    ensures { Gives (λ v. map T.seen v.items) result
        (all_as T.said (list_of (items_view list.now.items))) }
{
    let mut found = Vec::with_capacity(alloc, list.len())?;
    for value in list {
        found.push(T::read(alloc, value)?)?;
    }
    Ok(found)
}

pub(crate) fn write_each<T: Form>(alloc: Global, list: &[T]) -> Result<Vec<Value>, AllocError>
    ensures { IfOk result (λ v. map view v.items ≡ map T.written (map T.seen list.now)) }
{
    let mut found = Vec::with_capacity(alloc, list.len())?;
    for part in list {
        found.push(part.write(alloc)?)?;
    }
    Ok(found)
}

/// A required member of an object. `BadShape` if it is absent or misshapen.
pub(crate) fn member<T: Form>(alloc: Global, value: &Value, name: &str) -> Result<T, Misread>
    ensures { Gives T.seen result (member_as T.said name.now (view value.now)) }
{
    T::read(alloc, value_at(value, name)?)
}

/// A list of exactly two.
#[tactic(auto, using(cs_json::proofs::Items::not_two, cs_json::proofs::Items::two_items))]
pub(crate) fn read_pair<A: Form, B: Form>(alloc: Global, value: &Value) -> Result<(A, B), Misread>
    ensures { Gives (λ p. (A.seen p.0, B.seen p.1)) result
        (pair_as A.said B.said (view value.now)) }
{
    let list = items(value)?;
    if list.len() != 2 {
        return Err(BAD_SHAPE);
    }
    read_two(alloc, &list[0], &list[1])
}

fn read_two<A: Form, B: Form>(alloc: Global, a: &Value, b: &Value) -> Result<(A, B), Misread>
    ensures { Gives (λ p. (A.seen p.0, B.seen p.1)) result
        (pair_of A.said B.said (view a.now ∷ view b.now ∷ [])) }
{
    let first = A::read(alloc, a)?;
    Ok((first, B::read(alloc, b)?))
}

/// A list of exactly three.
#[tactic(auto, using(cs_json::proofs::Items::not_three, cs_json::proofs::Items::three_items))]
pub(crate) fn read_triple<A: Form, B: Form, C: Form>(
    alloc: Global,
    value: &Value,
) -> Result<(A, B, C), Misread>
    ensures { Gives (λ p. (A.seen p.0, B.seen p.1, C.seen p.2)) result
        (triple_as A.said B.said C.said (view value.now)) }
{
    let list = items(value)?;
    if list.len() != 3 {
        return Err(BAD_SHAPE);
    }
    read_three(alloc, &list[0], &list[1], &list[2])
}

fn read_three<A: Form, B: Form, C: Form>(
    alloc: Global,
    a: &Value,
    b: &Value,
    c: &Value,
) -> Result<(A, B, C), Misread>
    ensures { Gives (λ p. (A.seen p.0, B.seen p.1, C.seen p.2)) result
        (triple_of A.said B.said C.said (view a.now ∷ view b.now ∷ view c.now ∷ [])) }
{
    let first = A::read(alloc, a)?;
    let second = B::read(alloc, b)?;
    Ok((first, second, C::read(alloc, c)?))
}

pub(crate) fn pair(alloc: Global, first: Value, second: Value) -> Result<Value, AllocError>
    ensures { IfOk result (λ v. view v ≡ array (item (view first) (item (view second) no_items))) }
{
    Ok(Value::Array(vec![in alloc; first, second]?))
}

pub(crate) fn triple(
    alloc: Global,
    first: Value,
    second: Value,
    third: Value,
) -> Result<Value, AllocError>
    ensures { IfOk result
        (λ v. view v
        ≡ array (item (view first) (item (view second) (item (view third) no_items)))) }
{
    Ok(Value::Array(vec![in alloc; first, second, third]?))
}
