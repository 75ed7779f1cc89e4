ghost use Rattle.std.specs.Prelude.{◌≡◌, [], ◌∷◌};
ghost use Rattle.serde_json.specs.View.{view, items_view};
ghost use Rattle.cs_json.specs.Bytes.{list_of};
ghost use Rattle.cs_json.specs.Gives.{Gives};
ghost use Rattle.cs_json.specs.Shape.{pair_as, pair_of, triple_as, triple_of};

use crate::fault::{BAD_SHAPE, Misread};
use crate::reading::{FromJson, items};
use serde_json::Value;
use std::alloc::Global;

/// A list of exactly two, each of its own shape.
impl<A: FromJson, B: FromJson> FromJson for (A, B) {
    ghost Seen = { A.Seen × B.Seen };

    ghost seen = { λ p. (A.seen p.0, B.seen p.1) };

    ghost shape = { pair_as A.shape B.shape };

    fn from_json(alloc: Global, value: &Value) -> Result<(A, B), Misread> {
        two(alloc, items(value)?)
    }
}

#[tactic(auto, using(crate::proofs::Items::not_two, crate::proofs::Items::two_items))]
fn two<A: FromJson, B: FromJson>(alloc: Global, list: &Vec<Value>) -> Result<(A, B), Misread>
    ensures { Gives (λ p. (A.seen p.0, B.seen p.1)) result
        (pair_of A.shape B.shape (list_of (items_view list.now.items))) }
{
    if list.len() != 2 {
        return Err(BAD_SHAPE);
    }
    both(alloc, &list[0], &list[1])
}

fn both<A: FromJson, B: FromJson>(alloc: Global, a: &Value, b: &Value) -> Result<(A, B), Misread>
    ensures { Gives (λ p. (A.seen p.0, B.seen p.1)) result
        (pair_of A.shape B.shape (view a.now ∷ view b.now ∷ [])) }
{
    let first = A::from_json(alloc, a)?;
    Ok((first, B::from_json(alloc, b)?))
}

/// A list of exactly three, each of its own shape.
impl<A: FromJson, B: FromJson, C: FromJson> FromJson for (A, B, C) {
    ghost Seen = { A.Seen × B.Seen × C.Seen };

    ghost seen = { λ p. (A.seen p.0, B.seen p.1, C.seen p.2) };

    ghost shape = { triple_as A.shape B.shape C.shape };

    fn from_json(alloc: Global, value: &Value) -> Result<(A, B, C), Misread> {
        three(alloc, items(value)?)
    }
}

#[tactic(auto, using(crate::proofs::Items::not_three, crate::proofs::Items::three_items))]
fn three<A: FromJson, B: FromJson, C: FromJson>(
    alloc: Global,
    list: &Vec<Value>,
) -> Result<(A, B, C), Misread>
    ensures { Gives (λ p. (A.seen p.0, B.seen p.1, C.seen p.2)) result
        (triple_of A.shape B.shape C.shape (list_of (items_view list.now.items))) }
{
    if list.len() != 3 {
        return Err(BAD_SHAPE);
    }
    all_three(alloc, &list[0], &list[1], &list[2])
}

fn all_three<A: FromJson, B: FromJson, C: FromJson>(
    alloc: Global,
    a: &Value,
    b: &Value,
    c: &Value,
) -> Result<(A, B, C), Misread>
    ensures { Gives (λ p. (A.seen p.0, B.seen p.1, C.seen p.2)) result
        (triple_of A.shape B.shape C.shape (view a.now ∷ view b.now ∷ view c.now ∷ [])) }
{
    let first = A::from_json(alloc, a)?;
    let second = B::from_json(alloc, b)?;
    Ok((first, second, C::from_json(alloc, c)?))
}
