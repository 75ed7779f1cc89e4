//! Finds what is declared twice.
ghost use Rattle.std.specs.Prelude.{◌≡◌, ◌<◌, ℕ, ℤ, List, IfOk, IfSome, Some, length, map, bytes_eq};
ghost use Rattle.std.specs.Ordering.{int_eq};
ghost use Rattle.std.specs.List.{list_any};
ghost use Rattle.cs_decl.specs.Faults.{same_number, first_again, first_twice};

use crate::entries::{AnacronEntry, CronEntry, GroupEntry, PartEntry};
use cs_civil::Sequence;
use indexmap::IndexSet;
use json::Value;
use std::alloc::{AllocError, Global};

pub(crate) trait Named {
    /// The bytes of the name.
    ghost name_of: { Self → List ℕ };

    fn name(&self) -> &[u8]
        ensures { result.now ≡ name_of self.now };
}

impl Named for GroupEntry {
    ghost name_of = { λ group. group.name };

    fn name(&self) -> &[u8] {
        self.name.as_slice()
    }
}

impl Named for PartEntry {
    ghost name_of = { λ part. part.name };

    fn name(&self) -> &[u8] {
        self.name.as_slice()
    }
}

impl Named for AnacronEntry {
    ghost name_of = { λ entry. entry.identifier };

    fn name(&self) -> &[u8] {
        self.identifier.as_slice()
    }
}

/// A member of a JSON object.
impl<'a> Named for (&'a str, Value<'a>) {
    ghost name_of = { λ member. member.0.now };

    fn name(&self) -> &[u8] {
        self.0.as_bytes()
    }
}

/// The index of the first item with the name of an earlier one.
pub(crate) fn first_twice<T: Named>(alloc: Global, items: &[T]) -> Result<Option<usize>, AllocError>
    ensures value { IfOk result (λ o. o ≡ first_twice bytes_eq (map T.name_of items.now)) }
    ensures within { IfOk result (λ o. IfSome o (λ i. i < length items.now)) }
{
    let mut seen: IndexSet<&[u8]> = IndexSet::new(alloc);
    for (i, item) in items.iter().enumerate() {
        if !seen.insert(item.name())? {
            return Ok(Some(i));
        }
    }
    Ok(None)
}

fn set_of(alloc: Global, numbers: &[Option<i128>]) -> Result<IndexSet<i128>, AllocError>
    ensures { IfOk result
        (λ set. (n : ℤ) → list_any (int_eq n) set.keys
        ≡ list_any (same_number (Some n)) numbers.now) }
{
    let mut set = IndexSet::new(alloc);
    for number in numbers {
        if let Some(number) = number {
            set.insert(*number)?;
        }
    }
    Ok(set)
}

/// The index of the first number that is one of `before` or of the earlier ones.
pub(crate) fn twice_number(
    alloc: Global,
    before: &[Option<i128>],
    numbers: &[Option<i128>],
) -> Result<Option<usize>, AllocError>
    ensures { IfOk result (λ o. o ≡ first_again same_number before.now 0 numbers.now) }
{
    let mut seen = set_of(alloc, before)?;
    for (i, number) in numbers.iter().enumerate() {
        if let Some(number) = number {
            if !seen.insert(*number)? {
                return Ok(Some(i));
            }
        }
    }
    Ok(None)
}

pub(crate) fn twice_line(alloc: Global, cron: &[CronEntry]) -> Result<Option<usize>, AllocError>
    ensures { IfOk result
        (λ o. o ≡ first_twice same_number (map (λ e. e.name.number) cron.now)) }
{
    let none = Sequence::new(alloc);
    let mut numbers = Sequence::new(alloc);
    for entry in cron {
        numbers.push(entry.name.number)?;
    }
    twice_number(alloc, none.as_slice(), numbers.as_slice())
}
