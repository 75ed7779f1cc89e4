use indexmap::IndexSet;
use std::alloc::{AllocError, Global};

pub(crate) fn number_at(numbers: &[u16], place: usize) -> u16 {
    numbers.get(place).copied().unwrap_or(0)
}

pub(crate) fn minutes_at(minutes: &[u32], place: usize) -> u32 {
    minutes.get(place).copied().unwrap_or(0)
}

/// New numbers for kinds: two have the same exactly if they had the same, and as much is left;
/// `carries` is empty if nothing is. Both are numbered from 0, in order of their first place.
pub(crate) fn told_apart(
    alloc: Global,
    numbers: &[u16],
    carries: &[u32],
) -> Result<Vec<u16>, AllocError> {
    if carries.is_empty() {
        return Vec::from_slice(alloc, numbers);
    }
    let mut seen = IndexSet::new(alloc);
    let mut finer = Vec::new(alloc);
    for (number, carry) in numbers.iter().zip(carries) {
        let (place, _) = seen.insert_full((*number, *carry))?;
        finer.push(u16::try_from(place).unwrap_or(u16::MAX))?;
    }
    Ok(finer)
}

/// The first kind that has each of these numbers, which are counted from 0 in order of their first
/// place.
pub(crate) fn first_places(alloc: Global, numbers: &[u16]) -> Result<Vec<usize>, AllocError> {
    let mut first = Vec::new(alloc);
    for (place, number) in numbers.iter().enumerate() {
        if usize::from(*number) == first.len() {
            first.push(place)?;
        }
    }
    Ok(first)
}
