use crate::choice::{Choice, Tally, best_choice};
use crate::kinds::{Classed, Possible, all_classed, number_in};
use cs_claims::MAX_DEPTH;
use cs_daytree::DayTree;
use std::alloc::{AllocError, Global};

/// The class of the first of these kinds, or 0 if there is none, and whether all of them have it.
fn class_of(kinds: &[Classed]) -> (u16, bool) {
    let first = match kinds.first() {
        Some(first) => first.class,
        None => 0,
    };
    for classed in kinds {
        if classed.class != first {
            return (first, false);
        }
    }
    (first, true)
}

fn on_side(
    alloc: Global,
    kinds: &[Classed],
    choice: Choice,
    inside: bool,
) -> Result<Vec<Classed>, AllocError> {
    let mut kept = Vec::new(alloc);
    for classed in kinds {
        if choice.numbers.has(number_in(classed.kind, choice.part)) == inside {
            kept.push(*classed)?;
        }
    }
    Ok(kept)
}

/// A tree, at most this many splits deep, that gives these kinds their classes.
fn tree_of(
    alloc: Global,
    tally: &mut Tally,
    kinds: &[Classed],
    possible: Possible,
    splits: u8,
) -> Result<DayTree, AllocError> {
    let (class, is_alone) = class_of(kinds);
    let leaf = DayTree::Leaf(u32::from(class));
    if splits == 0 || is_alone {
        return Ok(leaf);
    }
    let Some(choice) = best_choice(alloc, tally, kinds, possible, splits)? else {
        return Ok(leaf);
    };
    let numbers = possible.of(choice.part);
    let within = possible.only(choice.part, choice.numbers);
    let inside = on_side(alloc, kinds, choice, true)?;
    let inside = tree_of(alloc, tally, &inside, within, splits - 1)?;
    let without = possible.only(choice.part, numbers.without(choice.numbers));
    let outside = on_side(alloc, kinds, choice, false)?;
    let outside = tree_of(alloc, tally, &outside, without, splits - 1)?;
    Ok(DayTree::Split {
        part: choice.part,
        values: choice.numbers.rising(alloc)?,
        inside: Box::new(alloc, inside)?,
        outside: Box::new(alloc, outside)?,
    })
}

/// Returns a day tree that gives each kind of day its class. The classes are in the order of
/// [`all_kinds`](cs_civil::all_kinds).
///
/// The tree is made to have few leaves. It is at most 24 deep, and each of its splits is possible.
/// The only error is out of memory.
pub fn day_tree(alloc: Global, class_of: &[u16]) -> Result<DayTree, AllocError> {
    let kinds = all_classed(alloc, class_of)?;
    let mut tally = Tally::new(alloc, class_of)?;
    tree_of(alloc, &mut tally, &kinds, Possible::all(), MAX_DEPTH)
}
