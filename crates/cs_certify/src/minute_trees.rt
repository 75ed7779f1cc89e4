use crate::cut::{best_cut, most_at_once, turns};
use cs_civil::{MINUTES_OF_DAY, Sequence};
use cs_claims::MAX_ENTRIES;
use cs_windows::{Entry, MinuteTree, Window, touches};
use std::alloc::{AllocError, Global};

/// A leaf with at most this many entries isn't split.
const SHORT_LEAF: usize = 64;

/// Nor is a longer one that may stand, if more than one of this many windows would be listed on
/// both sides.
const ONE_ACROSS_OF: usize = 8;

/// Each side of a cut has at most two thirds of the minutes, so that after this many cuts a range
/// is one minute.
const MOST_CUTS: u8 = 18;

fn leaf(alloc: Global, windows: &[Window]) -> Result<MinuteTree, AllocError> {
    let mut entries = Vec::with_capacity(alloc, windows.len())?;
    for window in windows {
        entries.push(Entry {
            job: window.job,
            day_back: window.day_back,
            from: window.from,
        })?;
    }
    Ok(MinuteTree::Leaf(Sequence::from_vec(entries)))
}

fn touching(
    alloc: Global,
    windows: &[Window],
    lo: u16,
    hi: u16,
) -> Result<Vec<Window>, AllocError> {
    let mut held = Vec::new(alloc);
    for window in windows {
        if touches(window, lo, hi) {
            held.push(*window)?;
        }
    }
    Ok(held)
}

/// Where a tree over `[lo, hi)` with these windows is split, or `None` if it is to be a leaf.
fn split_at(
    alloc: Global,
    windows: &[Window],
    lo: u16,
    hi: u16,
) -> Result<Option<u16>, AllocError> {
    let count = windows.len();
    if count <= SHORT_LEAF {
        return Ok(None);
    }
    let turns = turns(alloc, windows, lo, hi)?;
    match best_cut(&turns, lo, hi) {
        Some(cut) if count > MAX_ENTRIES || cut.across as usize <= count / ONE_ACROSS_OF => {
            Ok(Some(cut.at))
        }
        _ => Ok(None),
    }
}

/// The tree over `[lo, hi)`, at most this many cuts deep, whose leaves list these windows, all of
/// which touch the range.
fn tree_over(
    alloc: Global,
    windows: &[Window],
    lo: u16,
    hi: u16,
    cuts: u8,
) -> Result<MinuteTree, AllocError> {
    if cuts == 0 {
        return leaf(alloc, windows);
    }
    let Some(at) = split_at(alloc, windows, lo, hi)? else {
        return leaf(alloc, windows);
    };
    let earlier = touching(alloc, windows, lo, at)?;
    let before = tree_over(alloc, &earlier, lo, at, cuts - 1)?;
    let later = touching(alloc, windows, at, hi)?;
    let after = tree_over(alloc, &later, at, hi, cuts - 1)?;
    Ok(MinuteTree::Split {
        at,
        before: Box::new(alloc, before)?,
        after: Box::new(alloc, after)?,
    })
}

/// Returns a tree over the minutes of a day each of whose leaves lists every window that touches
/// its range, in the order given.
///
/// If one leaf may list all windows, they stand in a leaf of the whole day, which is shortest as
/// text and which [`covers`](MinuteTree::covers) goes through once. Else the tree is made to be
/// short as text and to have short leaves. If more than 4,096 windows hold one minute, no
/// certificate can list them, and all are in one leaf. The only error is out of memory.
pub fn minute_tree(alloc: Global, windows: &[Window]) -> Result<MinuteTree, AllocError> {
    let held = touching(alloc, windows, 0, MINUTES_OF_DAY)?;
    if held.len() <= MAX_ENTRIES {
        return leaf(alloc, &held);
    }
    let turns = turns(alloc, &held, 0, MINUTES_OF_DAY)?;
    if most_at_once(&turns) as usize > MAX_ENTRIES {
        return leaf(alloc, &held);
    }
    tree_over(alloc, &held, 0, MINUTES_OF_DAY, MOST_CUTS)
}
