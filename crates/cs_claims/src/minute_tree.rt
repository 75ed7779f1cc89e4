ghost use Rattle.std.specs.Prelude.{◌≡◌, nat_le};
ghost use Rattle.cs_windows.specs.Tree.{tree_of};
ghost use Rattle.cs_claims.specs.Rules.{depth, entries_fit, is_short, leaves_pass};

use crate::limits::{MAX_ENTRIES, MAX_JOBS};
use cs_civil::MINUTES_OF_DAY;
use cs_windows::{Entry, MinuteTree};

pub(crate) fn is_no_deeper_than(tree: &MinuteTree, limit: u8) -> bool
    ensures { result ≡ nat_le (depth (tree_of tree.now)) limit }
{
    match tree {
        MinuteTree::Leaf(_) => true,
        MinuteTree::Split {
            at: _,
            before,
            after,
        } => {
            limit > 0 && is_no_deeper_than(before, limit - 1) && is_no_deeper_than(after, limit - 1)
        }
    }
}

fn entries_fit(entries: &[Entry], days: u8) -> bool
    ensures { result ≡ entries_fit days entries.now }
{
    entries.iter().all(|entry| {
        entry.job < MAX_JOBS && entry.day_back < days && entry.from < MINUTES_OF_DAY
    })
}

pub(crate) fn has_entries(tree: &MinuteTree, days: u8) -> bool
    ensures { result ≡ leaves_pass (entries_fit days) (tree_of tree.now) }
{
    match tree {
        MinuteTree::Leaf(entries) => entries_fit(entries.as_slice(), days),
        MinuteTree::Split {
            at: _,
            before,
            after,
        } => has_entries(before, days) && has_entries(after, days),
    }
}

pub(crate) fn has_short_leaves(tree: &MinuteTree) -> bool
    ensures { result ≡ leaves_pass is_short (tree_of tree.now) }
{
    match tree {
        MinuteTree::Leaf(entries) => entries.len() <= MAX_ENTRIES,
        MinuteTree::Split {
            at: _,
            before,
            after,
        } => has_short_leaves(before) && has_short_leaves(after),
    }
}
