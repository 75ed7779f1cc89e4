ghost use Rattle.std.specs.Prelude.{◌≡◌, nat_lt};
ghost use Rattle.std.specs.List.{list_all};
ghost use Rattle.cs_daytree.specs.Rising.{each_next};
ghost use Rattle.cs_claims.specs.Content.{stretch_of};
ghost use Rattle.cs_claims.specs.Rules.{comes_before, has_days, has_entries, has_short_leaves, is_of_classes, is_shallow, is_split_well};

use crate::limits::MAX_DEPTH;
use crate::minute_tree::{has_entries, has_short_leaves, is_no_deeper_than};
use cs_civil::Sequence;
use cs_windows::MinuteTree;

/// Successive days by their classes, eldest first, and the windows that hold each minute of the
/// last of them.
///
/// Version 1 has stretches of two days, version 2 of two to four.
#[derive(Drop)]
pub struct Stretch {
    /// The classes of the days.
    pub of: Sequence<u32>,
    /// The windows of the last day.
    pub tree: MinuteTree,
}

impl Stretch {
    fn is_split_well(&self) -> bool
        ensures { result ≡ is_split_well (stretch_of self.now) }
    {
        self.tree.splits_inside()
    }

    fn comes_before(&self, other: &Stretch) -> bool
        ensures { result ≡ comes_before self.now.of other.now.of }
    {
        let one = self.of.as_slice();
        let next = other.of.as_slice();
        one.len() < next.len() || (one.len() == next.len() && one.cmp(next).is_lt())
    }
}

fn are_below(classes: &[u32], count: usize) -> bool
    ensures { result ≡ list_all (λ class. nat_lt class count) classes.now }
{
    classes.iter().all(|class| (*class as usize) < count)
}

pub(crate) fn have_days(stretches: &[Stretch], most: u8) -> bool
    ensures { result ≡ list_all (λ s. has_days most (stretch_of s)) stretches.now }
{
    stretches.iter().all(|stretch| 2 <= stretch.of.len() && stretch.of.len() <= usize::from(most))
}

pub(crate) fn are_shallow(stretches: &[Stretch]) -> bool
    ensures { result ≡ list_all (λ s. is_shallow (stretch_of s)) stretches.now }
{
    stretches
        .iter()
        .all(|stretch| is_no_deeper_than(&stretch.tree, MAX_DEPTH))
}

pub(crate) fn are_split_well(stretches: &[Stretch]) -> bool
    ensures { result ≡ list_all (λ s. is_split_well (stretch_of s)) stretches.now }
{
    stretches.iter().all(|stretch| stretch.is_split_well())
}

pub(crate) fn are_of_classes(stretches: &[Stretch], count: usize) -> bool
    ensures { result ≡ list_all (λ s. is_of_classes count (stretch_of s)) stretches.now }
{
    stretches
        .iter()
        .all(|stretch| are_below(stretch.of.as_slice(), count))
}

pub(crate) fn rise(stretches: &[Stretch]) -> bool
    ensures { result ≡ each_next (λ s t. comes_before s.of t.of) stretches.now }
{
    stretches.is_sorted_by(|one, next| one.comes_before(next))
}

pub(crate) fn have_entries(stretches: &[Stretch], days: u8) -> bool
    ensures { result ≡ list_all (λ s. has_entries days (stretch_of s)) stretches.now }
{
    stretches
        .iter()
        .all(|stretch| has_entries(&stretch.tree, days))
}

pub(crate) fn have_short_leaves(stretches: &[Stretch]) -> bool
    ensures { result ≡ list_all (λ s. has_short_leaves (stretch_of s)) stretches.now }
{
    stretches
        .iter()
        .all(|stretch| has_short_leaves(&stretch.tree))
}
