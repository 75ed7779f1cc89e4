ghost use Rattle.std.specs.Prelude.{◌≡◌, Some};
ghost use Rattle.std.specs.List.{list_all};
ghost use Rattle.cs_claims.specs.Content.{content_of};
ghost use Rattle.cs_claims.specs.Rules.{carries_fit, class_fits, classes_shaped, classes_there, fault_of, has_carries, is_carries, leaves_short, lengths_fit, lists_fit};
ghost use Rattle.cs_claims.specs.Rules.{most_classes, most_days, most_reach, trees_shallow, trees_split_well};

use crate::class::Class;
use crate::fault::CertFault;
use crate::limits::{MAX_CLASSES, MAX_DEPTH, MAX_KIND_CLASSES};
use crate::reach::reach_fits;
use crate::stretch::{
    Stretch, are_of_classes, are_shallow, are_split_well, have_days, have_entries,
    have_short_leaves, rise,
};
use cs_civil::Sequence;
use cs_daytree::DayTree;
use cs_windows::JobReach;

/// The parts of a certificate, whether they keep its rules or not.
#[derive(Drop)]
pub struct Parts {
    /// The version, which is to be 1, 2 or 3.
    pub version: u8,
    /// The classes of days, numbered from 0.
    pub classes: Sequence<Class>,
    /// The class of each kind of day.
    pub kinds: DayTree,
    /// The stretches of successive days.
    pub stretches: Sequence<Stretch>,
    /// The reaches of jobs.
    pub reach: Sequence<JobReach>,
}

fn most_days(version: u8) -> u8
    ensures { result ≡ most_days version }
{
    match version {
        1 => 2,
        2 => 4,
        _ => 0,
    }
}

fn most_reach(version: u8) -> u16
    ensures { result ≡ most_reach version }
{
    if version == 1 { 1_440 } else { 4_320 }
}

fn most_classes(version: u8) -> usize
    ensures { result ≡ most_classes version }
{
    if version == 3 {
        MAX_KIND_CLASSES
    } else {
        MAX_CLASSES
    }
}

fn are_carries(classes: &[Class]) -> bool
    ensures { result ≡ list_all is_carries classes.now }
{
    classes.iter().all(|class| class.is_carries())
}

fn have_carries(classes: &[Class]) -> bool
    ensures { result ≡ list_all has_carries classes.now }
{
    classes.iter().all(|class| class.has_carries())
}

fn classes_fit(classes: &[Class]) -> bool
    ensures { result ≡ list_all class_fits classes.now }
{
    classes.iter().all(|class| class.fits())
}

impl Parts {
    #[tactic(auto, using(crate::proofs::Seen::all_seen))]
    fn lengths_fit(&self) -> bool
        ensures { result ≡ lengths_fit (content_of self.now) }
    {
        have_days(self.stretches.as_slice(), most_days(self.version))
    }

    fn classes_shaped(&self) -> bool
        ensures { result ≡ classes_shaped (content_of self.now) }
    {
        self.version != 3 || are_carries(self.classes.as_slice())
    }

    fn carries_fit(&self) -> bool
        ensures { result ≡ carries_fit (content_of self.now) }
    {
        self.version != 3 || have_carries(self.classes.as_slice())
    }

    #[tactic(auto, using(crate::proofs::Seen::all_seen))]
    fn trees_shallow(&self) -> bool
        ensures { result ≡ trees_shallow (content_of self.now) }
    {
        self.kinds.is_no_deeper_than(MAX_DEPTH) && are_shallow(self.stretches.as_slice())
    }

    #[tactic(auto, using(crate::proofs::Seen::all_seen))]
    fn trees_split_well(&self) -> bool
        ensures { result ≡ trees_split_well (content_of self.now) }
    {
        self.kinds.splits_fit() && are_split_well(self.stretches.as_slice())
    }

    #[tactic(auto, using(crate::proofs::Seen::all_seen, crate::proofs::Seen::next_seen))]
    fn classes_there(&self) -> bool
        ensures { result ≡ classes_there (content_of self.now) }
    {
        let count = self.classes.len();
        let stretches = self.stretches.as_slice();
        (self.kinds.greatest_class() as usize) < count
            && are_of_classes(stretches, count)
            && rise(stretches)
    }

    #[tactic(auto, using(crate::proofs::Seen::all_seen))]
    fn lists_fit(&self) -> bool
        ensures { result ≡ lists_fit (content_of self.now) }
    {
        reach_fits(self.reach.as_slice(), most_reach(self.version))
            && classes_fit(self.classes.as_slice())
            && have_entries(self.stretches.as_slice(), most_days(self.version))
            && self.carries_fit()
    }

    #[tactic(auto, using(crate::proofs::Seen::all_seen))]
    fn leaves_short(&self) -> bool
        ensures { result ≡ leaves_short (content_of self.now) }
    {
        have_short_leaves(self.stretches.as_slice())
    }

    /// The fault with the smallest number, from 3 on.
    #[tactic(auto, unfolding(crate::specs::Rules::fault_of))]
    pub(crate) fn fault(&self) -> Option<CertFault>
        ensures { result ≡ fault_of (content_of self.now) }
    {
        if self.version != 1 && self.version != 2 && self.version != 3 {
            return Some(CertFault::BadVersion);
        }
        if !(self.lengths_fit() && self.classes_shaped()) {
            return Some(CertFault::BadShape);
        }
        if !self.trees_shallow() {
            return Some(CertFault::TooDeep);
        }
        if !self.trees_split_well() {
            return Some(CertFault::BadSplit);
        }
        if !self.classes_there() {
            return Some(CertFault::BadClass);
        }
        if !self.lists_fit() {
            return Some(CertFault::BadEntry);
        }
        if self.classes.len() > most_classes(self.version) {
            return Some(CertFault::TooManyClasses);
        }
        if !self.leaves_short() {
            return Some(CertFault::LeafTooLong);
        }
        None
    }
}
