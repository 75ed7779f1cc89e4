ghost use Rattle.std.specs.Prelude.{◌≡◌, ◌≤◌, length};
ghost use Rattle.std.specs.List.{list_all};
ghost use Rattle.cs_daytree.specs.Tree.{has, tree_of};
ghost use Rattle.cs_daytree.specs.Possible.{all_numbers, is_part_of, kept, splits_fit};
ghost use Rattle.cs_daytree.specs.Rising.{rises};

use crate::tree::{DayTree, KindPart, has};
use arrayvec::ArrayVec;

/// The most numbers of a part.
const MOST: usize = 31;

const MONTHS: [u8; 12] = [1, 2, 3, 4, 5, 6, 7, 8, 9, 10, 11, 12];

const DAYS: [u8; 31] = [
    1, 2, 3, 4, 5, 6, 7, 8, 9, 10, 11, 12, 13, 14, 15, 16, 17, 18, 19, 20, 21, 22, 23, 24, 25, 26,
    27, 28, 29, 30, 31,
];

const WEEKDAYS: [u8; 7] = [0, 1, 2, 3, 4, 5, 6];

fn rises(values: &[u8]) -> bool
    ensures { result ≡ rises values.now }
{
    values.is_sorted_by(|one, next| *one < *next)
}

fn are_possible(values: &[u8], possible: &[u8]) -> bool
    ensures { result ≡ list_all (λ value. has possible.now value) values.now }
{
    values.iter().all(|value| has(possible, *value))
}

fn is_part_of(values: &[u8], possible: &[u8]) -> bool
    ensures { result ≡ is_part_of values.now possible.now }
{
    rises(values)
        && !values.is_empty()
        && are_possible(values, possible)
        && values.len() < possible.len()
}

#[tactic(auto, unfolding(crate::specs::Possible::kept))]
fn kept(numbers: &[u8], values: &[u8], inside: bool) -> ArrayVec<u8, MOST>
    requires { length numbers.now ≤ MOST }
    ensures { result.items ≡ kept values.now inside numbers.now }
{
    let mut found = ArrayVec::new();
    for number in numbers {
        if has(values, *number) == inside {
            found.push(*number);
        }
    }
    found
}

impl DayTree {
    /// Checks whether each split is possible: its values rise strictly, and are some of the numbers
    /// that the splits above leave for its part, at least one but not all. Above the first, months
    /// 1 to 12, days 1 to 31 and weekdays 0 to 6 are left.
    pub fn splits_fit(&self) -> bool
        ensures { result ≡ splits_fit all_numbers (tree_of self.now) }
    {
        self.fits(&MONTHS, &DAYS, &WEEKDAYS)
    }

    #[tactic(auto, unfolding(crate::specs::Possible::splits_fit))]
    fn fits(&self, months: &[u8], days: &[u8], weekdays: &[u8]) -> bool
        requires months { length months.now ≤ MOST }
        requires days { length days.now ≤ MOST }
        requires weekdays { length weekdays.now ≤ MOST }
        ensures { result
            ≡ splits_fit (record { months = months.now; days = days.now; weekdays = weekdays.now })
            (tree_of self.now) }
    {
        match self {
            DayTree::Leaf(_) => true,
            DayTree::Split {
                part,
                values,
                inside,
                outside,
            } => {
                let values = values.as_slice();
                match part {
                    KindPart::Month => {
                        if !is_part_of(values, months) {
                            return false;
                        }
                        inside.fits(&kept(months, values, true), days, weekdays)
                            && outside.fits(&kept(months, values, false), days, weekdays)
                    }
                    KindPart::Day => {
                        if !is_part_of(values, days) {
                            return false;
                        }
                        inside.fits(months, &kept(days, values, true), weekdays)
                            && outside.fits(months, &kept(days, values, false), weekdays)
                    }
                    KindPart::Weekday => {
                        if !is_part_of(values, weekdays) {
                            return false;
                        }
                        inside.fits(months, days, &kept(weekdays, values, true))
                            && outside.fits(months, days, &kept(weekdays, values, false))
                    }
                }
            }
        }
    }
}
