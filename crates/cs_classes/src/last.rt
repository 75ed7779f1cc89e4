ghost use Rattle.std.specs.Prelude.{◌≡◌, ◌+◌, ◌<◌, ◌≤◌};
ghost use Rattle.cs_theorem.specs.Faults.{last_of, same_list};
ghost use Rattle.cs_classes.specs.Claim.{as_certificate, class_of};
ghost use Rattle.cs_classes.specs.Said.{said};
ghost use Rattle.cs_civil.specs.Calendar.{kind};
ghost use Rattle.cs_classes.specs.Days.{classes_on};

use crate::claim::Claim;
use arrayvec::ArrayVec;
use cs_civil::{Day, kind_of};

/// All chains of days occur within this many days, 28 years.
const SEARCHED: u32 = 10_227;

fn class_on(claim: &Claim<'_>, day: u32) -> u32
    requires { day ≤ 100000 }
    ensures { result ≡ class_of (said claim.now) (kind day) }
{
    match Day::new(u64::from(day)) {
        Some(day) => claim.kinds().class_of(kind_of(day)),
        None => 0,
    }
}

fn classes_from(claim: &Claim<'_>, first: u32, days: u8) -> ArrayVec<u32, 4>
    requires few { days ≤ 4 }
    requires near { first ≤ 50000 }
    ensures { result.items ≡ classes_on (said claim.now) first days }
{
    let mut classes = ArrayVec::new();
    for place in 0..days {
        classes.push(class_on(claim, first + u32::from(place)));
    }
    classes
}

#[tactic(auto, using(crate::proofs::Searched::slices_same))]
fn have_classes(claim: &Claim<'_>, first: u32, days: u8, classes: &[u32]) -> bool
    requires few { days ≤ 4 }
    requires near { first ≤ 50000 }
    ensures { result ≡ same_list (classes_on (said claim.now) first days) classes.now }
{
    classes_from(claim, first, days).as_slice() == classes
}

/// Returns the first day, counted from 1970-01-01 as 0, that ends `days` days of these classes:
/// from day number `days` on, within 28 years. If there is none, `days`.
pub fn last_day(claim: &Claim<'_>, classes: &[u32], days: u8) -> u32
    requires { (1 ≤ days) × (days ≤ 4) }
    ensures value { result ≡ last_of (as_certificate (said claim.now)) days classes.now }
    ensures within { (days ≤ result) × (result < days + 10227) }
{
    let start = u32::from(days);
    for last in start..start + SEARCHED {
        if have_classes(claim, last + 1 - start, days, classes) {
            return last;
        }
    }
    start
}
