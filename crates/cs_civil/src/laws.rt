ghost use Rattle.std.specs.Prelude.{◌≡◌, ◌+◌, ℕ, pos, All, Contains};
ghost use Rattle.jiff_core.specs.Calendar.{days_from_civil};
ghost use Rattle.cs_civil.specs.Calendar.{Kind, IsKind, kind, date_of, kinds_after, ComesWithin};

/// Lemma. Every day has one of the 2,562 kinds, and every kind and each that can follow it occur on
/// two successive days of the first 28 years.
#[tactic(auto, using(crate::proofs::Dates::number_of, crate::proofs::Following::kind_followed, crate::proofs::Following::kind_possible, crate::proofs::Cycle::next_come))]
pub fn calendar()

    // the date of a day has that day number, as `jiff` counts
    ensures gregorian { (n : ℕ)
        → days_from_civil (pos (date_of n).year) (date_of n).month (date_of n).dom ≡ pos n }

    // each day has one of the 2,562 kinds
    ensures possible { (n : ℕ) → IsKind (kind n) }

    // and the next day one of those that can follow
    ensures followed { (n : ℕ) → Contains (kinds_after (kind n)) (kind (n + 1)) }

    // each kind, followed by each that can follow it, occurs within the first 28 years
    ensures comes { (k : Kind) → IsKind k → All (ComesWithin 10_227 k) (kinds_after k) }
{}
