ghost use Rattle.std.specs.Prelude.{◌≡◌, ◌<◌, ◌≤◌, ◌∷◌, Some, length};
ghost use Rattle.std.specs.Iterator.{YieldsFirst, item_count};
ghost use Rattle.cs_civil.specs.Calendar.{Kind};
ghost use Rattle.cs_civil.specs.Order.{all_kinds, kinds_from};

use crate::DayKind;
use std::iter::FusedIterator;
use std::marker::Model;

/// The iterator of [`all_kinds`], which contracts see as the list of the kinds left.
#[derive(Drop)]
pub struct Kinds {
    coming: Option<DayKind>,
}

impl Model for Kinds {
    ghost use Rattle.std.specs.Prelude.{List};
    ghost use Rattle.cs_civil.specs.Calendar.{Kind};
    ghost use Rattle.cs_civil.specs.Order.{kinds_from};

    ghost Value = { List Kind };

    ghost view = { λ a. kinds_from a.coming };
}

impl Iterator for Kinds {
    type Item = DayKind;

    ghost next_gives = { YieldsFirst (λ s. s) };

    ghost remaining = { item_count (λ s. s) };

    fn next(&mut self) -> Option<DayKind> {
        let kind = self.coming?;
        self.coming = kind.following();
        Some(kind)
    }
}

impl FusedIterator for Kinds {}

/// Returns all 2,562 kinds, by month, then day of the month, then weekday from Sunday.
#[tactic(auto, using(crate::proofs::Places::all_from_first, crate::proofs::Places::count_kinds))]
pub fn all_kinds() -> Kinds
    ensures value { result ≡ all_kinds }
    ensures count { length all_kinds ≡ 2_562 }
{
    Kinds {
        coming: Some(DayKind::default()),
    }
}
