ghost use Rattle.std.specs.Iterator.{YieldsFirst, item_count};

use cs_history::{Going, Run};
use indexmap::map::Iter;
use std::marker::Model;

/// The runs of a roster, in the order in which they came.
#[derive(Drop)]
pub struct Runs<'a> {
    pub(crate) entries: Iter<'a, Run, Option<u64>>,
}

impl<'a> Model for Runs<'a> {
    ghost use Rattle.std.specs.Prelude.{List};
    ghost use Rattle.cs_history.specs.declared.run.Going.{Going};
    ghost use Rattle.cs_roster.specs.Roster.{still};

    ghost Value = { List Going };

    ghost view = { λ r. still r.entries };
}

impl<'a> Iterator for Runs<'a> {
    type Item = Going;

    ghost next_gives = { YieldsFirst (λ runs. runs) };

    ghost remaining = { item_count (λ runs. runs) };

    #[tactic(auto, using(crate::proofs::Marks::first_there, crate::proofs::Marks::first_left))]
    fn next(&mut self) -> Option<Going> {
        while let Some((run, since)) = self.entries.next() {
            if let Some(since) = *since {
                return Some(Going { run: *run, since });
            }
        }
        None
    }
}
