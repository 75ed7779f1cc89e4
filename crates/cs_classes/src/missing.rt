ghost use Rattle.std.specs.Prelude.{◌≡◌, ◌≤◌, IfOk, option_map};
ghost use Rattle.cs_theorem.specs.Faults.{stretch_fault};
ghost use Rattle.cs_classes.specs.Claim.{as_certificate};
ghost use Rattle.cs_classes.specs.ByClasses.{is_among};
ghost use Rattle.cs_classes.specs.Chains.{missing_chain};
ghost use Rattle.cs_classes.specs.Said.{said};

use crate::by_classes::class_lists;
use crate::chain::{Chain, chains};
use crate::claim::Claim;
use crate::classed::classes_of;
use indexmap::IndexSet;
use std::alloc::{AllocError, Global};

fn is_listed(lists: &IndexSet<&[u32]>, classes: &[u32]) -> bool
    ensures { result ≡ is_among lists.now.keys classes.now }
{
    lists.contains(classes)
}

/// Returns the first kinds of this many successive days, in the order of [`chains`](crate::chains),
/// whose classes no stretch of the certificate has. The only error is out of memory.
pub fn first_missing(
    alloc: Global,
    claim: &Claim<'_>,
    days: u8,
) -> Result<Option<Chain>, AllocError>
    requires { (1 ≤ days) × (days ≤ 4) }
    ensures { IfOk result (λ found.
        stretch_fault (as_certificate (said claim.now)) days ≡ option_map missing_chain found) }
{
    let lists = class_lists(alloc, claim)?;
    for chain in chains(alloc, days)? {
        let classes = classes_of(claim.kinds(), &chain);
        if !is_listed(&lists, classes.as_slice()) {
            return Ok(Some(chain));
        }
    }
    Ok(None)
}
