ghost use Rattle.std.specs.Prelude.{◌≡◌, ◌≤◌, All, IfNone, IfOk, IfSome, List, false, map};
ghost use Rattle.std.specs.List.{list_any};
ghost use Rattle.cs_theorem.specs.Faults.{used_stretches};
ghost use Rattle.cs_classes.specs.ByClasses.{LeadTo};
ghost use Rattle.cs_classes.specs.Claim.{as_certificate};
ghost use Rattle.cs_classes.specs.Said.{said};
ghost use Rattle.cs_classes.specs.Used.{IsInUse, IsOneOf, has_classes, seen, shown};
ghost use Rattle.cs_classes.specs.declared.classed.ClassedChain.{ClassedChain};

use crate::by_classes::{ByClasses, by_classes, chain_with};
use crate::chain::{Chain, copy_of};
use crate::claim::{Claim, JudgedStretch};
use crate::classed::classed_chains;
use cs_windows::MinuteTree;
use std::alloc::{AllocError, Global};

/// A stretch of a certificate whose classes some successive days have.
#[derive(Drop)]
pub struct UsedStretch<'a> {
    /// The classes of its days, eldest first.
    pub of: &'a [u32],

    /// The windows of its last day, where the certificate lists them.
    pub tree: Option<&'a MinuteTree>,

    /// Kinds of successive days that have its classes.
    pub kinds: Chain,
}

fn used_by<'a>(chains: &ByClasses<'_>, stretch: JudgedStretch<'a>) -> Option<UsedStretch<'a>>
    ensures used { (listed : List ClassedChain) → LeadTo listed chains.now
        → IfSome result (λ u. (seen u ≡ shown stretch.entry)
        × IsOneOf listed stretch.entry.of.now u.kinds.items) }
    ensures unused { (listed : List ClassedChain) → LeadTo listed chains.now
        → IfNone result (list_any (has_classes stretch.entry.of.now) listed ≡ false) }
{
    let chain = chain_with(chains, stretch.of)?;
    Some(UsedStretch {
        of: stretch.of,
        tree: stretch.tree,
        kinds: copy_of(&chain.kinds),
    })
}

/// Returns the stretches of this many days whose classes some successive days have, in the
/// certificate's order. The only error is out of memory.
pub fn used_stretches<'a>(
    alloc: Global,
    claim: &Claim<'a>,
    days: u8,
) -> Result<Vec<UsedStretch<'a>>, AllocError>
    requires { (1 ≤ days) × (days ≤ 4) }
    ensures listed { IfOk result (λ used.
        map seen used.items
        ≡ used_stretches (as_certificate (said claim.now)) days) }
    ensures in_use { IfOk result (λ used. All (IsInUse (said claim.now) days) used.items) }
{
    let listed = classed_chains(alloc, claim.kinds(), days)?;
    let chains = by_classes(alloc, listed.as_slice())?;
    let mut used = Vec::new(alloc);
    for number in 0..claim.count() {
        if let Some(found) = used_by(&chains, claim.stretch(number)) {
            used.push(found)?;
        }
    }
    Ok(used)
}
