ghost use Rattle.std.specs.Prelude.{◌≡◌, ◌++◌, ◌∷◌, [], ℕ, List, Contains, IfNone, IfOk, IfSome, OnOk, false};
ghost use Rattle.std.specs.List.{list_any};
ghost use Rattle.cs_theorem.specs.Faults.{same_list};
ghost use Rattle.cs_classes.specs.ByClasses.{LeadTo, is_among};
ghost use Rattle.cs_classes.specs.Said.{said};
ghost use Rattle.cs_classes.specs.Used.{has_classes};
ghost use Rattle.cs_classes.specs.declared.classed.ClassedChain.{ClassedChain};

use crate::claim::Claim;
use crate::classed::ClassedChain;
use indexmap::{IndexMap, IndexSet};
use std::alloc::{AllocError, Global};

/// Chains by their classes: for each list of classes the first chain that has it.
pub(crate) type ByClasses<'a> = IndexMap<&'a [u32], &'a ClassedChain>;

pub(crate) fn chain_with<'a>(chains: &ByClasses<'a>, classes: &[u32]) -> Option<&'a ClassedChain>
    ensures found { (listed : List ClassedChain) → LeadTo listed chains.now
        → IfSome result (λ chain.
        Contains listed chain.now × (chain.now.classes.items ≡ classes.now)) }
    ensures none { (listed : List ClassedChain) → LeadTo listed chains.now
        → IfNone result (list_any (has_classes classes.now) listed ≡ false) }
{
    chains.get(classes).copied()
}

/// Adds a chain, unless one with its classes is there.
fn add<'a>(chains: &mut ByClasses<'a>, chain: &'a ClassedChain) -> Result<(), AllocError>
    ensures { (listed : List ClassedChain) → LeadTo listed chains.old
        → OnOk result (LeadTo (listed ++ chain.now ∷ []) chains.new) }
{
    let classes = chain.classes.as_slice();
    if chain_with(chains, classes).is_none() {
        chains.insert(classes, chain)?;
    }
    Ok(())
}

pub(crate) fn by_classes(
    alloc: Global,
    chains: &[ClassedChain],
) -> Result<ByClasses<'_>, AllocError>
    ensures { IfOk result (λ by. LeadTo chains.now by) }
{
    let mut by = IndexMap::new(alloc);
    for chain in chains {
        add(&mut by, chain)?;
    }
    Ok(by)
}

pub(crate) fn class_lists<'a>(
    alloc: Global,
    claim: &Claim<'a>,
) -> Result<IndexSet<&'a [u32]>, AllocError>
    ensures { IfOk result (λ lists. (classes : List ℕ) → is_among lists.keys classes
        ≡ list_any (λ s. same_list s.of classes) (said claim.now).stretches) }
{
    let mut lists = IndexSet::new(alloc);
    for number in 0..claim.count() {
        lists.insert(claim.stretch(number).of)?;
    }
    Ok(lists)
}
