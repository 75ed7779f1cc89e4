ghost use Rattle.std.specs.Prelude.{◌≡◌, ◌≤◌, IfOk, map};
ghost use Rattle.cs_daytree.specs.Tree.{class_in, tree_of};
ghost use Rattle.cs_classes.specs.Used.{AreClassed};

use crate::chain::{Chain, chains};
use arrayvec::ArrayVec;
use cs_daytree::DayTree;
use std::alloc::{AllocError, Global};

#[derive(Drop)]
pub(crate) struct ClassedChain {
    pub(crate) kinds: Chain,
    pub(crate) classes: ArrayVec<u32, 4>,
}

pub(crate) fn classes_of(tree: &DayTree, chain: &Chain) -> ArrayVec<u32, 4>
    ensures { result.items ≡ map (class_in (tree_of tree.now)) chain.now.items }
{
    let mut classes = ArrayVec::new();
    for kind in chain.as_slice() {
        classes.push(tree.class_of(*kind));
    }
    classes
}

pub(crate) fn classed_chains(
    alloc: Global,
    tree: &DayTree,
    days: u8,
) -> Result<Vec<ClassedChain>, AllocError>
    requires { (1 ≤ days) × (days ≤ 4) }
    ensures { IfOk result (λ classed. AreClassed (tree_of tree.now) days classed.items) }
{
    let mut classed = Vec::new(alloc);
    for kinds in chains(alloc, days)? {
        let classes = classes_of(tree, &kinds);
        classed.push(ClassedChain { kinds, classes })?;
    }
    Ok(classed)
}
