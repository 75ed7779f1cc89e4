ghost use Rattle.std.specs.Prelude.{◌≡◌, ◌+◌, ◌<◌, ◌≤◌, [], ◌∷◌, ◌++◌, IfOk, OnOk, length, map};
ghost use Rattle.cs_theorem.specs.Faults.{chains, chains_from};
ghost use Rattle.cs_classes.specs.Chains.{kinds_of};

use arrayvec::ArrayVec;
use cs_civil::{DayKind, all_kinds, next_kinds};
use std::alloc::{AllocError, Global};

/// The kinds of successive days, at most four, eldest first.
pub type Chain = ArrayVec<DayKind, 4>;

pub(crate) fn copy_of(chain: &Chain) -> Chain
    ensures { result.items ≡ chain.now.items }
{
    let mut copy = ArrayVec::new();
    for kind in chain.as_slice() {
        copy.push(*kind);
    }
    copy
}

fn longer(chain: &Chain, kind: DayKind) -> Chain
    requires { length chain.now.items < 4 }
    ensures { result.items ≡ chain.now.items ++ kind ∷ [] }
{
    let mut longer = copy_of(chain);
    longer.push(kind);
    longer
}

/// Adds the chains that begin with these kinds, then have this one, then `more` others.
fn add_chains(
    chains: &mut Vec<Chain>,
    begun: &Chain,
    kind: DayKind,
    more: u8,
) -> Result<(), AllocError>
    requires { length begun.now.items + more < 4 }
    ensures { OnOk result (map kinds_of chains.new.items
        ≡ map kinds_of chains.old.items
        ++ map (λ ks. begun.now.items ++ ks) (chains_from more kind)) }
{
    let chain = longer(begun, kind);
    if more == 0 {
        chains.push(chain)?;
        return Ok(());
    }
    let next = next_kinds(kind);
    for kind in next.as_slice() {
        add_chains(chains, &chain, *kind, more - 1)?;
    }
    Ok(())
}

/// Returns all chains of this many days, in the order of [`all_kinds`]. After 28 February come 29
/// February and 1 March. The only error is out of memory.
pub fn chains(alloc: Global, days: u8) -> Result<Vec<Chain>, AllocError>
    requires { (1 ≤ days) × (days ≤ 4) }
    ensures { IfOk result (λ listed. map kinds_of listed.items ≡ chains days) }
{
    let begun = ArrayVec::new();
    let mut listed = Vec::new(alloc);
    for kind in all_kinds() {
        add_chains(&mut listed, &begun, kind, days - 1)?;
    }
    Ok(listed)
}
