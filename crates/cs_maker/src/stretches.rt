ghost use Rattle.std.specs.Prelude.{◌≤◌};

use cs_civil::kind_number;
use cs_classes::{Chain, chains, stretch_length};
use cs_windows::Occupied;
use std::alloc::{AllocError, Global};
use std::collections::BTreeMap;

/// Stretches by the numbers of their days (profiles or classes), eldest first, with kinds of them.
pub(crate) type Stretches = BTreeMap<Vec<u16>, Chain>;

pub(crate) fn days_of(occupied: &[Occupied<'_>]) -> u8
    ensures { (1 ≤ result) × (result ≤ 4) }
{
    stretch_length(occupied).max(2).min(4)
}

/// The stretches of this many successive days, with this number for each kind of day.
pub(crate) fn stretches_by(
    alloc: Global,
    days: u8,
    by_kind: &[u16],
) -> Result<Stretches, AllocError>
    requires { (1 ≤ days) × (days ≤ 4) }
{
    let mut stretches = BTreeMap::new(alloc);
    for chain in chains(alloc, days)? {
        let mut numbers = Vec::new(alloc);
        for kind in chain.as_slice() {
            let number = by_kind.get(usize::from(kind_number(*kind)));
            numbers.push(number.copied().unwrap_or(0))?;
        }
        stretches.insert(numbers, chain)?;
    }
    Ok(stretches)
}
