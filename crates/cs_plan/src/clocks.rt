ghost use Rattle.std.specs.Prelude.{◌≡◌, IfOk};

use cs_civil::Bytes;
use std::alloc::{AllocError, Global};

/// The names of the two clocks of a zone (POSIX, TZ), each 3 to 15 ASCII letters, digits, `+` and
/// `-`. They are the same if the zone has no summer time.
#[derive(Debug, PartialEq, Eq, Drop)]
pub struct ClockNames {
    /// That of the plan's clock, which the zone shows on 28 February, as `CET`.
    pub plan: Bytes,
    /// That of the clock by which the zone goes in the other part of the year, as `CEST`.
    pub other: Bytes,
}

pub(crate) fn copy_clocks(
    alloc: Global,
    clocks: &Option<ClockNames>,
) -> Result<Option<ClockNames>, AllocError>
    ensures { IfOk result (λ copy. copy ≡ clocks.now) }
{
    match clocks {
        Some(clocks) => Ok(Some(ClockNames {
            plan: Bytes::from_slice(alloc, clocks.plan.as_slice())?,
            other: Bytes::from_slice(alloc, clocks.other.as_slice())?,
        })),
        None => Ok(None),
    }
}
