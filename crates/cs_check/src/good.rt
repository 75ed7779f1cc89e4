ghost use Rattle.std.specs.Prelude.{IfOk, IsTrue};
ghost use Rattle.cs_classes.specs.Said.{said};
ghost use Rattle.cs_classes.specs.Used.{IsInUse};
ghost use Rattle.cs_check.specs.Stretches.{IsCase, IsGoodIn};

use crate::case::Case;
use crate::{leaves, reaches, steps};
use cs_classes::UsedStretch;
use std::alloc::{AllocError, Global};

/// Whether a stretch in use is good by all rules that are checked stretch by stretch. If it isn't,
/// the finders decide whether it has a fault.
pub(crate) fn is_good(
    alloc: Global,
    case: &Case<'_>,
    used: &UsedStretch<'_>,
) -> Result<bool, AllocError>
    requires case { IsCase case.now }
    requires in_use { IsInUse (said case.now.claim.now) case.now.days used.now }
    ensures { IfOk result (λ good. IsTrue good → IsGoodIn case.now used.now) }
{
    if !steps::holds(case, used) {
        return Ok(false);
    }
    if !reaches::holds(case, used) {
        return Ok(false);
    }
    let windows = case.windows(alloc, used)?;
    if !leaves::holds(used, windows.as_slice()) {
        return Ok(false);
    }
    let quiet = case.roles.quiet(alloc, windows.as_slice())?;
    Ok(quiet.by_all())
}
