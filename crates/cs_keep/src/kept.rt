//! What a closed keep leaves.
ghost use Rattle.std.specs.Prelude.{◌≡◌};
ghost use Rattle.cs_check.specs.Checked.{plan_in};

use crate::journaled_core::JournaledCore;
use cs_check::Checked;

/// The journal and the core of a closed keep, with what was checked. Only
/// [`Keep::close`](crate::Keep::close) makes one.
#[derive(Drop)]
pub struct Kept {
    pub(crate) checked: Checked,
    pub(crate) journaled: JournaledCore,
    ghost plan: { plan_in checked ≡ journaled.core.plan },
}
