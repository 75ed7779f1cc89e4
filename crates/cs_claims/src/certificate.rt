ghost use Rattle.std.specs.Prelude.{◌≡◌, None};
ghost use Rattle.cs_claims.specs.Content.{content_of};
ghost use Rattle.cs_claims.specs.Rules.{fault_of};

use crate::parts::Parts;

/// A certificate of version 1, 2 or 3. Every value keeps every rule of its version.
///
/// Version 3 claims only which kinds of days are alike, what is left over at midnight, and the
/// reaches; the checker works out the rest from the plan.
#[derive(Drop)]
pub struct Certificate {
    pub(crate) parts: Parts,
    ghost kept: { fault_of (content_of parts) ≡ None },
}
