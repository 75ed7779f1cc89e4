ghost use Rattle.std.specs.Prelude.{◌≡◌, None};
ghost use Rattle.cs_claims.specs.Certificate.{content};
ghost use Rattle.cs_check.specs.Case.{fault_of};

use cs_claims::Certificate;
use cs_plan::Plan;

/// A plan with a certificate that the checker has accepted. Only [`check`](crate::check) and
/// [`check_parallel`](crate::check_parallel) make one.
#[derive(Drop)]
pub struct Checked {
    pub(crate) plan: Plan,
    pub(crate) certificate: Certificate,
    ghost kept: { fault_of plan (content certificate) ≡ None },
}
