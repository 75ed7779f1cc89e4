ghost use Rattle.std.specs.Prelude.{◌≡◌};
ghost use Rattle.cs_claims.specs.Certificate.{content};
ghost use Rattle.cs_check.specs.Case.{IsAcceptedWith, reach_for};
ghost use Rattle.cs_check.specs.Checked.{AreFew, IsCalmThroughout, IsHeadline, StayInWindows, certificate_in, plan_in};
ghost use Rattle.cs_plan.specs.Plan.{as_plan};

use crate::checked::Checked;
use crate::checking::look_at;
use cs_claims::Certificate;
use cs_plan::Plan;

impl Checked {
    /// Returns the plan.
    pub fn plan(&self) -> &Plan
        ensures { result.now ≡ plan_in self.now }
    {
        &self.plan
    }

    /// Returns the certificate.
    pub fn certificate(&self) -> &Certificate
        ensures { content result.now ≡ certificate_in self.now }
    {
        &self.certificate
    }

    /// Lemma. An accepted plan is safe.
    pub fn is_safe(&self)
        ensures rules { IsAcceptedWith (plan_in self.now) (certificate_in self.now) }
        ensures calm { IsCalmThroughout (as_plan (plan_in self.now))
            (reach_for (plan_in self.now) (certificate_in self.now)) }
        ensures windows { StayInWindows (as_plan (plan_in self.now))
            (reach_for (plan_in self.now) (certificate_in self.now)) }
        ensures headline { IsHeadline (as_plan (plan_in self.now)) }
        // There are at most as many runs at once as the capacity, since each weighs at least 1.
        ensures few { AreFew (as_plan (plan_in self.now)) }
    {
        look_at(&self.plan, &self.certificate);
    }
}
