ghost use Rattle.std.specs.Prelude.{◌≡◌, None};
ghost use Rattle.cs_theorem.specs.Faults.{leaf_fault, stretch_fault, used_stretches};
ghost use Rattle.cs_claims.specs.Content.{Content};
ghost use Rattle.cs_classes.specs.Claim.{as_certificate};
ghost use Rattle.cs_classes.specs.StandsFor.{claimed, days_for};
ghost use Rattle.cs_plan.specs.Plan.{Declared, as_plan};

/// Lemma. The stretches that a certificate of version 3 stands for are those that successive days
/// have, and list no windows: no fault of stretches or leaves is found in it.
pub fn stretches_of_version_3()
    ensures complete { (d : Declared) (c : Content) → c.version ≡ 3
        → stretch_fault (as_certificate (claimed d c)) (days_for d c) ≡ None }
    ensures used { (d : Declared) (c : Content) → c.version ≡ 3
        → used_stretches (as_certificate (claimed d c)) (days_for d c)
        ≡ (as_certificate (claimed d c)).stretches }
    ensures listed { (d : Declared) (c : Content) → c.version ≡ 3
        → leaf_fault (as_plan d) (as_certificate (claimed d c)) (days_for d c) ≡ None }
{}
