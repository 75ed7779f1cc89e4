ghost use Rattle.std.specs.Prelude.{◌≡◌, ◌↔◌, None};
ghost use Rattle.std.specs.Option.{ForSome};
ghost use Rattle.cs_history.specs.History.{History, IsSafe};
ghost use Rattle.cs_history.specs.Plan.{Plan};
ghost use Rattle.cs_counterexample.specs.Break.{first_break};
ghost use Rattle.cs_counterexample.specs.FirstBreak.{IsFirstBreak};

/// Lemma. A history breaks nothing if and only if it is safe; else its first break is that of its
/// first event that breaks something.
#[tactic(auto, using(crate::proofs::Safety::unbroken, crate::proofs::Firsts::first_is))]
pub fn first_breaks()
    ensures none { (p : Plan) (h : History) → (first_break p h ≡ None) ↔ IsSafe p h }

    // else the first break is that of the first event that breaks something: two runs before their
    // weight, and of several pairs that of the run that started first
    ensures first { (p : Plan) (h : History) → ForSome (first_break p h) (IsFirstBreak p h) }
{}
