ghost use Rattle.std.specs.Prelude.{◌≡◌, ℕ, List};
ghost use Rattle.cs_check.specs.Checked.{IsHeadline};
ghost use Rattle.cs_plan.specs.Plan.{Declared, as_plan};
ghost use Rattle.cs_place.specs.declared.places.Place.{Place};
ghost use Rattle.cs_judge.specs.Answer.{IsAnswer, IsStory};
ghost use Rattle.cs_judge.specs.Judged.{IsJudgement};
ghost use Rattle.cs_judge.specs.declared.answers.Outcome.{Outcome};
ghost use Rattle.cs_judge.specs.declared.answers.Outcome.TheVariants.{Safe, Unsafe};
ghost use Rattle.cs_judge.specs.declared.answers.Wanted.{Wanted};
ghost use Rattle.cs_judge.specs.declared.judged.Judged.{Judged};

/// Lemma. If what is known of a plan is true, the answer means what it says.
#[tactic(auto, using(crate::proofs::Outcomes::safe_stands, crate::proofs::Outcomes::unsafe_stands))]
pub fn outcomes_hold()

    // a `Safe` plan: every legal history in time is safe
    ensures safe { (wanted : Wanted) (plan : Declared) (places : List Place) (judged : Judged)
        (found : Outcome) (text : List ℕ) → IsJudgement plan judged
        → IsAnswer wanted plan places judged found text → found ≡ Safe → IsHeadline (as_plan plan) }

    // an `Unsafe` plan: the text is a counterexample
    ensures story { (wanted : Wanted) (plan : Declared) (places : List Place) (judged : Judged)
        (found : Outcome) (text : List ℕ) → IsJudgement plan judged
        → IsAnswer wanted plan places judged found text → found ≡ Unsafe
        → IsStory plan places text }
{}
