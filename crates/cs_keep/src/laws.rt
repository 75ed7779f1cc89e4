//! Laws of ticks and of kept journals, for every plan and state.
ghost use Rattle.std.specs.Prelude.{◌≡◌, ◌≤◌, ◌&&◌, false, length, not};
ghost use Rattle.cs_history.specs.History.{IsInTime};
ghost use Rattle.cs_history.specs.Journal.{told};
ghost use Rattle.cs_history.specs.Lists.{EachPair, total};
ghost use Rattle.cs_history.specs.Plan.{both_share, rivals};
ghost use Rattle.cs_keep.specs.Keeping.{IsFewInTime, IsKept, IsSafeInTime, Keeping, plan_of};
ghost use Rattle.cs_keep.specs.Tick.{ChoicesRunOut};

/// Lemma. A tick makes the first choice of a kind (begins and lock grants, or catch-ups) until none
/// is left: its limit on their number is high enough.
pub fn choices_run_out()
    ensures { ChoicesRunOut }
{}

/// Lemma. If each run of a kept journal has ended within its declared time, no two running runs
/// belong to one exclusive group unless both share its lock; they weigh at most the capacity
/// together, and are no more than it.
#[tactic(auto, using(crate::proofs::Promises::apart, crate::proofs::Promises::light))]
pub fn what_a_keep_promises()
    ensures apart { (k : Keeping) → IsKept k → IsSafeInTime k
        → IsInTime (plan_of k) (told k.base k.journal) → EachPair (λ r q.
        (rivals (plan_of k) q.run.job r.run.job && not (both_share (plan_of k) q.run.job r.run.job))
        ≡ false) k.core.state.running }
    ensures light { (k : Keeping) → IsKept k → IsSafeInTime k
        → IsInTime (plan_of k) (told k.base k.journal)
        → total (λ r. (plan_of k).weight r.run.job) k.core.state.running ≤ (plan_of k).capacity }
    ensures few { (k : Keeping) → IsFewInTime k → IsInTime (plan_of k) (told k.base k.journal)
        → length k.core.state.running ≤ (plan_of k).capacity }
{}
