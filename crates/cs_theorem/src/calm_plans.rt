ghost use Rattle.std.specs.Prelude.{ℕ, ◌≡◌, ◌≤◌, List, length, IsTrue};
ghost use Rattle.std.specs.List.{AllByRecursion, list_any};
ghost use Rattle.cs_history.specs.Calm.{AreDifferent, Holds, IsBounded, IsCalm, load, window_of};
ghost use Rattle.cs_history.specs.History.{History, IsInTime, IsLegal, IsSafe, now, running, same_run};
ghost use Rattle.cs_history.specs.Plan.{IsPlan, IsReached, Plan};
ghost use Rattle.cs_history.specs.declared.run.Run.{Run};
ghost use Rattle.cs_theorem.specs.Nightly.{nightly, nightly_backlog, nightly_reach};

/// Lemma. In every legal history in which each run ends within its declared time, each running run
/// is in its window. That of a job that waits for its lock lasts the reach that bounds its backlog;
/// that of a catch-up run is the catch-up window of its day.
pub fn runs_stay_in_their_windows()
    ensures { (p : Plan) (c : ℕ → ℕ) (b : ℕ → ℕ → ℕ) (h : History) → IsPlan p → IsBounded p c b
        → IsLegal p h → IsInTime p h
        → AllByRecursion (λ r. Holds p c (now h) (window_of p r)) (running p h) }
{}

/// Lemma. If each minute is calm and the backlog is bounded, every such history is safe.
pub fn calm_plans_are_safe()
    ensures { (p : Plan) (c : ℕ → ℕ) (b : ℕ → ℕ → ℕ) (h : History) → IsPlan p → IsBounded p c b
        → ((t : ℕ) → IsReached t → IsCalm p c t) → IsLegal p h → IsInTime p h → IsSafe p h }
{}

/// Lemma. In such a history there are never more runs at once than the capacity.
pub fn few_runs()
    ensures { (p : Plan) (c : ℕ → ℕ) (b : ℕ → ℕ → ℕ) (h : History) → IsPlan p → IsBounded p c b
        → ((t : ℕ) → IsReached t → IsCalm p c t) → IsLegal p h → IsInTime p h
        → length (running p h) ≤ p.capacity }
{}

/// Lemma. Different windows weigh no more than a list that holds each of them.
pub fn windows_that_are_listed()
    ensures { (p : Plan) (ws all : List Run) → AreDifferent ws
        → AllByRecursion (λ w. IsTrue (list_any (same_run w) all)) ws → load p ws ≤ load p all }
{}

/// Lemma. A plan can meet the premises of these laws, here one with a job that waits for its lock.
pub fn premises_can_be_met()
    ensures plan { IsPlan nightly }
    ensures bounded { IsBounded nightly nightly_reach nightly_backlog }
    ensures calm { (t : ℕ) → IsReached t → IsCalm nightly nightly_reach t }
{}
