ghost use Rattle.std.specs.Prelude.{ℕ, ◌≡◌, ◌≤◌, ◌<◌, ◌+◌, ◌*◌, ◌/◌, Bool, true, List, map, Contains, ◌↔◌, None};
ghost use Rattle.cs_civil.specs.Calendar.{Kind};
ghost use Rattle.cs_history.specs.declared.run.Run.{Run};
ghost use Rattle.cs_history.specs.Plan.{Plan, IsPlan, IsReached};
ghost use Rattle.cs_history.specs.History.{History, IsLegal, IsInTime, IsSafe};
ghost use Rattle.cs_history.specs.Calm.{Holds, IsCalm, IsBounded};
ghost use Rattle.cs_windows.specs.declared.window.Window.{Window};
ghost use Rattle.cs_theorem.specs.Windows.{holders};
ghost use Rattle.cs_theorem.specs.Certificate.{Certificate};
ghost use Rattle.cs_theorem.specs.Accepted.{IsAccepted, IsByKind, IsLength, reach_in, bound_on, windows_on_days, run_at, window_on, IsModest, IsChain, IsUsed, occupied, windows_of};
ghost use Rattle.cs_theorem.specs.Ending.{EndsOn};
ghost use Rattle.cs_theorem.specs.Example.{at_midnight, nightly_certificate};
ghost use Rattle.cs_theorem.specs.Nightly.{nightly};
ghost use Rattle.cs_civil.specs.Calendar.{IsKind};
ghost use Rattle.cs_windows.specs.Windows.{windows_on};
ghost use Rattle.cs_history.specs.Plan.{is_cron};
ghost use Rattle.cs_theorem.specs.Faults.{first_fault, last_of, stretch_length};

/// Lemma. The windows of the stretch that ends on day d that hold its minute m are exactly those
/// that hold the civil minute.
pub fn windows_are_exact()
    ensures all { (p : Plan) (on : ℕ → Kind → ℕ → Bool) (a : Certificate) (n d m first : ℕ)
        (r : Run) → IsPlan p → IsByKind p on → IsLength p on (reach_in p a) n
        → IsAccepted p on a n → m < 1440 → d + 1 ≡ first + n
        → Holds p (reach_in p a) (1440 * d + m) r
        → Contains (holders m (windows_on_days p a first n)) (window_on p (reach_in p a) d r) }
    ensures only { (p : Plan) (on : ℕ → Kind → ℕ → Bool) (a : Certificate) (n d m first : ℕ)
        → (w : Window) → IsPlan p → IsByKind p on → IsLength p on (reach_in p a) n
        → IsAccepted p on a n → m < 1440 → d + 1 ≡ first + n
        → Contains (holders m (windows_on_days p a first n)) w
        → Holds p (reach_in p a) (1440 * d + m) (run_at d w) }
{}

/// Lemma. If a certificate is accepted, each minute that a history may reach is calm, and the work
/// of each group with a job that waits is bounded.
pub fn accepted_is_calm()
    ensures calm { (p : Plan) (on : ℕ → Kind → ℕ → Bool) (a : Certificate) (n : ℕ) → IsPlan p
        → IsByKind p on → IsLength p on (reach_in p a) n → IsAccepted p on a n → (t : ℕ)
        → IsReached t → IsCalm p (reach_in p a) t }
    ensures bounded { (p : Plan) (on : ℕ → Kind → ℕ → Bool) (a : Certificate) (n : ℕ) → IsPlan p
        → IsByKind p on → IsLength p on (reach_in p a) n → IsAccepted p on a n
        → IsBounded p (reach_in p a) (bound_on a) }
{}

/// Lemma. If a certificate is accepted, every legal history in which each run ends within its
/// declared time is safe: no two runs of an exclusive group run at once unless both hold its lock
/// shared, the weights are within the capacity, and no due minute of a skip job is skipped.
pub fn accepted_is_safe()
    ensures { (p : Plan) (on : ℕ → Kind → ℕ → Bool) (a : Certificate) (n : ℕ) (h : History)
        → IsPlan p → IsByKind p on → IsLength p on (reach_in p a) n → IsAccepted p on a n
        → IsLegal p h → IsInTime p h → IsSafe p h }
{}

/// Lemma. A certificate is accepted exactly if no fault is found, and stretches are long enough.
pub fn no_fault_is_accepted()
    ensures faults { (p : Plan) (on : ℕ → Kind → ℕ → Bool) (a : Certificate) (n : ℕ) → IsPlan p
        → 1 ≤ n → (first_fault p on a n ≡ None) ↔ IsAccepted p on a n }
    ensures length { (p : Plan) (on : ℕ → Kind → ℕ → Bool) (c : ℕ → ℕ) → IsPlan p → IsModest p c
        → IsLength p on c (stretch_length p on c) }
{}

/// Lemma. If classes have their kinds' due minutes, successive kinds have their classes' windows.
pub fn classes_have_the_windows_of_kinds()
    ensures { (p : Plan) (on : ℕ → Kind → ℕ → Bool) (a : Certificate) (ks : List Kind)
        → ((k : Kind) → IsKind k → (j m : ℕ) → is_cron p j ≡ true → m < 1440
        → a.due (a.class_of k) j m ≡ on j k m) → IsChain ks
        → windows_on (occupied p on (reach_in p a)) ks ≡ windows_of p a (map a.class_of ks) }
{}

/// Lemma. The day in the text of a fault ends such days: each chain of up to four kinds occurs
/// within the first 28 years.
#[tactic(auto, using(crate::proofs::Coming::last_ends))]
pub fn named_days_end_stretches()
    ensures { (a : Certificate) (n : ℕ) (s : List ℕ) → 1 ≤ n → n ≤ 4 → IsUsed a n s
        → EndsOn a n s (last_of a n s) }
{}

/// Lemma. A plan and a certificate can meet the premises, here with a job that waits.
pub fn some_are_accepted()
    ensures plan { IsPlan nightly }
    ensures kinds { IsByKind nightly at_midnight }
    ensures length { IsLength nightly at_midnight (reach_in nightly nightly_certificate) 2 }
    ensures accepted { IsAccepted nightly at_midnight nightly_certificate 2 }
{}
