//! Shows from both sides where the definitions begin and end.
ghost use Rattle.std.specs.Prelude.{◌≡◌, ◌≢◌, ◌+◌, ◌-◌, ◌≤◌, ℕ, Bool, [], ◌∷◌, false};
ghost use Rattle.cs_history.specs.Boundaries.{RunTogether, RunsAlone, at_one_lock, both_unlocked};
ghost use Rattle.cs_history.specs.Boundaries.{in_a_queue, last_first, newcomer, over_at, unlocked};
ghost use Rattle.cs_history.specs.Calm.{IsCalm};
ghost use Rattle.cs_history.specs.Examples.{at, start};
ghost use Rattle.cs_history.specs.History.{History, IsInTime, IsLegal, IsSafe, IsSafeNow};
ghost use Rattle.cs_history.specs.History.{going, is_free, run_of, running, waiting, ◌▸◌};
ghost use Rattle.cs_history.specs.Plan.{IsPlan, Plan};
ghost use Rattle.cs_history.specs.declared.event.Event.TheVariants.{Begin, Minute, Up};
ghost use Rattle.cs_history.specs.declared.mode.Mode.TheVariants.{Shared, Skip, Try};
ghost use Rattle.cs_history.specs.declared.run.Going.{Going};

/// Lemma. A history may start at 1970-01-04 00:00 and at 9999-12-31 23:59, up or down, but not in
/// the minute before the one or after the other.
pub fn first_and_last_start()
    ensures first { (p : Plan) (up : Bool) → IsLegal p (start 4320 up []) }
    ensures before { (p : Plan) (up : Bool) → IsLegal p (start 4319 up []) → ⊥ }
    ensures last { (p : Plan) (up : Bool) → IsLegal p (start 4223371679 up []) }
    ensures after { (p : Plan) (up : Bool) → IsLegal p (start 4223371680 up []) → ⊥ }
{}

/// Lemma. A run of at most `max` minutes is in time `max - 1` minutes after its start, and late
/// `max` minutes after it, whether the clock goes on to that minute or the daemon comes up in it.
pub fn last_minute_of_a_run()
    ensures minute { (p : Plan) (h : History) (r : Going) → RunsAlone p h r
        → IsInTime p (h ▸ Minute (over_at p r - 1)) }
    ensures late { (p : Plan) (h : History) (r : Going) → RunsAlone p h r
        → IsInTime p (h ▸ Minute (over_at p r)) → ⊥ }
    ensures up { (p : Plan) (h : History) (r : Going) → RunsAlone p h r
        → IsInTime p (h ▸ Up (over_at p r - 1)) }
    ensures late_up { (p : Plan) (h : History) (r : Going) → RunsAlone p h r
        → IsInTime p (h ▸ Up (over_at p r)) → ⊥ }
{}

/// Lemma. A run that shares the lock of an exclusive group is unsafe together with one of another
/// mode of that group; two that share it aren't.
pub fn sharers_beside_others()
    ensures first { (p : Plan) (h : History) (r q : Going) → RunTogether p h r q
        → p.mode r.run.job ≡ Shared → p.mode q.run.job ≢ Shared → IsSafeNow p h → ⊥ }
    ensures second { (p : Plan) (h : History) (r q : Going) → RunTogether p h r q
        → p.mode r.run.job ≢ Shared → p.mode q.run.job ≡ Shared → IsSafeNow p h → ⊥ }
    ensures both { (p : Plan) (h : History) (r q : Going) → RunTogether p h r q
        → p.mode r.run.job ≡ Shared → p.mode q.run.job ≡ Shared
        → p.weight r.run.job + p.weight q.run.job ≤ p.capacity → IsSafeNow p h }
{}

/// Lemma. A run that finds its lock held and is skipped makes a history unsafe in mode skip, and
/// doesn't in mode try.
pub fn only_skip_promises()
    ensures skip { (p : Plan) (h : History) (j : ℕ) → p.mode j ≡ Skip
        → is_free p (running p h) j ≡ false → IsSafe p (h ▸ Begin j) → ⊥ }
    ensures tried { (p : Plan) (h : History) (j : ℕ) → p.mode j ≡ Try
        → is_free p (running p h) j ≡ false → IsSafe p h → IsSafe p (h ▸ Begin j) }
{}

/// Lemma. A plan that isn't calm can have a history that is legal and in time, and not safe.
pub fn unsafe_history()
    ensures plan { IsPlan unlocked }
    ensures legal { IsLegal unlocked both_unlocked }
    ensures in_time { IsInTime unlocked both_unlocked }
    ensures broken { IsSafe unlocked both_unlocked → ⊥ }
    ensures not_calm { (c : ℕ → ℕ) → IsCalm unlocked c 4321 → ⊥ }
{}

/// Lemma. Waiting runs have no order (flock(1)): a newcomer may get the lock while another waits,
/// and of two that wait the later one may.
pub fn waiters_may_be_passed()
    ensures newcomer { IsLegal at_one_lock newcomer }
    ensures it_runs { running at_one_lock newcomer ≡ going 2 (at 60) (at 60) ∷ [] }
    ensures other_waits { waiting at_one_lock newcomer ≡ run_of 1 (at 60) ∷ [] }
    ensures later { IsLegal in_a_queue last_first }
    ensures later_runs { running in_a_queue last_first ≡ going 2 (at 60) (at 60) ∷ [] }
    ensures earlier_waits { waiting in_a_queue last_first ≡ run_of 1 (at 60) ∷ [] }
{}
