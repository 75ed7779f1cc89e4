ghost use Rattle.std.specs.Prelude.{◌≡◌, ℕ, ◌+◌, ◌<◌, ◌≤◌, true};
ghost use Rattle.std.specs.List.{AllByRecursion};
ghost use Rattle.cs_history.specs.Calm.{reach};
ghost use Rattle.cs_history.specs.History.{History, IsInTime, IsLegal, now, running};
ghost use Rattle.cs_history.specs.Plan.{Plan, is_cron};
ghost use Rattle.cs_check.specs.Checked.{StayInWindows};

/// Lemma. If runs stay in their windows, each running cron run was due at its minute, and has not
/// outlasted its window: its declared time, or what a run that waits for a lock may take.
#[tactic(auto, using(crate::proofs::Windows::within))]
pub fn what_windows_promise()
    ensures { (p : Plan) (c : ℕ → ℕ) → StayInWindows p c → (h : History) → IsLegal p h
        → IsInTime p h → AllByRecursion (λ r. is_cron p r.run.job ≡ true
        → (p.due r.run.job r.run.at ≡ true) × (r.run.at ≤ now h)
        × (now h < r.run.at + reach p c r.run.job)) (running p h) }
{}
