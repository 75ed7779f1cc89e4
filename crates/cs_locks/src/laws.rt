ghost use Rattle.std.specs.Prelude.{◌≡◌, ◌-◌, ◌<◌, ◌^◌, ℕ, List, Some, length, not, map, true};
ghost use Rattle.std.specs.List.{list_any};
ghost use Rattle.cs_history.specs.History.{is_free};
ghost use Rattle.cs_history.specs.Plan.{Plan, in_the_way, takes_lock};
ghost use Rattle.cs_history.specs.declared.run.Going.{Going};
ghost use Rattle.cs_history.specs.declared.run.Run.{Run};
ghost use Rattle.cs_locks.specs.Locks.{Counts, HasRoom, IsCounted, bars, hold_of, takes};
ghost use Rattle.cs_locks.specs.declared.hold.Hold.{Hold};

/// Lemma. The holds of runs decide which of them keep a lock from which, and so whose lock is free.
pub fn holds_say_what_is_free()

    // a run is in the way of another if it keeps the lock from it
    ensures in_the_way { (p : Plan) (i j : ℕ)
        → in_the_way p i j ≡ bars (hold_of p i) (hold_of p j) }

    // so a lock is free if no running run keeps it
    ensures is_free { (p : Plan) (rs : List Going) (j : ℕ)
        → is_free p rs j ≡ not (list_any (bars (hold_of p j)) (map (λ r. hold_of p r.run.job) rs)) }

    // and a waiting run's lock is free if no running run keeps it from that one
    ensures one_is_free { (p : Plan) (rs : List Going) (ws : List Run)
        → list_any (λ w. is_free p rs w.job) ws
        ≡ list_any (λ w. not (list_any (bars w) (map (λ r. hold_of p r.run.job) rs)))
        (map (λ w. hold_of p w.job) ws) }

    // a table has room for one more run, unless it counts more than any machine has memory for
    ensures room { (hs : List Hold) (t : Counts)
        → length hs < 2 ^ 64 - 1 → IsCounted hs t → HasRoom t }

    // a job that takes the lock of its group holds one
    ensures takes { (p : Plan) (j g : ℕ)
        → takes_lock p j ≡ true → p.group j ≡ Some g → takes (hold_of p j) ≡ true }
{}
