//! How much capacity a minute needs, by the kinds of the runs that meet in it.
ghost use Rattle.std.specs.Prelude.{[], ◌∷◌};
ghost use Rattle.cs_ruling.specs.Loads.{Need, locked, ungrouped, unlocked};
ghost use Rattle.cs_history.specs.declared.mode.Mode.TheVariants.{Shared, Skip, Try, Wait};

/// Lemma. How much capacity a minute needs to be calm, by the kinds of the jobs whose windows hold
/// it.
pub fn what_a_minute_needs()

    // jobs without a lock, in a group or in none: the sum of their weights
    ensures ungrouped { Need (ungrouped 1 ∷ ungrouped 2 ∷ []) [] 3 }
    ensures unlocked { Need (unlocked 0 1 ∷ unlocked 0 2 ∷ []) [] 3 }

    // jobs that hold the lock of their group alone: the greatest weight
    ensures waiting { Need (locked Wait 0 1 ∷ locked Wait 0 2 ∷ []) [] 2 }
    ensures trying { Need (locked Try 0 2 ∷ locked Try 0 1 ∷ []) [] 2 }
    ensures skipping { Need (locked Skip 0 2 ∷ []) [] 2 }

    // jobs that share it: the sum
    ensures sharing { Need (locked Shared 0 1 ∷ locked Shared 0 2 ∷ []) [] 3 }

    // both: the greater of the two
    ensures more_share { Need
        (locked Shared 0 1 ∷ locked Wait 0 2 ∷ locked Shared 0 2 ∷ []) [] 3 }
    ensures one_is_heavier { Need
        (locked Shared 0 1 ∷ locked Wait 0 4 ∷ locked Shared 0 2 ∷ []) [] 4 }

    // the locks of two groups: the sum of what each of them needs
    ensures two_locks { Need (locked Wait 0 1 ∷ locked Wait 1 2 ∷ []) [] 3 }

    // jobs of the anacrontab: the greatest weight
    ensures catch_up { Need [] (ungrouped 1 ∷ ungrouped 2 ∷ []) 2 }

    // all of these: 1 + 2, and 4 and 5 + 3 by the locks, and 16
    ensures together { Need
        (ungrouped 1 ∷ unlocked 0 2 ∷ locked Wait 0 4 ∷ locked Shared 0 3 ∷ locked Shared 1 5
        ∷ locked Shared 1 3 ∷ locked Wait 1 7 ∷ []) (unlocked 0 16 ∷ ungrouped 9 ∷ []) 31 }
{}
