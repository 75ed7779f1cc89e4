ghost use Rattle.std.specs.Prelude.{◌≡◌, ℕ, ◌+◌, [], ◌∷◌, true, false, None, Some};
ghost use Rattle.cs_history.specs.Calm.{Holds, IsCalm, load};
ghost use Rattle.cs_history.specs.Examples.{Refused, Said, all_begin, answers, at, at_of, at_one, beside_catch_up, both_at_midnight, catching, fives, heavy, held_lock, hourly, midnights, nights, over_outage, plan_of, sharing, skipping, spring, start, story, sundays};
ghost use Rattle.cs_history.specs.History.{IsInTime, IsLegal, IsSafe, going, run_of, ◌▸◌};
ghost use Rattle.cs_history.specs.Step.{state_of};
ghost use Rattle.cs_history.specs.declared.event.Event.TheVariants.{Begin, Catch, Down, End, Got, Minute, Up};
ghost use Rattle.cs_history.specs.declared.mode.Mode.TheVariants.{Plain, Shared, Skip, Try, Wait};
ghost use Rattle.cs_history.specs.declared.refusal.Refusal.TheVariants.{AlreadyUp, LockHeld, NotCatchable, NotDue, NotRunning, NotSettled, NotUp, NotWaiting, OutOfRange, WrongMinute};
ghost use Rattle.cs_history.specs.declared.reply.Reply.TheVariants.{Came, Clock, Ended, Skipped, Started, Waiting, Went};

/// Lemma. Worked examples: minutes, outages and the range of minutes.
pub fn clock_and_outages()

    // a job that is due has to begin before the clock may move on
    ensures settled { answers (hourly (0 ∷ []) [] (1440 ∷ [])) (start (at 59) true [])
        (Minute (at 60) ∷ Minute (at 61) ∷ Begin 0 ∷ Begin 0 ∷ Minute (at 61) ∷ [])
        ≡ Said Clock ∷ Refused NotSettled ∷ Said (Started (run_of 0 (at 60))) ∷ Refused NotDue
        ∷ Said Clock ∷ [] }

    // its run ends in time while less than its declared time has passed
    ensures late { answers (hourly (0 ∷ []) [] (1 ∷ [])) (start (at 59) true [])
        (Minute (at 60) ∷ Begin 0 ∷ Minute (at 61) ∷ End (run_of 0 (at 60)) ∷ [])
        ≡ Said Clock ∷ Said (Started (run_of 0 (at 60))) ∷ Said Clock ∷ Said (Ended false) ∷ [] }

    // a run goes on when the daemon goes down and comes up
    ensures outage { let h = story (hourly (0 ∷ []) [] (60 ∷ [])) (start (at 50) false [])
        (Up (at 59) ∷ Minute (at 60) ∷ Begin 0 ∷ Down ∷ Up (at 70) ∷ []) in
        state_of (hourly (0 ∷ []) [] (60 ∷ [])) h
        ≡ record {
          now = at 70;
          up = true;
          pending = [];
          waiting = [];
          running = going 0 (at 60) (at 60) ∷ [];
          stamps = [];
          pass = None;
        } }

    // a run may end while the daemon is down, once
    ensures ended { answers (hourly (0 ∷ []) [] (60 ∷ [])) (start (at 50) false [])
        (Up (at 59) ∷ Minute (at 60) ∷ Begin 0 ∷ Down ∷ End (run_of 0 (at 60))
        ∷ End (run_of 0 (at 60)) ∷ [])
        ≡ Said Came ∷ Said Clock ∷ Said (Started (run_of 0 (at 60))) ∷ Said Went ∷ Said (Ended true)
        ∷ Refused NotRunning ∷ [] }

    // while down most events are refused, and so is a job due in the minute of coming up
    ensures down_refuses { answers (hourly (0 ∷ []) [] []) (start (at 59) false [])
        (Minute (at 60) ∷ Down ∷ Begin 0 ∷ Got 0 (at 59) ∷ Catch 0 ∷ Up (at 58) ∷ Up 1439
        ∷ Up (at 60) ∷ Up (at 60) ∷ Begin 0 ∷ Minute (at 62) ∷ [])
        ≡ Refused NotUp ∷ Refused NotUp ∷ Refused NotUp ∷ Refused NotUp ∷ Refused NotUp
        ∷ Refused WrongMinute ∷ Refused OutOfRange ∷ Said Came ∷ Refused AlreadyUp ∷ Refused NotDue
        ∷ Refused WrongMinute ∷ [] }

    // what was pending is lost on going down
    ensures down_first { answers (hourly (0 ∷ []) [] []) (start (at 59) true [])
        (Minute 1439 ∷ Minute (at 59) ∷ Got 0 (at 60) ∷ Minute (at 60) ∷ Down ∷ Up (at 60) ∷ Begin 0
        ∷ Minute (at 61) ∷ [])
        ≡ Refused OutOfRange ∷ Refused WrongMinute ∷ Refused NotWaiting ∷ Said Clock ∷ Said Went
        ∷ Said Came ∷ Refused NotDue ∷ Said Clock ∷ [] }

    // a wrong minute is refused before an unsettled one
    ensures wrong_minute_first { answers (hourly (0 ∷ []) [] []) (start (at 59) true [])
        (Minute (at 60) ∷ Minute (at 62) ∷ Minute (at 60) ∷ Minute (at 61) ∷ [])
        ≡ Said Clock ∷ Refused WrongMinute ∷ Refused WrongMinute ∷ Refused NotSettled ∷ [] }

    // nothing comes after 9999-12-31 23:59
    ensures last_minute { answers (hourly (0 ∷ []) [] []) (start 4223371679 true [])
        (Minute 4223371680 ∷ Down ∷ Up 4223371680 ∷ Up 4223371679 ∷ [])
        ≡ Refused OutOfRange ∷ Said Went ∷ Refused OutOfRange ∷ Said Came ∷ [] }

    // minutes before 1970-01-02 are out of range, later ones only wrong
    ensures range_stays { answers (hourly (0 ∷ []) [] []) (start (at 59) true [])
        (Minute 1439 ∷ Minute 1440 ∷ Down ∷ Up 1439 ∷ Up 1440 ∷ [])
        ≡ Refused OutOfRange ∷ Refused WrongMinute ∷ Said Went ∷ Refused OutOfRange
        ∷ Refused WrongMinute ∷ [] }
{}

/// Lemma. Worked examples: locks, as in flock(1).
pub fn locks_and_waiting()

    // one waits for the other, and the clock waits for the one that could go on
    ensures locks { answers (hourly (0 ∷ 0 ∷ []) (Wait ∷ Wait ∷ []) (20 ∷ 20 ∷ []))
        (start (at 59) true [])
        (Minute (at 60) ∷ Begin 1 ∷ Begin 0 ∷ Got 0 (at 60) ∷ End (run_of 1 (at 60))
        ∷ Minute (at 61) ∷ Got 0 (at 60) ∷ Minute (at 61) ∷ [])
        ≡ Said Clock ∷ Said (Started (run_of 1 (at 60))) ∷ Said Waiting ∷ Refused LockHeld
        ∷ Said (Ended true) ∷ Refused NotSettled ∷ Said (Started (run_of 0 (at 60))) ∷ Said Clock
        ∷ [] }

    // with -n a job is skipped
    ensures skips { answers (hourly (0 ∷ 0 ∷ []) (Skip ∷ Wait ∷ []) (20 ∷ 20 ∷ []))
        (start (at 59) true []) (Minute (at 60) ∷ Begin 1 ∷ Begin 0 ∷ Got 0 (at 60) ∷ [])
        ≡ Said Clock ∷ Said (Started (run_of 1 (at 60))) ∷ Said Skipped ∷ Refused NotWaiting ∷ [] }

    // a later waiter may get the lock first, and going down ends the waiting
    ensures passes_by { answers (hourly (0 ∷ 0 ∷ 0 ∷ []) (Wait ∷ Wait ∷ Wait ∷ [])
        (20 ∷ 20 ∷ 20 ∷ [])) (start (at 59) true [])
        (Minute (at 60) ∷ Begin 0 ∷ Begin 1 ∷ Begin 2 ∷ End (run_of 0 (at 60)) ∷ Got 2 (at 60)
        ∷ Got 1 (at 60) ∷ Down ∷ Up (at 60) ∷ End (run_of 2 (at 60)) ∷ Got 1 (at 60) ∷ [])
        ≡ Said Clock ∷ Said (Started (run_of 0 (at 60))) ∷ Said Waiting ∷ Said Waiting
        ∷ Said (Ended true) ∷ Said (Started (run_of 2 (at 60))) ∷ Refused LockHeld ∷ Said Went
        ∷ Said Came ∷ Said (Ended true) ∷ Refused NotWaiting ∷ [] }

    // a job that begins while the lock is free passes one that waits for it, which waits on
    ensures newcomer { answers (hourly (0 ∷ 0 ∷ 0 ∷ []) (Wait ∷ Wait ∷ Skip ∷ [])
        (20 ∷ 20 ∷ 20 ∷ [])) (start (at 59) true [])
        (Minute (at 60) ∷ Begin 0 ∷ Begin 1 ∷ End (run_of 0 (at 60)) ∷ Begin 2 ∷ Got 1 (at 60)
        ∷ Minute (at 61) ∷ [])
        ≡ Said Clock ∷ Said (Started (run_of 0 (at 60))) ∷ Said Waiting ∷ Said (Ended true)
        ∷ Said (Started (run_of 2 (at 60))) ∷ Refused LockHeld ∷ Said Clock ∷ [] }

    // two share while one waits
    ensures shares { answers (hourly (0 ∷ 0 ∷ 0 ∷ []) (Shared ∷ Shared ∷ Wait ∷ [])
        (20 ∷ 30 ∷ 10 ∷ [])) (start (at 59) true [])
        (Minute (at 60) ∷ Begin 0 ∷ Begin 1 ∷ Begin 2 ∷ End (run_of 0 (at 60)) ∷ Got 2 (at 60)
        ∷ End (run_of 1 (at 60)) ∷ Got 2 (at 60) ∷ [])
        ≡ Said Clock ∷ Said (Started (run_of 0 (at 60))) ∷ Said (Started (run_of 1 (at 60)))
        ∷ Said Waiting ∷ Said (Ended true) ∷ Refused LockHeld ∷ Said (Ended true)
        ∷ Said (Started (run_of 2 (at 60))) ∷ [] }

    // two that share wait for one that doesn't
    ensures shared_waits { answers (hourly (0 ∷ 0 ∷ 0 ∷ []) (Shared ∷ Shared ∷ Wait ∷ [])
        (20 ∷ 30 ∷ 10 ∷ [])) (start (at 59) true [])
        (Minute (at 60) ∷ Begin 2 ∷ Begin 0 ∷ Begin 1 ∷ End (run_of 2 (at 60)) ∷ Got 1 (at 60)
        ∷ Minute (at 61) ∷ Got 0 (at 60) ∷ Minute (at 61) ∷ [])
        ≡ Said Clock ∷ Said (Started (run_of 2 (at 60))) ∷ Said Waiting ∷ Said Waiting
        ∷ Said (Ended true) ∷ Said (Started (run_of 1 (at 60))) ∷ Refused NotSettled
        ∷ Said (Started (run_of 0 (at 60))) ∷ Said Clock ∷ [] }
{}

/// Lemma. Worked examples: passes and stamps, as in anacron(8) with -s.
pub fn passes_and_stamps()

    // not before its delay is over, and once a day
    ensures delays { answers (catching (1 ∷ []) 0 1440 None) (start (at 0) false (Some 19722 ∷ []))
        (Up (at 10) ∷ Catch 0 ∷ Minute (at 11) ∷ Catch 0 ∷ Catch 0 ∷ End (run_of 0 (at 11)) ∷ Down
        ∷ Up (at 11) ∷ Catch 0 ∷ [])
        ≡ Said Came ∷ Refused NotCatchable ∷ Said Clock ∷ Said (Started (run_of 0 (at 11)))
        ∷ Refused NotCatchable ∷ Said (Ended true) ∷ Said Went ∷ Said Came ∷ Refused NotCatchable
        ∷ [] }

    // the stamp is the day on which the run started
    ensures stamps { let h = story (catching (0 ∷ []) 0 1440 None) (start (at 1438) false [])
        (Up (at 1438) ∷ Catch 0 ∷ Minute (at 1439) ∷ Minute (at 1440) ∷ End (run_of 0 (at 1438))
        ∷ Down ∷ Up (at 1440) ∷ Catch 0 ∷ []) in
        state_of (catching (0 ∷ []) 0 1440 None) h
        ≡ record {
          now = at 1440;
          up = true;
          pending = [];
          waiting = [];
          running = going 0 (at 1440) (at 1440) ∷ [];
          stamps = Some 19723 ∷ [];
          pass = None;
        } }

    // a job with the day's stamp isn't in the pass
    ensures stamps_of_the_start { state_of (catching (0 ∷ 0 ∷ []) 0 1440 None)
        (story (catching (0 ∷ 0 ∷ []) 0 1440 None) (start (at 9) false (Some 19723 ∷ []))
        (Up (at 9) ∷ []))
        ≡ record {
          now = at 9;
          up = true;
          pending = [];
          waiting = [];
          running = [];
          stamps = Some 19723 ∷ None ∷ [];
          pass = Some (record { at = at 9; left = 1 ∷ [] });
        } }

    // a pass begins at the pass minute, but not at a start that is up
    ensures pass_minute { answers (catching (0 ∷ []) 0 1440 (Some 20)) (start (at 19) true [])
        (Catch 0 ∷ Minute (at 20) ∷ Catch 0 ∷ [])
        ≡ Refused NotCatchable ∷ Said Clock ∷ Said (Started (run_of 0 (at 20))) ∷ [] }

    // without a pass minute no pass begins at midnight
    ensures no_pass_minute { state_of (catching (0 ∷ []) 0 1440 None)
        (story (catching (0 ∷ []) 0 1440 None) (start (at 1439) true []) (Minute (at 1440) ∷ []))
        ≡ record {
          now = at 1440;
          up = true;
          pending = [];
          waiting = [];
          running = [];
          stamps = None ∷ [];
          pass = None;
        } }

    // the pass minute leaves an open pass as it is
    ensures pass_stays { answers (catching (5 ∷ []) 0 1440 (Some 20)) (start (at 19) false [])
        (Up (at 19) ∷ Minute (at 20) ∷ Minute (at 21) ∷ Minute (at 22) ∷ Minute (at 23) ∷ Catch 0
        ∷ Minute (at 24) ∷ Catch 0 ∷ [])
        ≡ Said Came ∷ Said Clock ∷ Said Clock ∷ Said Clock ∷ Said Clock ∷ Refused NotCatchable
        ∷ Said Clock ∷ Said (Started (run_of 0 (at 24))) ∷ [] }

    // by delay, one at a time, in the catch-up hours
    ensures one_by_one { answers (catching (2 ∷ 1 ∷ []) 11 13 None) (start (at 9) false [])
        (Up (at 9) ∷ Minute (at 10) ∷ Catch 1 ∷ Minute (at 11) ∷ Catch 0 ∷ Catch 1 ∷ Catch 0
        ∷ End (run_of 1 (at 11)) ∷ Minute (at 12) ∷ Minute (at 13) ∷ Catch 0 ∷ [])
        ≡ Said Came ∷ Said Clock ∷ Refused NotCatchable ∷ Said Clock ∷ Refused NotCatchable
        ∷ Said (Started (run_of 1 (at 11))) ∷ Refused NotCatchable ∷ Said (Ended true) ∷ Said Clock
        ∷ Said Clock ∷ Refused NotCatchable ∷ [] }

    // not before the catch-up hours begin
    ensures hours_begin { answers (catching (0 ∷ []) 10 1440 None) (start (at 9) false [])
        (Up (at 9) ∷ Catch 0 ∷ Minute (at 10) ∷ Catch 0 ∷ [])
        ≡ Said Came ∷ Refused NotCatchable ∷ Said Clock ∷ Said (Started (run_of 0 (at 10))) ∷ [] }

    // a job that is running isn't in the pass
    ensures running_left_out { state_of (catching (0 ∷ 0 ∷ []) 0 1440 None)
        (story (catching (0 ∷ 0 ∷ []) 0 1440 None) (start (at 9) false [])
        (Up (at 9) ∷ Catch 0 ∷ Down ∷ Up (at 1440) ∷ []))
        ≡ record {
          now = at 1440;
          up = true;
          pending = [];
          waiting = [];
          running = going 0 (at 9) (at 9) ∷ [];
          stamps = None ∷ None ∷ [];
          pass = Some (record { at = at 1440; left = 1 ∷ [] });
        } }
{}

/// Lemma. Worked examples: windows, and minutes that are calm or not, whatever reaches the
/// certificate gives. Day 2 is 1970-01-03.
pub fn windows_and_calm()

    // 23:30 for 30 minutes ends at midnight; for 60 it meets what begins there
    ensures ends { (c : ℕ → ℕ)
        → Holds (nights 30) c 2879 (run_of 0 2850)
        × (Holds (nights 30) c 2880 (run_of 0 2850) → ⊥) }
    ensures meets { (c : ℕ → ℕ) → IsCalm (nights 60) c 2880 → ⊥ }

    // a job meets its own next run
    ensures itself { (c : ℕ → ℕ) → IsCalm (fives 6) c 2880 → ⊥ }
    ensures next_day { (c : ℕ → ℕ)
        → (IsCalm (midnights 1441) c 5760 → ⊥)
        × (Holds (midnights 1440) c 5760 (run_of 0 4320) → ⊥) }

    // a window of three days
    ensures three_days { (c : ℕ → ℕ)
        → Holds sundays c 9359 (run_of 0 5040) × (Holds sundays c 9360 (run_of 0 5040) → ⊥) }

    // a catch-up run may start at 04:59 and take until 05:58
    ensures catch_up { (c : ℕ → ℕ)
        → (IsCalm (beside_catch_up 358) c (2880 + 358) → ⊥)
        × (Holds (beside_catch_up 359) c (2880 + 359) (run_of 1 (2880 + 180)) → ⊥) }

    // a skip job meets the window of one that waits
    ensures skip { IsCalm skipping (λ _. 60) (2880 + 49) → ⊥ }

    // by mode: of jobs that hold their lock alone, only the heaviest counts
    ensures loads { (load (heavy Plain) (run_of 0 2880 ∷ run_of 1 2880 ∷ []) ≡ 4)
        × (load (heavy Wait) (run_of 0 2880 ∷ run_of 1 2880 ∷ []) ≡ 2)
        × (load (heavy Skip) (run_of 0 2880 ∷ run_of 1 2880 ∷ []) ≡ 2)
        × (load (heavy Shared) (run_of 0 2880 ∷ run_of 1 2880 ∷ []) ≡ 4) }
{}

/// Lemma. Worked examples: histories that are safe, in time, or not.
pub fn safe_and_unsafe()

    // two of an exclusive group, one of which has gone on over an outage
    ensures in_time { IsInTime spring (over_outage 0) }
    ensures together { IsSafe spring (over_outage 0) → ⊥ }

    // a day later it has passed its declared time
    ensures late { IsInTime spring (over_outage 1440) → ⊥ }

    // two of no exclusive group that weigh 2 each, with a capacity of 3
    ensures overload { IsSafe (plan_of 2 [] (at_of (0 ∷ 0 ∷ [])) 3 false (λ _. 10) 2)
        both_at_midnight → ⊥ }

    // a skip job finds the lock held
    ensures skipped { IsSafe (at_one Skip) held_lock → ⊥ }

    // two of an exclusive group that share its lock
    ensures shared { IsSafe sharing all_begin }
{}

/// Lemma. Worked examples: a job that finds its lock held is skipped, which is safe in mode try and
/// isn't in mode skip.
pub fn skipped_in_both_modes()

    // both get the same replies, and the clock goes on
    ensures tried { answers (at_one Try) (start (at 59) true [])
        (Minute (at 60) ∷ Begin 1 ∷ Begin 0 ∷ Got 0 (at 60) ∷ Minute (at 61) ∷ [])
        ≡ Said Clock ∷ Said (Started (run_of 1 (at 60))) ∷ Said Skipped ∷ Refused NotWaiting
        ∷ Said Clock ∷ [] }
    ensures skipped { answers (at_one Skip) (start (at 59) true [])
        (Minute (at 60) ∷ Begin 1 ∷ Begin 0 ∷ Got 0 (at 60) ∷ Minute (at 61) ∷ [])
        ≡ Said Clock ∷ Said (Started (run_of 1 (at 60))) ∷ Said Skipped ∷ Refused NotWaiting
        ∷ Said Clock ∷ [] }

    // both histories may come, and each run of them is in time
    ensures legal { (IsLegal (at_one Try) (held_lock ▸ Minute (at 61)))
        × IsLegal (at_one Skip) (held_lock ▸ Minute (at 61)) }
    ensures in_time { (IsInTime (at_one Try) (held_lock ▸ Minute (at 61)))
        × IsInTime (at_one Skip) (held_lock ▸ Minute (at 61)) }

    // only the one of mode try is safe
    ensures safe { IsSafe (at_one Try) (held_lock ▸ Minute (at 61)) }
    ensures broken { IsSafe (at_one Skip) (held_lock ▸ Minute (at 61)) → ⊥ }
{}
