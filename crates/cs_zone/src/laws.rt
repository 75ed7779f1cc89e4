ghost use Rattle.std.specs.Prelude.{◌≡◌, ◌+◌, ◌-◌, ◌<◌, ◌≤◌, ◌∷◌, [], ℕ, true, false};
ghost use Rattle.cs_civil.specs.Calendar.{Kind, IsKind, kinds_after};
ghost use Rattle.cs_schedule.specs.Times.{Times, is_due as is_listed};
ghost use Rattle.cs_zone.specs.Starts.{Comes, is_by_wall, is_due, is_shown, starts};
ghost use Rattle.cs_zone.specs.Wall.{jump_day, kind_on, march_day, weekday_on};
ghost use Rattle.cs_zone.specs.Zone.{IsJump, IsZone, Jump, Zone as Rule};

/// Lemma. A line whose minute and hour fields don't begin with `*` starts when the wall comes to a
/// minute that it lists, and the days around one are those of the calendar.
#[tactic(auto, using(crate::proofs::Comings::every, crate::proofs::Comings::only, crate::proofs::Comings::still, crate::proofs::Comings::on_weekday, crate::proofs::Comings::tomorrow, crate::proofs::Comings::same_year))]
pub fn nights()

    // it starts for each minute that it lists, once the wall comes to it
    ensures every { (z : Rule) (s : Times) (k : Kind) (t shown : ℕ) → IsZone z
        → is_by_wall s ≡ false → Comes z k shown t → is_shown s k shown ≡ true
        → 0 < starts z s k t }

    // and for no other minute
    ensures only { (z : Rule) (s : Times) (k : Kind) (t : ℕ) → IsZone z
        → is_by_wall s ≡ false → 0 < starts z s k t
        → (shown : ℕ) × Comes z k shown t × (is_shown s k shown ≡ true) }

    // without summer time each line is due when its fields list the minute
    ensures still { (z : Rule) (s : Times) (k : Kind) (minute : ℕ) → IsKind k → minute < 1440
        → z.saving ≡ 0 → is_due z s k minute ≡ is_listed s k minute }

    // a jump comes on its weekday
    ensures jumps { (j : Jump) (k : Kind) → IsJump j → IsKind k
        → weekday_on k (jump_day j k) ≡ j.weekday }

    // the next day of the year is the one that can follow, but for 28 and 29 February
    ensures tomorrow { (k : Kind) → IsKind k → march_day k < 364
        → kinds_after k ≡ kind_on k (march_day k + 1) ∷ [] }

    // and each day of a year sees the same days
    ensures year { (k : Kind) (day other : ℕ) → IsKind k → day ≤ 365
        → kind_on (kind_on k day) other ≡ kind_on k other }
{}
