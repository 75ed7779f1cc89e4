ghost use Rattle.std.specs.Prelude.{◌≡◌, ◌+◌, ◌%◌, ◌<◌, ◌≤◌, ℕ, IsTrue, true, false};
ghost use Rattle.cs_civil.specs.Calendar.{kind};
ghost use Rattle.cs_schedule.specs.Numbers.{has};
ghost use Rattle.cs_schedule.specs.Times.{is_day_due};
ghost use Rattle.cs_crontab.specs.declared.table.When.TheVariants.{At};
ghost use Rattle.cs_advise.specs.Change.{IsLater};

use cs_civil::MINUTES_OF_DAY;
use cs_crontab::{Field, MinuteSet, Part, Schedule};

fn are_alike(one: &Field, other: &Field) -> bool
    ensures star { IsTrue result → one.now.star ≡ other.now.star }
    ensures numbers { IsTrue result
        → (n : ℕ) → n < 64 → has one.now.numbers n ≡ has other.now.numbers n }
{
    for number in 0..64 {
        if one.has(number) != other.has(number) {
            return false;
        }
    }
    one.begins_with_star() == other.begins_with_star()
}

#[tactic(auto, using(crate::proofs::Shifts::same_days))]
fn are_days_alike(one: &Schedule, other: &Schedule) -> bool
    ensures { IsTrue result
        → (d : ℕ) → is_day_due other.now (kind d) ≡ is_day_due one.now (kind d) }
{
    are_alike(one.field(Part::Dom), other.field(Part::Dom))
        && are_alike(one.field(Part::Month), other.field(Part::Month))
        && are_alike(one.field(Part::Dow), other.field(Part::Dow))
}

fn has_all(field: &Field, first: u8, last: u8) -> bool
    requires { last < 255 }
    ensures { IsTrue result → (n : ℕ) → first ≤ n → n ≤ last → has field.now.numbers n ≡ true }
{
    for number in first..last + 1 {
        if !field.has(number) {
            return false;
        }
    }
    true
}

#[tactic(auto, using(crate::proofs::Shifts::each_day))]
pub(crate) fn is_daily(schedule: &Schedule) -> bool
    ensures { IsTrue result → (d : ℕ) → is_day_due schedule.now (kind d) ≡ true }
{
    has_all(schedule.field(Part::Dom), 1, 31)
        && has_all(schedule.field(Part::Month), 1, 12)
        && has_all(schedule.field(Part::Dow), 0, 6)
}

/// Whether each minute of a day is in one set exactly if the minute so much later is in the other.
fn are_later(one: &MinuteSet, other: &MinuteSet, minutes: u16) -> bool
    requires { minutes < MINUTES_OF_DAY }
    ensures { IsTrue result → (m : ℕ) → m < MINUTES_OF_DAY
        → has other.now ((m + minutes) % MINUTES_OF_DAY) ≡ has one.now m }
{
    for minute in 0..MINUTES_OF_DAY {
        if other.has((minute + minutes) % MINUTES_OF_DAY) != one.has(minute) {
            return false;
        }
    }
    true
}

/// Whether no minute of the set passes midnight when it is shifted.
fn stays(set: &MinuteSet, minutes: u16) -> bool
    requires { minutes < MINUTES_OF_DAY }
    ensures { IsTrue result → (m : ℕ) → m < MINUTES_OF_DAY → MINUTES_OF_DAY ≤ m + minutes
        → has set.now m ≡ false }
{
    for minute in MINUTES_OF_DAY - minutes..MINUTES_OF_DAY {
        if set.has(minute) {
            return false;
        }
    }
    true
}

/// Whether the starts of the other are those of the one, so many minutes later. Starts may pass
/// midnight only if the command is due each day.
pub(crate) fn is_later(one: &Schedule, other: &Schedule, minutes: u16) -> bool
    ensures { IsTrue result → IsLater minutes (At one.now) (At other.now) }
{
    if minutes >= MINUTES_OF_DAY || !are_days_alike(one, other) {
        return false;
    }
    let times = one.times();
    are_later(&times, &other.times(), minutes) && (stays(&times, minutes) || is_daily(one))
}
