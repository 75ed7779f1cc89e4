ghost use Rattle.std.specs.Prelude.{◌↔◌, IsTrue, map};
ghost use Rattle.cs_wait.specs.Bounds.{ClearsBy, IsClearAt, at};

use crate::backlog::Backlog;
use cs_civil::MINUTES_OF_DAY;

/// Checks whether the bound is 0 at some minute of `(due, due + reach]`, by which all that waited
/// at the due minute has had the lock.
///
/// `days` are the bounds of successive days; minutes count from the start of the first. Minutes
/// past the last day are ignored, so that no days never clear.
pub fn clears_by(days: &[&Backlog], due: u16, reach: u16) -> bool
    ensures { IsTrue result ↔ ClearsBy (map (λ b. at b.now) days.now) due reach }
{
    let due = u32::from(due);
    for minute in due + 1..due + u32::from(reach) + 1 {
        if is_clear_at(days, minute) {
            return true;
        }
    }
    false
}

fn is_clear_at(days: &[&Backlog], minute: u32) -> bool
    ensures { IsTrue result ↔ IsClearAt (map (λ b. at b.now) days.now) minute }
{
    let mut rest = minute;
    for day in days {
        if let Ok(minute) = u16::try_from(rest) {
            if minute < MINUTES_OF_DAY {
                return day.at(minute) == 0;
            }
        }
        rest -= u32::from(MINUTES_OF_DAY);
    }
    false
}
