//! The jumps of a zone's rule.
ghost use Rattle.std.specs.Prelude.{◌≡◌, ◌<◌, ◌≤◌, ◌+◌, true, false, IsNone, IfSome};
ghost use Rattle.jiff_tz.specs.PosixText.{day_time_view};
ghost use Rattle.jiff_tz.specs.declared.posix.Day.TheVariants.{WeekdayOfMonth};
ghost use Rattle.cs_zone.specs.Zone.{IsJump};
ghost use Rattle.cs_rule.specs.Clocks.{jump_of};
ghost use Rattle.cs_rule.specs.Faults.{has_seconds, is_outside, is_by_march, is_numbered};
ghost use Rattle.cs_rule.specs.Parts.{IsSound, at};
ghost use Rattle.cs_rule.specs.Rule.{IsJumpAt, after_march, earliest};

use crate::parts::Named;
use cs_zone::{Jump, Zone};
use jiff_tz::posix::{Day, DayTime};

/// The jump, if its day is of the form `Mm.w.d`.
pub(crate) fn name_jump(jump: DayTime) -> Option<Named>
    ensures some { IfSome result (λ n. day_time_view jump ≡ at n) }
    ensures none { IsNone result → is_numbered jump.date ≡ true }
{
    match jump.date {
        Day::WeekdayOfMonth {
            month,
            week,
            weekday,
        } => Some(Named {
            month,
            week,
            weekday,
            time: jump.time,
        }),
        _ => None,
    }
}

pub(crate) fn is_outside(jump: Named) -> bool
    ensures { result ≡ is_outside jump.time }
{
    jump.time < 0 || jump.time > 86_400
}

pub(crate) fn is_by_march(jump: Named) -> bool
    ensures { result ≡ is_by_march (WeekdayOfMonth jump.month jump.week jump.weekday) }
{
    (jump.month == 2 && jump.week >= 4) || (jump.month == 3 && jump.week == 1)
}

/// How many months after March a jump comes.
pub(crate) fn after_march(jump: Named) -> u8
    ensures value { result ≡ after_march jump.month }
    ensures bound { result < 12 }
{
    (jump.month + 9) % 12
}

/// The earliest day of a jump, counted from 1 March.
fn earliest(jump: Named) -> u16
    ensures { result ≡ earliest jump.month jump.week }
{
    let months = u16::from(after_march(jump));
    if jump.week == 5 {
        (153 * (months + 1) + 2) / 5 - 7
    } else {
        (153 * months + 2) / 5 + 7 * (u16::from(jump.week) - 1)
    }
}

fn jump_of(jump: Named) -> Jump
    requires whole { has_seconds jump.time ≡ false }
    requires inside { is_outside jump.time ≡ false }
    ensures value { result ≡ jump_of (at jump) }
    ensures at { IsJumpAt (at jump) result }
    ensures jump { IsJump result }
{
    let minute = (jump.time.unsigned_abs() / 60) as u16;
    Jump::new(earliest(jump), jump.weekday, minute).unwrap()
}

/// The zone with these jumps.
#[tactic(auto, using(crate::proofs::Zones::after_first, crate::proofs::Zones::before_last, crate::proofs::Zones::apart))]
pub(crate) fn zone_of(is_ahead: bool, saving: u8, leaves: Named, returns: Named) -> Zone
    requires saving { saving ≤ 120 }
    requires leaves { IsSound leaves }
    requires returns { IsSound returns }
    requires order { after_march leaves.month + 2 ≤ after_march returns.month }
    ensures ahead { result.ahead ≡ is_ahead }
    ensures saving { result.saving ≡ saving }
    ensures leaves { result.leaves ≡ jump_of (at leaves) }
    ensures returns { result.returns ≡ jump_of (at returns) }
    ensures leaves_at { IsJumpAt (at leaves) result.leaves }
    ensures returns_at { IsJumpAt (at returns) result.returns }
{
    Zone::new(is_ahead, saving, jump_of(leaves), jump_of(returns)).unwrap()
}
