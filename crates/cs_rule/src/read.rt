//! Reads a zone's rule.
ghost use Rattle.std.specs.Prelude.{◌≡◌, ◌≤◌, ◌<◌, ◌+◌, ◌*ℤ◌, ◌-ℤ◌, ◌+ℤ◌, if◌then◌else◌, pos, true, false, Some, None, int_lt, IfOk, IfErr, IsSomeAnd, unsigned_abs};
ghost use Rattle.jiff_tz.specs.PosixReader.{read_whole};
ghost use Rattle.jiff_tz.specs.PosixText.{dst_view};
ghost use Rattle.cs_rule.specs.Clocks.{clock_between, clock_in, minutes_of, usable_clock};
ghost use Rattle.cs_rule.specs.Faults.{is_fault, has_seconds, is_far, is_at_summer};
ghost use Rattle.cs_rule.specs.Rule.{IsClock, IsPlainClock, IsSummerClock, IsJumpAt, HasClocks, after_march};
ghost use Rattle.cs_rule.specs.Parts.{IsSound, IsWhole, at, dst_of, rule_of, side};

use crate::jump::{after_march, is_by_march, is_outside, name_jump, zone_of};
use crate::parts::{East, Named};
use crate::{Clock, RuleFault};
use cs_zone::Zone;
use jiff_tz::posix::{Dst, TimeZone};

fn has_seconds(seconds: i32) -> bool
    ensures { result ≡ has_seconds seconds }
{
    seconds.unsigned_abs() % 60 != 0
}

fn is_far(seconds: i32) -> bool
    ensures { result ≡ is_far seconds }
{
    seconds.unsigned_abs() > 86_340
}

#[tactic(auto, using(crate::proofs::Zones::are_minutes), unfolding(crate::specs::Clocks::minutes_of))]
fn minutes_of(seconds: i32) -> i16
    requires whole { has_seconds seconds ≡ false }
    requires near { is_far seconds ≡ false }
    ensures value { result ≡ minutes_of seconds }
    ensures whole { seconds ≡ pos 60 *ℤ result }
    ensures bound { unsigned_abs result ≤ 1439 }
{
    let minutes = (seconds.unsigned_abs() / 60) as i16;
    if seconds < 0 { -minutes } else { minutes }
}

/// Whether a clock is ahead of another one, and the minutes between them.
#[tactic(auto, using(crate::proofs::Zones::ahead_or_behind))]
fn saving_of(offset: i16, shown: i16) -> (bool, u8)
    requires { unsigned_abs (shown -ℤ offset) ≤ 120 }
    ensures value { shown
        ≡ (if result.0 then offset +ℤ pos result.1 else offset -ℤ pos result.1) }
    ensures ahead { result.0 ≡ int_lt offset shown }
    ensures saving { result.1 ≡ unsigned_abs (shown -ℤ offset) }
    ensures bound { result.1 ≤ 120 }
{
    (offset < shown, shown.abs_diff(offset) as u8)
}

/// The clock of a zone whose plan's clock is one of these.
#[tactic(auto, using(crate::proofs::Zones::saving_fits))]
fn between(plan: East, other: East, leaves: Named, returns: Named) -> Clock
    requires plan { IsWhole plan.seconds }
    requires other { IsWhole other.seconds }
    requires leaves { IsSound leaves }
    requires returns { IsSound returns }
    requires apart { unsigned_abs (plan.seconds -ℤ other.seconds) ≤ 7200 }
    requires order { after_march leaves.month + 2 ≤ after_march returns.month }
    ensures value { result
        ≡ clock_between (side plan) (side other) (at leaves) (at returns) }
    ensures clock { HasClocks (side plan) (side other) result }
    ensures leaves { IsJumpAt (at leaves) result.zone.leaves }
    ensures returns { IsJumpAt (at returns) result.zone.returns }
{
    let (offset, shown) = (minutes_of(plan.seconds), minutes_of(other.seconds));
    let (is_ahead, saving) = saving_of(offset, shown);
    let zone = zone_of(is_ahead, saving, leaves, returns);
    Clock::new(offset, zone, plan.name, other.name)
}

/// The clock of a zone with daylight saving time.
fn summer_clock(standard: East, summer: East, start: Named, end: Named) -> Result<Clock, RuleFault>
    requires standard { IsWhole standard.seconds }
    requires summer { IsWhole summer.seconds }
    requires whole { (has_seconds start.time ≡ false) × (has_seconds end.time ≡ false) }
    ensures ok { IfOk result (IsSummerClock (side standard) (dst_of summer start end)) }
    ensures value { IfOk result (λ clock.
        usable_clock (Some (rule_of standard (Some (dst_of summer start end)))) ≡ Some clock) }
    ensures err { IfErr result
        (λ fault. is_at_summer fault standard.seconds (dst_of summer start end) ≡ true) }
{
    if is_outside(start) || is_outside(end) {
        return Err(RuleFault::Time);
    }
    if is_by_march(start) || is_by_march(end) {
        return Err(RuleFault::March);
    }
    let (from, to) = (after_march(start), after_march(end));
    if from.abs_diff(to) < 2 || from.abs_diff(to) > 10 {
        return Err(RuleFault::Near);
    }
    let apart = standard.seconds.abs_diff(summer.seconds);
    if apart < 900 || apart > 7_200 {
        return Err(RuleFault::Saving);
    }
    if to < from {
        Ok(between(summer, standard, end, start))
    } else {
        Ok(between(standard, summer, start, end))
    }
}

/// The clock of a zone with daylight saving time, as the rule says it.
fn with_summer(standard: East, dst: Dst) -> Result<Clock, RuleFault>
    ensures ok { IfOk result (IsSummerClock (side standard) (dst_view dst)) }
    ensures value { IfOk result (λ clock.
        usable_clock (Some (rule_of standard (Some (dst_view dst)))) ≡ Some clock) }
    ensures err { IfErr result (λ fault.
        is_fault fault (Some (rule_of standard (Some (dst_view dst)))) ≡ true) }
{
    let summer = East {
        name: dst.abbrev,
        seconds: dst.offset.seconds,
    };
    let (start, end) = (dst.rule.start, dst.rule.end);
    if has_seconds(standard.seconds)
        || has_seconds(summer.seconds)
        || has_seconds(start.time)
        || has_seconds(end.time)
    {
        return Err(RuleFault::Seconds);
    }
    if is_far(standard.seconds) || is_far(summer.seconds) {
        return Err(RuleFault::Offset);
    }
    let Some(first) = name_jump(start) else {
        return Err(RuleFault::DayForm);
    };
    let Some(last) = name_jump(end) else {
        return Err(RuleFault::DayForm);
    };
    summer_clock(standard, summer, first, last)
}

/// The clock of a zone without daylight saving time.
fn without_summer(standard: East) -> Result<Clock, RuleFault>
    ensures ok { IfOk result (IsPlainClock (side standard)) }
    ensures value { IfOk result (λ clock.
        usable_clock (Some (rule_of standard None)) ≡ Some clock) }
    ensures err { IfErr result (λ fault. is_fault fault (Some (rule_of standard None)) ≡ true) }
{
    if has_seconds(standard.seconds) {
        return Err(RuleFault::Seconds);
    }
    if is_far(standard.seconds) {
        return Err(RuleFault::Offset);
    }
    let offset = minutes_of(standard.seconds);
    Ok(Clock::new(offset, Zone::none(), standard.name, standard.name))
}

/// Reads a zone's rule (POSIX, TZ), which is in `TZ` or the last line of `/etc/localtime`, as a
/// clock. Else returns the first fault, in the order of [`RuleFault`].
#[tactic(auto, unfolding(crate::specs::Clocks::clock_in))]
pub fn read_rule(text: &[u8]) -> Result<Clock, RuleFault>
    ensures ok { IfOk result
        (λ clock. IsSomeAnd (read_whole text.now) (λ rule. IsClock rule clock)) }
    ensures value { IfOk result (λ clock. clock_in text.now ≡ Some clock) }
    ensures err { IfErr result (λ fault. is_fault fault (read_whole text.now) ≡ true) }
    ensures none { IfErr result (λ fault. clock_in text.now ≡ None) }
{
    let Ok(rule) = TimeZone::parse(text) else {
        return Err(RuleFault::NoRule);
    };
    let standard = East {
        name: rule.std_abbrev,
        seconds: rule.std_offset.seconds,
    };
    match rule.dst {
        Some(dst) => with_summer(standard, dst),
        None => without_summer(standard),
    }
}

/// Returns the clock that a zone's rule (POSIX, TZ) means, `None` if it can't be used.
pub fn clock_in(text: &[u8]) -> Option<Clock>
    ensures { result ≡ clock_in text.now }
{
    read_rule(text).ok()
}
