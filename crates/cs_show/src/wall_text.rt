//! The answer of `day --zone`.
ghost use Rattle.std.specs.Prelude.{◌≡◌, ◌++◌, ◌+◌, ◌==◌, ◌≤◌, ◌<◌, OnOk, IfOk, flat_map, replicate};
ghost use Rattle.cs_civil.specs.Calendar.{kind};
ghost use Rattle.cs_show.specs.WallText.{apart, end_text, is_on, jump_line, jump_of, jump_text, jumps_text, name_at, run_text, shown_after, shown_text, starts_in, starts_of, starts_text, wall_at};

use crate::day_text::{add_clock, add_days_apart, add_due};
use cs_civil::{Day, DayKind, kind_of};
use cs_rule::Clock;
use cs_schedule::Schedule;
use cs_zone::{Jump, Zone, march_day, wall_on};
use std::alloc::{AllocError, Global};

/// The minutes of a day.
const DAY: u64 = 1_440;

/// By how many minutes the wall differs from the plan's clock at most.
const FARTHEST: u64 = 120;

/// The days after which the calendar repeats: 400 years.
const CYCLE: u64 = 146_097;

/// The kind of a day, which may be after the last [`Day`].
#[tactic(auto, using(crate::proofs::Years::kind_again))]
fn kind_at(day: u64) -> DayKind
    ensures { result ≡ kind day }
{
    kind_of(Day::new(day % CYCLE).unwrap())
}

/// What the wall shows in a minute of the plan's clock.
fn wall_at(zone: Zone, minute: u64) -> u64
    requires { minute < 8_000_000_000 }
    ensures { result ≡ wall_at zone minute }
{
    let kind = kind_at(minute / DAY);
    let minute_of_day = (minute % DAY) as u16;
    let shown = minute + u64::from(wall_on(zone, kind, minute_of_day));
    shown.saturating_sub(u64::from(1_440 * march_day(kind) + u32::from(minute_of_day)))
}

/// The zone's name of its clock in a minute of the plan's clock.
fn name_at(clock: &Clock, minute: u64) -> &[u8]
    requires { minute < 8_000_000_000 }
    ensures { result.now ≡ name_at clock.now minute }
{
    clock.name(wall_at(clock.zone(), minute) != minute)
}

/// Adds a minute so many times.
fn push_times(starts: &mut Vec<u32>, minute: u32, times: u32) -> Result<(), AllocError>
    ensures { OnOk result (starts.new.items ≡ starts.old.items ++ replicate times minute) }
{
    for _ in 0..times {
        starts.push(minute)?;
    }
    Ok(())
}

/// Adds the starts in a minute in which the wall shows a date.
fn push_starts(
    starts: &mut Vec<u32>,
    zone: Zone,
    schedule: &Schedule,
    day: Day,
    minute: u32,
) -> Result<(), AllocError>
    ensures { OnOk result
        (starts.new.items ≡ starts.old.items ++ starts_in zone schedule.now day minute) }
{
    let at = u64::from(minute);
    if wall_at(zone, at) / DAY != day.number() {
        return Ok(());
    }
    let times = zone.starts(schedule, kind_at(at / DAY), (at % DAY) as u16);
    push_times(starts, minute, times)
}

/// The starts on a date of the wall, in minutes of the plan's clock.
#[tactic(auto, using(crate::proofs::Starts::range_more), unfolding(crate::specs::WallText::starts_of))]
fn starts_of(
    alloc: Global,
    zone: Zone,
    schedule: &Schedule,
    day: Day,
) -> Result<Vec<u32>, AllocError>
    requires { 3 ≤ day }
    ensures { IfOk result (λ starts. starts.items ≡ starts_of zone schedule.now day) }
{
    let first = (DAY * day.number() - FARTHEST) as u32;
    let mut starts = Vec::new(alloc);
    for step in 0..1_680 {
        push_starts(&mut starts, zone, schedule, day, first + step)?;
    }
    Ok(starts)
}

#[tactic(auto, unfolding(crate::specs::WallText::apart))]
fn add_apart(alloc: Global, text: &mut Vec<u8>, date: u64, day: u64) -> Result<(), AllocError>
    ensures { OnOk result (text.new.items ≡ text.old.items ++ apart date day) }
{
    if day < date {
        return add_days_apart(alloc, text, date - day, "before");
    }
    add_days_apart(alloc, text, day - date, "after")
}

/// Adds what the wall shows, seen from a date, with the zone's name of its clock.
#[tactic(auto, unfolding(crate::specs::WallText::shown_text))]
fn add_shown(
    alloc: Global,
    text: &mut Vec<u8>,
    date: Day,
    name: &[u8],
    shown: u64,
) -> Result<(), AllocError>
    ensures { OnOk result (text.new.items ≡ text.old.items ++ shown_text date name.now shown) }
{
    add_clock(text, (shown % DAY) as u16)?;
    text.push(b' ')?;
    text.extend_from_slice(name)?;
    add_apart(alloc, text, date.number(), shown / DAY)
}

/// Adds the same of the end of a run.
#[tactic(auto, unfolding(crate::specs::WallText::end_text))]
fn add_end(
    alloc: Global,
    text: &mut Vec<u8>,
    date: Day,
    name: &[u8],
    shown: u64,
) -> Result<(), AllocError>
    ensures { OnOk result (text.new.items ≡ text.old.items ++ end_text date name.now shown) }
{
    if shown != DAY * date.number() + DAY {
        return add_shown(alloc, text, date, name, shown);
    }
    add_clock(text, 1_440)?;
    text.push(b' ')?;
    text.extend_from_slice(name)
}

/// Adds a line for a run that starts in a minute of the plan's clock.
#[tactic(auto, unfolding(crate::specs::WallText::run_text))]
fn add_run(
    alloc: Global,
    text: &mut Vec<u8>,
    clock: &Clock,
    date: Day,
    max: u16,
    start: u32,
) -> Result<(), AllocError>
    ensures { OnOk result (text.new.items ≡ text.old.items ++ run_text clock.now date max start) }
{
    let from = u64::from(start);
    let to = from + u64::from(max);
    let zone = clock.zone();
    text.extend_from_slice(b"  ".as_slice())?;
    add_shown(alloc, text, date, name_at(clock, from), wall_at(zone, from))?;
    text.extend_from_slice(b" to ".as_slice())?;
    add_end(alloc, text, date, name_at(clock, to), wall_at(zone, to))?;
    text.push(b'\n')?;
    Ok(())
}

fn add_runs(
    alloc: Global,
    text: &mut Vec<u8>,
    clock: &Clock,
    date: Day,
    max: u16,
    starts: &[u32],
) -> Result<(), AllocError>
    ensures { OnOk result
        (text.new.items ≡ text.old.items ++ flat_map (run_text clock.now date max) starts.now) }
{
    for start in starts {
        add_run(alloc, text, clock, date, max, *start)?;
    }
    Ok(())
}

/// Adds the lines of a command: how often cron starts it on a date of the wall, and its runs.
#[tactic(auto, using(crate::proofs::TextLemmas::two_parts), unfolding(crate::specs::WallText::starts_text))]
pub fn add_starts(
    alloc: Global,
    text: &mut Vec<u8>,
    clock: &Clock,
    number: u32,
    schedule: &Schedule,
    date: Day,
    max: u16,
) -> Result<(), AllocError>
    requires { 3 ≤ date }
    ensures { OnOk result
        (text.new.items ≡ text.old.items ++ starts_text clock.now date max number schedule.now) }
{
    let starts = starts_of(alloc, clock.zone(), schedule, date)?;
    add_due(alloc, text, number, starts.len())?;
    add_runs(alloc, text, clock, date, max, starts.as_slice())
}

/// The jump away from the plan's clock, or the jump back.
fn jump_of(zone: Zone, is_away: bool) -> Jump
    ensures value { result ≡ jump_of zone is_away }
    ensures bound { result.earliest ≤ 351 }
{
    if is_away {
        zone.leaves()
    } else {
        zone.returns()
    }
}

/// Whether the rule of a jump names a date.
#[tactic(auto, using(crate::proofs::Jumps::is_first))]
fn is_on(jump: Jump, date: Day) -> bool
    requires { jump.earliest ≤ 351 }
    ensures { result ≡ is_on jump date }
{
    let kind = kind_of(date);
    let (earliest, day) = (u32::from(jump.earliest()), march_day(kind));
    kind.dow() == jump.weekday() && earliest <= day && day < earliest + 7
}

/// What the wall shows after a jump on a date.
fn shown_after(zone: Zone, is_away: bool, date: Day) -> u64
    requires { 3 ≤ date }
    ensures { result ≡ shown_after zone is_away date }
{
    let before = DAY * date.number() + u64::from(jump_of(zone, is_away).minute());
    let saving = u64::from(zone.saving());
    if is_away == zone.is_ahead() {
        before + saving
    } else {
        before - saving
    }
}

#[tactic(auto, unfolding(crate::specs::WallText::jump_text))]
fn add_jump(
    alloc: Global,
    text: &mut Vec<u8>,
    clock: &Clock,
    date: Day,
    is_away: bool,
) -> Result<(), AllocError>
    requires { 3 ≤ date }
    ensures { OnOk result (text.new.items ≡ text.old.items ++ jump_text clock.now date is_away) }
{
    let zone = clock.zone();
    add_clock(text, jump_of(zone, is_away).minute())?;
    text.push(b' ')?;
    text.extend_from_slice(clock.name(!is_away))?;
    text.extend_from_slice(b" becomes ".as_slice())?;
    let shown = shown_after(zone, is_away, date);
    add_shown(alloc, text, date, clock.name(is_away), shown)?;
    text.push(b'\n')?;
    Ok(())
}

#[tactic(auto, unfolding(crate::specs::WallText::jump_line))]
fn add_jump_line(
    alloc: Global,
    text: &mut Vec<u8>,
    clock: &Clock,
    date: Day,
    is_away: bool,
) -> Result<(), AllocError>
    requires { 3 ≤ date }
    ensures { OnOk result (text.new.items ≡ text.old.items ++ jump_line clock.now date is_away) }
{
    if !is_on(jump_of(clock.zone(), is_away), date) {
        return Ok(());
    }
    add_jump(alloc, text, clock, date, is_away)
}

/// Adds a line for each jump whose rule names a date.
#[tactic(auto, using(crate::proofs::TextLemmas::two_parts), unfolding(crate::specs::WallText::jumps_text))]
pub fn add_jumps(
    alloc: Global,
    text: &mut Vec<u8>,
    clock: &Clock,
    date: Day,
) -> Result<(), AllocError>
    requires { 3 ≤ date }
    ensures { OnOk result (text.new.items ≡ text.old.items ++ jumps_text clock.now date) }
{
    if clock.zone().saving() == 0 {
        return Ok(());
    }
    add_jump_line(alloc, text, clock, date, true)?;
    add_jump_line(alloc, text, clock, date, false)
}
