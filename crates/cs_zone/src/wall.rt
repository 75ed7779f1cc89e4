//! What the zone's clock shows. Minutes count from 1 March 00:00 on the plan's clock.
ghost use Rattle.std.specs.Prelude.{◌≡◌, ◌+◌, ◌*◌, ◌≤◌, ◌<◌, IfSome, IsSome};
ghost use Rattle.cs_zone.specs.Wall.{back, days_of_months, forward, is_away, is_second, jump_day, jump_minute, kind_on, leaving, march_day, minute_on, month_on, returning, wall, weekday_on};
ghost use Rattle.cs_zone.specs.Zone.{IsJump};

use crate::zone::{Jump, Zone};
use cs_civil::DayKind;

/// The minutes of a day.
const DAY: u32 = 1_440;

/// The days from 1 March to the first day of the n-th month after March.
fn days_of_months(months: u32) -> u32
    requires { months ≤ 12 }
    ensures { result ≡ days_of_months months }
{
    (153 * months + 2) / 5
}

/// Returns the days from 1 March to a day of this kind, from 0 to 365 for 29 February.
pub fn march_day(kind: DayKind) -> u32
    ensures value { result ≡ march_day kind }
    ensures bound { march_day kind ≤ 365 }
{
    days_of_months((u32::from(kind.month()) + 9) % 12) + u32::from(kind.dom()) - 1
}

fn weekday_on(kind: DayKind, day: u32) -> u32
    requires { day ≤ 400 }
    ensures value { result ≡ weekday_on kind day }
    ensures bound { result ≤ 6 }
{
    (u32::from(kind.dow()) + 371 + day - march_day(kind)) % 7
}

/// The kind of a day from 0 to 365, where `kind` is a day of the same year.
pub(crate) fn kind_on(kind: DayKind, day: u32) -> DayKind
    requires { day ≤ 365 }
    ensures { result ≡ kind_on kind day }
{
    let month = (5 * day + 2) / 153;
    let dom = day - days_of_months(month) + 1;
    let dow = weekday_on(kind, day);
    DayKind::new(((month + 2) % 12 + 1) as u8, dom as u8, dow as u8).unwrap()
}

fn jump_day(jump: Jump, kind: DayKind) -> u32
    requires { jump.earliest ≤ 351 }
    ensures value { result ≡ jump_day jump kind }
    ensures bound { (jump.earliest ≤ result) × (result ≤ jump.earliest + 6) }
{
    let earliest = u32::from(jump.earliest());
    earliest + (u32::from(jump.weekday()) + 7 - weekday_on(kind, earliest)) % 7
}

fn jump_minute(jump: Jump, kind: DayKind) -> u32
    requires { jump.earliest ≤ 351 }
    ensures value { result ≡ jump_minute jump kind }
    ensures from { 1440 * jump.earliest ≤ result }
    ensures to { result ≤ 1440 * jump.earliest + 10080 }
{
    DAY * jump_day(jump, kind) + u32::from(jump.minute())
}

/// The minutes in which the wall leaves the plan's clock and returns to it, from 1 March 00:00.
#[derive(Clone, Copy)]
pub(crate) struct Year {
    pub leaving: u32,
    pub returning: u32,
}

pub(crate) fn year_of(zone: Zone, kind: DayKind) -> Year
    ensures leaving { result.leaving ≡ leaving zone kind }
    ensures returning { result.returning ≡ returning zone kind }
    ensures after { 10080 ≤ result.leaving }
    ensures apart { result.leaving + 9960 ≤ result.returning }
    ensures before { result.returning ≤ 515640 }
{
    let leaving = jump_minute(zone.leaves(), kind);
    let returning = jump_minute(zone.returns(), kind);
    let saving = u32::from(zone.saving());
    let returning = if zone.is_ahead() {
        returning - saving
    } else {
        returning + saving
    };
    Year { leaving, returning }
}

/// What the wall shows in a minute of the plan's clock, both counted from 1 March 00:00, where
/// `kind` is a day of the same year.
pub(crate) fn wall(zone: Zone, kind: DayKind, minute: u32) -> u32
    ensures value { result ≡ wall zone kind minute }
    ensures bound { minute < 527040 → result < 527040 }
{
    let year = year_of(zone, kind);
    if minute < year.leaving || minute >= year.returning {
        return minute;
    }
    let saving = u32::from(zone.saving());
    if zone.is_ahead() {
        minute + saving
    } else {
        minute - saving
    }
}

/// Returns what the wall shows in a minute of a day of this kind: the minutes since 1 March 00:00.
pub fn wall_on(zone: Zone, kind: DayKind, minute_of_day: u16) -> u32
    requires { minute_of_day < 1440 }
    ensures value { result ≡ wall zone kind (minute_on kind minute_of_day) }
    ensures bound { result < 527040 }
{
    wall(zone, kind, minute_on(kind, minute_of_day))
}

/// The minutes from 1 March 00:00 to a minute of a day of this kind.
pub(crate) fn minute_on(kind: DayKind, minute_of_day: u16) -> u32
    requires { minute_of_day < 1440 }
    ensures value { result ≡ minute_on kind minute_of_day }
    ensures bound { result < 527040 }
{
    DAY * march_day(kind) + u32::from(minute_of_day)
}
