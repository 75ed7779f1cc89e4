//! The minute in which the clocks of a zone have just gone forward.
ghost use Rattle.std.specs.Prelude.{◌≡◌, ◌≢◌, ◌<◌, ℕ, IfSome, IsNone};
ghost use Rattle.cs_zone.specs.Wall.{forward, minute_on};

use cs_civil::DayKind;
use cs_zone::{Zone, march_day};

/// A minute of a day of some kind.
#[derive(Clone, Copy)]
pub(crate) struct Start {
    pub(crate) kind: DayKind,
    pub(crate) minute: u16,
    ghost in_day: { minute < 1440 },
}

/// The first minute after the jump forward, from 1 March 00:00 on the plan's clock.
fn forward(zone: Zone, kind: DayKind) -> u32
    ensures value { result ≡ forward zone kind }
    ensures bound { result < 600000 }
{
    let jump = if zone.is_ahead() {
        zone.leaves()
    } else {
        zone.returns()
    };
    let earliest = u32::from(jump.earliest());
    let weekday = (u32::from(kind.dow()) + 371 + earliest - march_day(kind)) % 7;
    let day = earliest + (u32::from(jump.weekday()) + 7 - weekday) % 7;
    let minute = 1_440 * day + u32::from(jump.minute());
    if zone.is_ahead() {
        minute
    } else {
        minute + u32::from(zone.saving())
    }
}

/// The minute of the day, if it is one of a day of this kind.
pub(crate) fn forward_on(zone: Zone, kind: DayKind) -> Option<u16>
    ensures some { IfSome result (λ m. (m < 1440) × (minute_on kind m ≡ forward zone kind)) }
    ensures none { IsNone result → (m : ℕ) → m < 1440 → minute_on kind m ≢ forward zone kind }
{
    let (start, forward) = (1_440 * march_day(kind), forward(zone, kind));
    if forward < start || forward >= start + 1_440 {
        return None;
    }
    Some((forward - start) as u16)
}
