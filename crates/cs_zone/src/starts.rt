//! When cron(8) starts a command by the clock of a zone.
ghost use Rattle.std.specs.Prelude.{◌≡◌, ◌<◌, ◌+◌, ◌≤◌, filter, length};
ghost use Rattle.std.specs.List.{range_with_len};
ghost use Rattle.cs_zone.specs.Starts.{is_by_wall, is_shown, jumped_over, starts, starts_late, starts_on};
ghost use Rattle.cs_zone.specs.Wall.{back, forward, is_second};

use crate::wall::{kind_on, minute_on, wall, year_of};
use crate::zone::Zone;
use cs_civil::DayKind;
use cs_schedule::{Part, Schedule};

/// Whether the fields list what the wall shows, in minutes from 1 March 00:00.
fn is_shown(schedule: &Schedule, kind: DayKind, shown: u32) -> bool
    requires { shown < 527040 }
    ensures { result ≡ is_shown schedule.now kind shown }
{
    schedule.is_due_on(kind_on(kind, shown / 1_440), (shown % 1_440) as u16)
}

/// How many of so many minutes from the first one the fields list.
#[tactic(auto, using(crate::proofs::Counts::count_more))]
fn count_shown(schedule: &Schedule, kind: DayKind, first: u32, minutes: u32) -> u32
    requires first { first < 520000 }
    requires minutes { minutes ≤ 120 }
    ensures value { result
        ≡ length (filter (is_shown schedule.now kind) (range_with_len first minutes)) }
    ensures bound { result ≤ minutes }
{
    let mut count = 0;
    for step in 0..minutes {
        let is_shown = is_shown(schedule, kind, first + step);
        count += u32::from(is_shown);
    }
    count
}

fn is_by_wall(schedule: &Schedule) -> bool
    ensures { result ≡ is_by_wall schedule.now }
{
    schedule.field(Part::Minute).begins_with_star() || schedule.field(Part::Hour).begins_with_star()
}

/// The first minutes after the jump forward and after the jump back, from 1 March 00:00.
pub(crate) fn jumps_on(zone: Zone, kind: DayKind) -> (u32, u32)
    ensures forward { result.0 ≡ forward zone kind }
    ensures back { result.1 ≡ back zone kind }
    ensures bounds { (10080 ≤ result.0) × (result.0 ≤ 515640) × (result.1 ≤ 515640) }
{
    let year = year_of(zone, kind);
    if zone.is_ahead() {
        (year.leaving, year.returning)
    } else {
        (year.returning, year.leaving)
    }
}

/// How often it starts in a minute for those that the wall has jumped over.
#[tactic(auto, unfolding(crate::specs::Starts::starts_late))]
fn starts_late(zone: Zone, schedule: &Schedule, kind: DayKind, minute: u32) -> u32
    ensures value { result ≡ starts_late zone schedule.now kind minute }
    ensures bound { result ≤ 120 }
{
    let (forward, _) = jumps_on(zone, kind);
    if minute != forward {
        return 0;
    }
    let saving = u32::from(zone.saving());
    count_shown(schedule, kind, wall(zone, kind, forward) - saving, saving)
}

/// Whether the wall has shown before what it shows in a minute.
fn is_second(zone: Zone, kind: DayKind, minute: u32) -> bool
    ensures { result ≡ is_second zone kind minute }
{
    let (_, back) = jumps_on(zone, kind);
    back <= minute && minute < back + u32::from(zone.saving())
}

impl Zone {
    /// Returns how often cron(8) starts a command in a minute, from 0, of a day of this kind of the
    /// plan's clock: a line whose minute or hour field begins with `*` once where it matches the
    /// wall. Any other line then too, but not in a minute that the wall shows again. In the first
    /// minute after a jump forward it also starts once for each minute that was jumped over.
    #[tactic(auto, unfolding(crate::specs::Starts::starts))]
    pub fn starts(self, schedule: &Schedule, kind: DayKind, minute_of_day: u16) -> u32
        requires { minute_of_day < 1440 }
        ensures value { result ≡ starts_on self schedule.now kind minute_of_day }
        ensures bound { result ≤ 121 }
    {
        let minute = minute_on(kind, minute_of_day);
        let is_shown = is_shown(schedule, kind, wall(self, kind, minute));
        if is_by_wall(schedule) {
            return u32::from(is_shown);
        }
        let now = u32::from(is_shown && !is_second(self, kind, minute));
        now + starts_late(self, schedule, kind, minute)
    }
}
