ghost use Rattle.std.specs.Prelude.{◌≡◌, ◌<◌, ◌≤◌, ◌&&◌, ◌||◌, ℕ, Bool, true};
ghost use Rattle.cs_schedule.specs.Minutes.{minutes_where};
ghost use Rattle.cs_schedule.specs.Numbers.{has};
ghost use Rattle.cs_schedule.specs.Times.{Times, is_day_due, is_time_due};
ghost use Rattle.cs_zone.specs.Starts.{is_due};
ghost use Rattle.cs_zone.specs.Zone.{IsZone};
ghost use Rattle.cs_zone.specs.Shape.{is_due_in, is_due_shifted, shape_of, is_plain, is_shifted, neighbour, turn};

use crate::starts::jumps_on;
use crate::wall::{kind_on, march_day, year_of};
use crate::zone::Zone;
use cs_civil::DayKind;
use cs_schedule::{MinuteSet, Schedule};

/// Whether the wall shows the plan's clock all day, or another one all day, and no jump is near.
fn clocks(zone: Zone, kind: DayKind) -> (bool, bool)
    ensures plain { result.0 ≡ is_plain zone kind }
    ensures shifted { result.1 ≡ is_shifted zone kind }
{
    let day = march_day(kind);
    let leaves = u32::from(zone.leaves().earliest());
    let returns = u32::from(zone.returns().earliest());
    if day < leaves || day > returns + 8 {
        return (true, false);
    }
    if day > leaves + 7 && day + 1 < returns {
        return (false, true);
    }
    let year = year_of(zone, kind);
    let saving = u32::from(zone.saving());
    let start = 1_440 * day;
    (
        start + 1_440 <= year.leaving || year.returning + saving <= start,
        year.leaving + saving <= start && start + 1_440 <= year.returning,
    )
}

fn turn(zone: Zone) -> u16
    ensures value { result ≡ turn zone }
    ensures bound { result ≤ 1440 }
    ensures zone { IsZone zone }
{
    let saving = u16::from(zone.saving());
    if zone.is_ahead() {
        saving
    } else {
        1_440 - saving
    }
}

/// The minutes of a day on which the wall is shifted. The fields list the day that it shows at the
/// same time if `same` says so, and the other one if `other` does.
fn shifted(zone: Zone, schedule: &Schedule, same: bool, other: bool) -> MinuteSet
    ensures value { result ≡ minutes_where (is_due_shifted zone schedule.now same other) }
    ensures zone { IsZone zone }
{
    let turn = turn(zone);
    let (below, above) = if zone.is_ahead() {
        (other, same)
    } else {
        (same, other)
    };
    let from = if below { 0 } else { turn };
    let to = if above { 1_440 } else { turn };
    schedule.times_shown(turn, from, to)
}

/// Adds those of these minutes that are due.
fn search(zone: Zone, schedule: &Schedule, kind: DayKind, near: &MinuteSet, minutes: &mut MinuteSet)
    requires { (test : ℕ → Bool) × (near.now ≡ minutes_where test) }
    ensures { (test : ℕ → Bool) → minutes.old ≡ minutes_where test
        → minutes.new
        ≡ minutes_where (λ m. test m || (has near.now m && is_due zone schedule.now kind m)) }
{
    for minute in near.iter() {
        if !minutes.has(minute) && zone.starts(schedule, kind, minute) > 0 {
            minutes.insert(minute);
        }
    }
}

/// The minutes of a day on which a jump is near. Only the first minute after the jump forward is
/// looked at, and those in which the plan's clock or the shifted one shows a time that is listed.
fn searched(zone: Zone, schedule: &Schedule, kind: DayKind) -> MinuteSet
    ensures { result ≡ minutes_where (is_due zone schedule.now kind) }
{
    let (forward, _) = jumps_on(zone, kind);
    let mut shown = shifted(zone, schedule, true, true);
    shown.insert((forward % 1_440) as u16);
    let mut minutes = MinuteSet::new();
    search(zone, schedule, kind, &schedule.times(), &mut minutes);
    search(zone, schedule, kind, &shown, &mut minutes);
    minutes
}

/// How the minutes of a day come from the fields.
#[derive(Clone, Copy)]
pub enum Shape {
    /// No minute is due.
    Never,
    /// The wall shows the plan's clock: those at which the fields list the time.
    Plain,
    /// The wall shows another clock, and the day that it shows at the same time is listed.
    Same,
    /// The wall shows another clock, and the other day that it shows is listed.
    Other,
    /// The wall shows another clock, and both days that it shows are listed.
    Both,
    /// A jump is near.
    Jump,
}

impl Zone {
    /// Whether cron(8) starts a command in this minute, from 0, of a day of this kind of the plan's
    /// clock.
    #[tactic(auto, using(crate::proofs::Comings::still))]
    pub fn is_due_on(self, schedule: &Schedule, kind: DayKind, minute_of_day: u16) -> bool
        requires { minute_of_day < 1440 }
        ensures { result ≡ is_due self schedule.now kind minute_of_day }
    {
        if self.saving() == 0 {
            return schedule.is_due_on(kind, minute_of_day);
        }
        self.starts(schedule, kind, minute_of_day) > 0
    }

    /// Returns how the due minutes of a day of this kind come from the fields.
    pub fn shape_of(self, schedule: &Schedule, kind: DayKind) -> Shape
        ensures { result ≡ shape_of self schedule.now kind }
    {
        let is_day = schedule.is_day_due(kind);
        let (is_plain, is_shifted) = clocks(self, kind);
        if is_plain {
            return if is_day { Shape::Plain } else { Shape::Never };
        }
        if !is_shifted {
            return Shape::Jump;
        }
        match (is_day, schedule.is_day_due(neighbour(self, kind))) {
            (false, false) => Shape::Never,
            (true, false) => Shape::Same,
            (false, true) => Shape::Other,
            (true, true) => Shape::Both,
        }
    }

    /// Returns the due minutes of the days of a shape; none if a jump is near.
    #[tactic(auto, using(crate::proofs::Collecting::never))]
    pub fn minutes_in(self, schedule: &Schedule, shape: Shape) -> MinuteSet
        ensures { result ≡ minutes_where (is_due_in self schedule.now shape) }
    {
        match shape {
            Shape::Never | Shape::Jump => MinuteSet::new(),
            Shape::Plain => schedule.times(),
            Shape::Same => shifted(self, schedule, true, false),
            Shape::Other => shifted(self, schedule, false, true),
            Shape::Both => shifted(self, schedule, true, true),
        }
    }

    /// Returns the due minutes of a day of this kind of the plan's clock.
    #[tactic(auto, using(crate::proofs::Shapes::still_minutes))]
    pub fn minutes_of(self, schedule: &Schedule, kind: DayKind) -> MinuteSet
        ensures { result ≡ minutes_where (is_due self schedule.now kind) }
    {
        if self.saving() == 0 {
            return schedule.minutes_of(kind);
        }
        let _month = kind.month();
        match self.shape_of(schedule, kind) {
            Shape::Jump => searched(self, schedule, kind),
            shape => self.minutes_in(schedule, shape),
        }
    }
}

/// The other day that the wall shows on a day on which it is shifted.
fn neighbour(zone: Zone, kind: DayKind) -> DayKind
    requires { is_shifted zone kind ≡ true }
    ensures { result ≡ neighbour zone kind }
{
    let day = march_day(kind);
    kind_on(kind, if zone.is_ahead() { day + 1 } else { day - 1 })
}
