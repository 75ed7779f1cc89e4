ghost use Rattle.std.specs.Prelude.{◌≡◌, ◌==◌, ℕ, ◌<◌};
ghost use Rattle.cs_schedule.specs.Numbers.{has};

use cs_civil::{DayKind, MINUTES_OF_DAY};
use cs_schedule::{MinuteSet, Schedule};
use cs_zone::Zone;

/// What a job occupies: windows of `reach` minutes, in which its runs may go on.
#[derive(Clone, Copy)]
pub enum Occupied<'a> {
    /// A cron job's begin at each minute at which the schedule is due by the clock of the zone
    /// (`cron(8)`).
    Cron {
        schedule: &'a Schedule,
        zone: &'a Zone,
        reach: u16,
    },
    /// An anacron job's catch-up window begins at minute `from` of each day (`anacron(8)`). There
    /// is none if `from` is 1,440 or more.
    CatchUp {
        from: u16,
        reach: u16,
    },
}

impl Occupied<'_> {
    ghost use Rattle.cs_windows.specs.Occupied.{job_of};

    pub(crate) fn reach(&self) -> u16
        ensures { result ≡ (job_of self.now).lasts }
    {
        match self {
            Occupied::Cron { reach, .. } => *reach,
            Occupied::CatchUp { from: _, reach } => *reach,
        }
    }

    pub(crate) fn starts_on(&self, day: DayKind) -> MinuteSet
        ensures { (minute : ℕ) → minute < MINUTES_OF_DAY
            → has result minute ≡ (job_of self.now).begins day minute }
    {
        match self {
            Occupied::Cron { schedule, zone, .. } => zone.minutes_of(schedule, day),
            Occupied::CatchUp { from, reach: _ } => minutes_at(*from),
        }
    }
}

/// No minute if `from` is 1,440 or more.
fn minutes_at(from: u16) -> MinuteSet
    ensures { (minute : ℕ) → minute < MINUTES_OF_DAY → has result minute ≡ (minute == from) }
{
    let mut minutes = MinuteSet::new();
    if from < MINUTES_OF_DAY {
        minutes.insert(from);
    }
    minutes
}
