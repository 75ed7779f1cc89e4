//! How many days the windows of a plan's jobs span.
ghost use Rattle.std.specs.Prelude.{◌≡◌, ◌+◌, ◌*◌, ◌≤◌, ℕ, Bool, ◌==◌, map, nat_le};
ghost use Rattle.std.specs.List.{list_all};
ghost use Rattle.cs_theorem.specs.Accepted.{occupied};
ghost use Rattle.cs_theorem.specs.Faults.{stretch_length};
ghost use Rattle.cs_civil.specs.Calendar.{Kind};
ghost use Rattle.cs_history.specs.Plan.{Plan};
ghost use Rattle.cs_zone.specs.Starts.{is_due};
ghost use Rattle.cs_windows.specs.Occupied.{job_of};
ghost use Rattle.cs_classes.specs.Fitting.{ends_on, job_fits};

use cs_civil::{DayKind, MINUTES_OF_DAY, all_kinds};
use cs_schedule::Schedule;
use cs_windows::Occupied;
use cs_zone::Zone;

fn minutes_of(days: u8) -> u32
    ensures { result ≡ 1440 * days }
{
    u32::from(MINUTES_OF_DAY) * u32::from(days)
}

fn ends_by(minute: u16, reach: u16, end: u32) -> bool
    ensures { result ≡ nat_le (minute + reach) end }
{
    u32::from(minute) + u32::from(reach) <= end
}

fn cron_ends_on(zone: Zone, schedule: &Schedule, reach: u16, days: u8, kind: DayKind) -> bool
    ensures { result
        ≡ ends_on (record { begins = is_due zone schedule.now; lasts = reach }) days kind }
{
    let end = minutes_of(days);
    zone.minutes_of(schedule, kind)
        .iter()
        .all(|minute| ends_by(minute, reach, end))
}

/// A window of at most `days - 1` days and a minute ends in time wherever it begins, so that the
/// kinds of days are searched only for longer ones.
fn cron_fits(zone: Zone, schedule: &Schedule, reach: u16, days: u8) -> bool
    requires { 1 ≤ days }
    ensures { result ≡ job_fits days (record { begins = is_due zone schedule.now; lasts = reach }) }
{
    if u32::from(reach) <= minutes_of(days - 1) + 1 {
        return true;
    }
    all_kinds().all(|kind| cron_ends_on(zone, schedule, reach, days, kind))
}

fn catch_up_fits(from: u16, reach: u16, days: u8) -> bool
    ensures { result
        ≡ job_fits days (record { begins = λ kind minute. minute == from; lasts = reach }) }
{
    if from >= MINUTES_OF_DAY {
        return true;
    }
    ends_by(from, reach, minutes_of(days))
}

fn fits(job: &Occupied, days: u8) -> bool
    requires { 1 ≤ days }
    ensures { result ≡ job_fits days (job_of job.now) }
{
    match job {
        Occupied::Cron {
            schedule,
            zone,
            reach,
        } => cron_fits(**zone, schedule, *reach, days),
        Occupied::CatchUp { from, reach } => catch_up_fits(*from, *reach, days),
    }
}

fn all_fit(jobs: &[Occupied], days: u8) -> bool
    requires { 1 ≤ days }
    ensures { result ≡ list_all (job_fits days) (map job_of jobs.now) }
{
    for job in jobs {
        if !fits(job, days) {
            return false;
        }
    }
    true
}

/// Returns the length of a plan's stretches in days: the least of 2, 3 and 4 that no window
/// outlasts, counted from the start of the day on which it begins, or 4 if there is none.
pub fn stretch_length(jobs: &[Occupied]) -> u8
    ensures range { (2 ≤ result) × (result ≤ 4) }
    ensures value { (p : Plan) (on : ℕ → Kind → ℕ → Bool) (c : ℕ → ℕ)
        → map job_of jobs.now ≡ occupied p on c → result ≡ stretch_length p on c }
{
    if all_fit(jobs, 2) {
        return 2;
    }
    if all_fit(jobs, 3) { 3 } else { 4 }
}
