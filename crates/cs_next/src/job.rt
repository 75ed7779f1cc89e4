//! When a job starts on one day.
ghost use Rattle.std.specs.Prelude.{◌≡◌, ◌≤◌, ◌/◌};
ghost use Rattle.cs_zone.specs.Zone.{no_zone};
ghost use Rattle.cs_windows.specs.Occupied.{job_of};
ghost use Rattle.cs_next.specs.Next.{catch_up, caught_up, comes_after, comes_monthly};
ghost use Rattle.cs_next.specs.Next.{job_starts, line_starts};

use cs_anacrontab::{DayCount, Job, Period};
use cs_civil::{Day, MINUTES_OF_DAY, Minute, kind_of};
use cs_crontab::{Line, When};
use cs_windows::Occupied;
use cs_zone::Zone;

/// The minute of a day at which an anacron job starts, if it does, counted from a minute on; 1,440
/// if it doesn't.
fn catch_up(comes: bool, from: Minute, day: Day) -> u16
    ensures { result ≡ catch_up comes from day }
{
    if !comes {
        return MINUTES_OF_DAY;
    }
    if day == from.day() {
        from.minute_of_day()
    } else {
        0
    }
}

fn caught_up<'a>(comes: bool, from: Minute, day: Day) -> Occupied<'a>
    ensures { job_of result ≡ caught_up comes from day }
{
    Occupied::CatchUp {
        from: catch_up(comes, from, day),
        reach: 1,
    }
}

fn comes_after(count: DayCount, first: Day, day: Day) -> bool
    requires { first ≤ day }
    ensures { result ≡ comes_after count first day }
{
    (day.number() - first.number()) % u64::from(count.number()) == 0
}

fn comes_monthly(first: Day, day: Day) -> bool
    ensures { result ≡ comes_monthly first day }
{
    day == first || kind_of(day).dom() == 1
}

/// The minutes of a day at which a line of the crontab starts, as windows of a minute.
pub(crate) fn line_starts<'a>(
    line: &'a Line,
    none: &'a Zone,
    from: Minute,
    day: Day,
) -> Occupied<'a>
    requires { none.now ≡ no_zone }
    ensures { job_of result ≡ line_starts from day line.now }
{
    match line.when() {
        When::At(schedule) => Occupied::Cron {
            schedule,
            zone: none,
            reach: 1,
        },
        When::Reboot => caught_up(false, from, day),
    }
}

/// The same of an anacron job, as if it had never run before the first day.
pub(crate) fn job_starts<'a>(job: &'a Job, from: Minute, day: Day) -> Occupied<'a>
    requires { from / 1440 ≤ day }
    ensures { job_of result ≡ job_starts from day job.now }
{
    let comes = match job.period() {
        Period::Days(count) => comes_after(count, from.day(), day),
        Period::Monthly => comes_monthly(from.day(), day),
    };
    caught_up(comes, from, day)
}
