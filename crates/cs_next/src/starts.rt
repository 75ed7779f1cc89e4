//! The starts of all jobs from a minute on.
ghost use Rattle.std.specs.Prelude.{◌≡◌, ◌++◌, ◌+◌, ◌≤◌, ◌/◌, IfOk, OnOk, length, map};
ghost use Rattle.std.specs.List.{filter_map};
ghost use Rattle.cs_zone.specs.Zone.{no_zone};
ghost use Rattle.cs_windows.specs.Occupied.{job_of};
ghost use Rattle.cs_windows.specs.declared.list.TheConstants.{MOST_OCCUPIED};
ghost use Rattle.cs_next.specs.Next.{next_starts, start_of, starts_of_day, starts_on};

use crate::job::{job_starts, line_starts};
use cs_anacrontab::Job;
use cs_civil::{Day, LAST_MINUTE, MINUTES_OF_DAY, Minute, kind_of};
use cs_crontab::Line;
use cs_windows::{MOST_OCCUPIED, Occupied, Window, windows_on};
use cs_zone::Zone;
use std::alloc::{AllocError, Global};

/// 28 years, in which each sequence of days begins.
const DAYS: u64 = 10_228;

/// A start of a job.
#[derive(Clone, Copy)]
pub(crate) struct Start {
    /// When.
    pub(crate) minute: Minute,
    /// The number of the job among those of both tables.
    pub(crate) job: u16,
}

fn start_of(from: Minute, day: Day, window: &Window) -> Option<Start>
    ensures { result ≡ start_of from day window.now }
{
    let number = u64::from(MINUTES_OF_DAY) * day.number() + u64::from(window.from);
    if number < from.number() || LAST_MINUTE < number {
        return None;
    }
    Some(Start {
        minute: Minute::new(number).unwrap(),
        job: window.job,
    })
}

fn add_starts(
    starts: &mut Vec<Start>,
    from: Minute,
    day: Day,
    windows: &[Window],
) -> Result<(), AllocError>
    ensures { OnOk result (starts.new.items
        ≡ starts.old.items ++ filter_map (start_of from day) windows.now) }
{
    for window in windows {
        if let Some(start) = start_of(from, day, window) {
            starts.push(start)?;
        }
    }
    Ok(())
}

fn occupied_on<'a>(
    alloc: Global,
    lines: &'a [Line],
    jobs: &'a [Job],
    none: &'a Zone,
    from: Minute,
    day: Day,
) -> Result<Vec<Occupied<'a>>, AllocError>
    requires day { from / 1440 ≤ day }
    requires zone { none.now ≡ no_zone }
    ensures { IfOk result (λ occupied.
        map job_of occupied.items ≡ starts_on from day lines.now jobs.now) }
{
    let mut occupied = Vec::new(alloc);
    for line in lines {
        occupied.push(line_starts(line, none, from, day))?;
    }
    for job in jobs {
        occupied.push(job_starts(job, from, day))?;
    }
    Ok(occupied)
}

fn add_day(
    alloc: Global,
    starts: &mut Vec<Start>,
    lines: &[Line],
    jobs: &[Job],
    from: Minute,
    day: Day,
) -> Result<(), AllocError>
    requires first { from / 1440 ≤ day }
    requires few { length lines.now + length jobs.now ≤ MOST_OCCUPIED }
    ensures { OnOk result (starts.new.items
        ≡ starts.old.items ++ starts_of_day from lines.now jobs.now day) }
{
    let none = Zone::none();
    let occupied = occupied_on(alloc, lines, jobs, &none, from, day)?;
    let windows = windows_on(alloc, occupied.as_slice(), &[kind_of(day)])?;
    add_starts(starts, from, day, windows.as_slice())
}

/// The first starts from a minute on, so many if there are as many in 28 years.
pub(crate) fn next_starts(
    alloc: Global,
    lines: &[Line],
    jobs: &[Job],
    from: Minute,
    count: usize,
) -> Result<Vec<Start>, AllocError>
    requires { length lines.now + length jobs.now ≤ MOST_OCCUPIED }
    ensures { IfOk result (λ starts. starts.items ≡ next_starts lines.now jobs.now from count) }
{
    let mut starts = Vec::new(alloc);
    let mut number = from.day().number();
    let end = (number + DAYS).min(LAST_MINUTE / u64::from(MINUTES_OF_DAY) + 1);
    while number < end && starts.len() < count {
        let day = Day::new(number).unwrap();
        add_day(alloc, &mut starts, lines, jobs, from, day)?;
        number += 1;
    }
    starts.truncate(count);
    Ok(starts)
}
