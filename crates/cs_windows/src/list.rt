ghost use Rattle.std.specs.Prelude.{◌≡◌, ℕ, [], ◌∷◌, ◌+◌, ◌*◌, ◌<◌, ◌≤◌, ◌++◌, ◌↔◌, List, IfOk, OnOk, Contains, filter, length, map};
ghost use Rattle.cs_civil.specs.Calendar.{Kind};
ghost use Rattle.cs_windows.specs.Links.{AreBegun};
ghost use Rattle.cs_windows.specs.Occupied.{job_of};
ghost use Rattle.cs_windows.specs.Window.{IsRising, reaches};
ghost use Rattle.cs_windows.specs.Windows.{IsWindowOn, Job, windows_from, windows_on};

use crate::job_windows::Occupied;
use crate::links::{Link, MINUTES, add_linked, link_block};
use crate::window::{Window, first_minute, may_reach};
use cs_civil::{DayKind, MINUTES_OF_DAY};
use cs_schedule::MINUTES_OF_BLOCK;
use std::alloc::{AllocError, Global};

/// The most jobs that windows can name.
pub const MOST_OCCUPIED: usize = 65_536;

const BLOCKS_OF_DAY: u16 = MINUTES_OF_DAY / MINUTES_OF_BLOCK;

/// Returns a block of minutes before which no window of that reach begins that reaches the day.
fn first_block(day_back: u8, reach: u16) -> u16
    ensures { (minute : ℕ) → minute < MINUTES_OF_BLOCK * result
        → minute + reach ≤ MINUTES_OF_DAY * day_back }
{
    let begins = (first_minute(day_back) + 1).saturating_sub(u32::from(reach));
    (begins / u32::from(MINUTES_OF_BLOCK)) as u16
}

/// Links the windows of one job, of which each comes before those of later jobs.
fn link_starts(
    links: &mut Vec<Link>,
    firsts: &mut [usize; MINUTES],
    job: u16,
    own: &Occupied<'_>,
    day: DayKind,
    day_back: u8,
) -> Result<(), AllocError>
    ensures { OnOk result ((jobs : List (Job Kind))
        → AreBegun links.old.items firsts.old day day_back (job + 1) jobs
        → AreBegun links.new.items firsts.new day day_back job (job_of own.now ∷ jobs)) }
{
    let reach = own.reach();
    if !may_reach(day_back, reach) {
        return Ok(());
    }
    let starts = own.starts_on(day);
    for block in first_block(day_back, reach)..BLOCKS_OF_DAY {
        let first = Window {
            job,
            day_back,
            from: MINUTES_OF_BLOCK * block,
            reach,
        };
        link_block(links, firsts, first, starts.bits_of_block(block))?;
    }
    Ok(())
}

fn link_jobs(
    links: &mut Vec<Link>,
    firsts: &mut [usize; MINUTES],
    occupied: &[Occupied<'_>],
    day: DayKind,
    day_back: u8,
) -> Result<(), AllocError>
    requires few { length occupied.now ≤ MOST_OCCUPIED }
    requires none { AreBegun links.old.items firsts.old day day_back (length occupied.now) [] }
    ensures { OnOk result
        (AreBegun links.new.items firsts.new day day_back 0 (map job_of occupied.now)) }
{
    for job in (0..occupied.len()).rev() {
        link_starts(links, firsts, job as u16, &occupied[job], day, day_back)?;
    }
    Ok(())
}

fn add_day(
    alloc: Global,
    windows: &mut Vec<Window>,
    occupied: &[Occupied<'_>],
    day: DayKind,
    day_back: u8,
) -> Result<(), AllocError>
    requires { length occupied.now ≤ MOST_OCCUPIED }
    ensures { OnOk result (windows.new.items
        ≡ windows.old.items
        ++ filter reaches (windows_from (map job_of occupied.now) day day_back)) }
{
    let mut links = Vec::new(alloc);
    let mut firsts = [0; MINUTES];
    link_jobs(&mut links, &mut firsts, occupied, day, day_back)?;
    for first in &firsts {
        add_linked(windows, &links, *first)?;
    }
    Ok(())
}

/// Returns the windows that begin on successive days, given eldest first, and reach the last of
/// them, by start, then job.
///
/// A window of an earlier day is listed if it reaches the last day: midnight ends none. A window of
/// reach 0 holds no minute and is never listed. Four days are enough for reaches up to 4,320
/// minutes; windows of a longer reach that began before the first given day are missing. The only
/// error is out of memory.
pub fn windows_on(
    alloc: Global,
    occupied: &[Occupied<'_>],
    days: &[DayKind],
) -> Result<Vec<Window>, AllocError>
    requires days { length days.now ≤ 4 }
    requires few { length occupied.now ≤ MOST_OCCUPIED }
    ensures listed { IfOk result (λ windows.
        windows.items ≡ windows_on (map job_of occupied.now) days.now) }
    ensures rising { IfOk result (λ windows. IsRising windows.items) }
    ensures exact { IfOk result (λ windows.
        (w : Window) → Contains windows.items w ↔ IsWindowOn (map job_of occupied.now) days.now w) }
{
    let mut windows = Vec::new(alloc);
    for (place, day) in days.iter().enumerate() {
        let day_back = (days.len() - 1 - place) as u8;
        add_day(alloc, &mut windows, occupied, *day, day_back)?;
    }
    Ok(windows)
}
