//! The answer of `day`.
ghost use Rattle.std.specs.Prelude.{◌≡◌, ◌++◌, ◌-◌, ◌*◌, ◌≤◌, OnOk, [], ◌∷◌, flat_map};
ghost use Rattle.cs_show.specs.DayText.{catch_up_text, clock, date_line, days_apart, due_text, end_text, identifier_line, job_text, reboot_text, start_text, weekday_part, window_text};

use cs_civil::{Day, Hours, day_text, four_days, kind_of, weekday_name};
use cs_schedule::Schedule;
use cs_windows::{Occupied, Window, windows_on};
use cs_zone::Zone;
use std::alloc::{AllocError, Global};

/// Adds `HH:MM` of a minute of a day.
#[tactic(auto, unfolding(crate::specs::DayText::clock))]
pub fn add_clock(text: &mut Vec<u8>, minute: u16) -> Result<(), AllocError>
    ensures { OnOk result (text.new.items ≡ text.old.items ++ clock minute) }
{
    let hour = minute / 60;
    let rest = minute % 60;
    text.extend_from_slice([
        b'0' + (hour / 10) as u8,
        b'0' + (hour % 10) as u8,
        b':',
        b'0' + (rest / 10) as u8,
        b'0' + (rest % 10) as u8,
    ]
    .as_slice())?;
    Ok(())
}

/// Adds that a day is so many days before or after another one; nothing for none.
#[tactic(auto, unfolding(crate::specs::DayText::days_apart))]
pub fn add_days_apart(
    alloc: Global,
    text: &mut Vec<u8>,
    days: u64,
    side: &str,
) -> Result<(), AllocError>
    ensures { OnOk result (text.new.items ≡ text.old.items ++ days_apart days side.now) }
{
    let apart = match days {
        0 => return Ok(()),
        1 => format!(in alloc; " the day {side}")?,
        _ => format!(in alloc; " {days} days {side}")?,
    };
    text.extend_from_slice(apart.as_bytes())?;
    Ok(())
}

#[tactic(auto, using(crate::proofs::TextLemmas::two_parts), unfolding(crate::specs::DayText::end_text))]
fn add_end(alloc: Global, text: &mut Vec<u8>, end: u32) -> Result<(), AllocError>
    ensures { OnOk result (text.new.items ≡ text.old.items ++ end_text end) }
{
    if end <= 1_440 {
        return add_clock(text, end as u16);
    }
    add_clock(text, (end % 1_440) as u16)?;
    add_days_apart(alloc, text, u64::from(end / 1_440), "after")
}

#[tactic(auto, using(crate::proofs::TextLemmas::two_parts), unfolding(crate::specs::DayText::start_text))]
fn add_start(alloc: Global, text: &mut Vec<u8>, window: &Window) -> Result<(), AllocError>
    ensures { OnOk result (text.new.items ≡ text.old.items ++ start_text window.now) }
{
    add_clock(text, window.from)?;
    add_days_apart(alloc, text, u64::from(window.day_back), "before")
}

#[tactic(auto, unfolding(crate::specs::DayText::window_text))]
fn add_window(alloc: Global, text: &mut Vec<u8>, window: &Window) -> Result<(), AllocError>
    ensures { OnOk result (text.new.items ≡ text.old.items ++ window_text window.now) }
{
    text.extend_from_slice(b"  ".as_slice())?;
    add_start(alloc, text, window)?;
    text.extend_from_slice(b" to ".as_slice())?;
    let end = u32::from(window.from) + u32::from(window.reach);
    add_end(
        alloc,
        text,
        end.saturating_sub(1_440 * u32::from(window.day_back)),
    )?;
    text.push(b'\n')?;
    Ok(())
}

fn add_windows(alloc: Global, text: &mut Vec<u8>, windows: &[Window]) -> Result<(), AllocError>
    ensures { OnOk result (text.new.items ≡ text.old.items ++ flat_map window_text windows.now) }
{
    for window in windows {
        add_window(alloc, text, window)?;
    }
    Ok(())
}

/// Adds how often a line is due.
#[tactic(auto, unfolding(crate::specs::DayText::due_text))]
pub fn add_due(alloc: Global, text: &mut Vec<u8>, number: u32, due: usize) -> Result<(), AllocError>
    ensures { OnOk result (text.new.items ≡ text.old.items ++ due_text number due) }
{
    text.extend_from_slice(format!(in alloc; "line {number}: due {due}\n")?.as_bytes())
}

/// Adds the lines of a command: how often it is due, and the windows of its runs.
#[tactic(auto, using(crate::proofs::TextLemmas::two_parts), unfolding(crate::specs::DayText::job_text))]
pub fn add_job(
    alloc: Global,
    text: &mut Vec<u8>,
    number: u32,
    schedule: &Schedule,
    day: Day,
    max: u16,
) -> Result<(), AllocError>
    requires { 3 ≤ day }
    ensures { OnOk result
        (text.new.items ≡ text.old.items ++ job_text day max number schedule.now) }
{
    let due = Zone::none().minutes_of(schedule, kind_of(day)).len();
    add_due(alloc, text, number, due)?;
    let zone = Zone::none();
    let occupied = [Occupied::Cron {
        schedule,
        zone: &zone,
        reach: max,
    }];
    let windows = windows_on(alloc, occupied.as_slice(), four_days(day).as_slice())?;
    add_windows(alloc, text, windows.as_slice())
}

/// Adds that a line is due when the machine starts.
#[tactic(auto, unfolding(crate::specs::DayText::reboot_text))]
pub fn add_reboot(alloc: Global, text: &mut Vec<u8>, number: u32) -> Result<(), AllocError>
    ensures { OnOk result (text.new.items ≡ text.old.items ++ reboot_text number) }
{
    text.extend_from_slice(format!(in alloc; "line {number}: at reboot\n")?.as_bytes())
}

fn add_identifier(text: &mut Vec<u8>, identifier: &[u8]) -> Result<(), AllocError>
    ensures { OnOk result (text.new.items ≡ text.old.items ++ identifier_line identifier.now) }
{
    text.extend_from_slice(b"job ".as_slice())?;
    text.extend_from_slice(identifier)?;
    text.extend_from_slice(b": catch-up\n".as_slice())?;
    Ok(())
}

/// Adds the lines of an anacron job: the windows in which catch-up may occupy the machine.
#[tactic(auto, using(crate::proofs::TextLemmas::two_parts), unfolding(crate::specs::DayText::catch_up_text))]
pub fn add_catch_up(
    alloc: Global,
    text: &mut Vec<u8>,
    identifier: &[u8],
    hours: Hours,
    day: Day,
    max: u16,
) -> Result<(), AllocError>
    requires day { 3 ≤ day }
    requires max { (1 ≤ max) × (max ≤ 4_320) }
    ensures { OnOk result (text.new.items
        ≡ text.old.items ++ catch_up_text day max hours.from hours.to identifier.now) }
{
    add_identifier(text, identifier)?;
    let from = hours.from();
    let occupied = [Occupied::CatchUp {
        from,
        reach: hours.to() + max - 1 - from,
    }];
    let windows = windows_on(alloc, occupied.as_slice(), four_days(day).as_slice())?;
    add_windows(alloc, text, windows.as_slice())
}

/// Adds the line of the date, with its weekday.
#[tactic(auto, using(crate::proofs::TextLemmas::two_parts), unfolding(crate::specs::DayText::date_line, crate::specs::DayText::weekday_part))]
pub fn add_date(text: &mut Vec<u8>, day: Day) -> Result<(), AllocError>
    ensures { OnOk result (text.new.items ≡ text.old.items ++ date_line day) }
{
    text.extend_from_slice(day_text(day).as_slice())?;
    text.push(b' ')?;
    text.extend_from_slice(weekday_name(kind_of(day).dow()).as_bytes())?;
    text.push(b'\n')?;
    Ok(())
}
