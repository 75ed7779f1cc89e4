//! Finds a line that cron(8) starts more than once in a minute, by the clock of a zone.
ghost use Rattle.std.specs.Prelude.{◌≡◌, IfOk, option_map};
ghost use Rattle.std.specs.List.{find, list_any};
ghost use Rattle.cs_decl.specs.Faults.{first_fault};
ghost use Rattle.cs_decl.specs.Join.{zone_of};
ghost use Rattle.cs_decl.specs.TwiceStarted.{AreAll, is_twice_at, starts_twice, starts_twice_at};
ghost use Rattle.cs_decl.specs.TwiceStarted.{twice_started};

use crate::clock::zone_of;
use crate::entries::Entries;
use crate::forward::{Start, forward_on};
use cs_civil::{Sequence, all_kinds};
use cs_crontab::{Line, Schedule, When};
use cs_plan::{DeclFault, Found, Place};
use cs_zone::Zone;
use std::alloc::{AllocError, Global};

/// The minutes in which clocks have just gone forward; none without summer time.
fn starts_after_jumps(alloc: Global, zone: Zone) -> Result<Sequence<Start>, AllocError>
    ensures { IfOk result (λ starts. AreAll zone starts) }
{
    let mut starts = Sequence::new(alloc);
    if zone.saving() == 0 {
        return Ok(starts);
    }
    for kind in all_kinds() {
        if let Some(minute) = forward_on(zone, kind) {
            starts.push(Start { kind, minute })?;
        }
    }
    Ok(starts)
}

fn is_twice(zone: Zone, schedule: &Schedule, starts: &[Start]) -> bool
    ensures { result ≡ list_any (is_twice_at zone schedule.now) starts.now }
{
    for start in starts {
        if zone.starts(schedule, start.kind, start.minute) > 1 {
            return true;
        }
    }
    false
}

fn starts_twice(zone: Zone, starts: &[Start], line: &Line) -> bool
    ensures { result ≡ starts_twice_at zone starts.now line.now.when }
{
    match line.when() {
        When::At(schedule) => is_twice(zone, schedule, starts),
        When::Reboot => false,
    }
}

fn first_twice<'l>(zone: Zone, starts: &[Start], lines: &'l [Line]) -> Option<&'l Line>
    ensures { option_map (λ l. l.now) result
        ≡ find (λ line. starts_twice_at zone starts.now line.when) lines.now }
{
    lines.iter().find(|line| starts_twice(zone, starts, line))
}

/// Returns the number of the first line that cron(8) starts more than once in a minute by the clock
/// of the entries' zone; `None` if there is none, or no zone. Memory may run out.
pub fn line_started_twice(
    alloc: Global,
    entries: &Entries,
    lines: &[Line],
) -> Result<Option<u32>, AllocError>
    ensures { IfOk result (λ number. number ≡ option_map (λ l. l.number)
        (find (λ line. starts_twice (zone_of entries.now) line.when) lines.now)) }
{
    let zone = zone_of(entries);
    let starts = starts_after_jumps(alloc, zone)?;
    match first_twice(zone, starts.as_slice(), lines) {
        Some(line) => Ok(Some(line.number())),
        None => Ok(None),
    }
}

#[tactic(auto, unfolding(crate::specs::TwiceStarted::twice_started))]
pub(crate) fn twice_started(
    alloc: Global,
    entries: &Entries,
    lines: &[Line],
) -> Result<Option<Found>, AllocError>
    ensures { IfOk result
        (λ f. f ≡ first_fault (twice_started (zone_of entries.now) lines.now)) }
{
    match line_started_twice(alloc, entries, lines)? {
        Some(number) => Ok(Some((DeclFault::StartsTwice, Some(Place::Line(number))))),
        None => Ok(None),
    }
}
