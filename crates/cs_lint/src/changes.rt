//! The changes of a zone's clocks.
ghost use Rattle.std.specs.Prelude.{◌≡◌, Err, IfErr, IfSome, IsErr};
ghost use Rattle.jiff_tz.specs.TzifReader.{read_tzif};
ghost use Rattle.cs_files.specs.Trouble.{NoTimeZone, trouble};
ghost use Rattle.cs_files.specs.declared.fault.Fault.TheVariants.{NoZone};
ghost use Rattle.cs_lint.specs.Answer.{IsNoZone};

use cs_civil::Minute;
use cs_files::Fault;
use cs_table::MAX_TABLE;
use jiff_core::{Error, Timestamp};
use jiff_tz::Tzif;
use std::alloc::{AllocError, Global};

/// A change of a zone's clocks: they skip the minutes from `first` to before `end`, or show them
/// twice.
#[derive(Clone, Copy)]
pub(crate) struct Change {
    /// Whether the clocks skip these minutes.
    pub(crate) is_forward: bool,
    pub(crate) first: Minute,
    pub(crate) end: Minute,
}

/// Transitions that are looked at: two years, where there is summer time.
const TRANSITIONS: usize = 4;

/// The first minute that begins at or after this UTC second, by clocks `offset` seconds ahead of
/// UTC; none if it is out of range.
fn minute_from(second: i64, offset: i32) -> Option<Minute> {
    let number = (i128::from(second) + i128::from(offset) + 59).div_euclid(60);
    Minute::new(u64::try_from(number).ok()?)
}

/// The change at a UTC second, by the clocks' offsets before and after it, in seconds; none where
/// no whole minute is skipped or shown twice.
fn change_at(second: i64, before: i32, after: i32) -> Option<Change> {
    let first = minute_from(second, before.min(after))?;
    let end = minute_from(second, before.max(after))?;
    if first >= end {
        return None;
    }
    Some(Change {
        is_forward: before < after,
        first,
        end,
    })
}

fn next_changes(alloc: Global, zone: &Tzif, after: Timestamp) -> Result<Vec<Change>, AllocError> {
    let mut changes = Vec::new(alloc);
    let (mut at, mut before) = (after, zone.to_offset(after).seconds);
    for _step in 0..TRANSITIONS {
        let Some(next) = zone.next_transition(at) else {
            return Ok(changes);
        };
        at = next.timestamp;
        let after = zone.to_offset(at).seconds;
        if let Some(change) = change_at(at.floor_second(), before, after) {
            changes.push(change)?;
        }
        before = after;
    }
    Ok(changes)
}

/// The changes of clocks at a zone's next four transitions after an instant, in order. `zone` is
/// the content of the file at `path` (TZif, RFC 9636).
pub(crate) fn changes_in<'a>(
    alloc: Global,
    path: &'a str,
    zone: &[u8],
    after: Timestamp,
) -> Result<Vec<Change>, Fault<'a>>
    ensures fault { IfErr result (λ fault. IfSome (trouble fault)
        (λ t. (t ≡ NoTimeZone path.now) × IsNoZone zone.now)) }
    ensures refused { IsErr (read_tzif zone.now) → result ≡ Err (NoZone path.entry) }
{
    if zone.len() > MAX_TABLE {
        return Err(Fault::NoZone(path));
    }
    match Tzif::parse(alloc, None, zone) {
        Ok(zone) => Ok(next_changes(alloc, &zone, after)?),
        Err(Error::OutOfMemory) => Err(Fault::OutOfMemory),
        Err(_) => Err(Fault::NoZone(path)),
    }
}
