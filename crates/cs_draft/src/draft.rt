//! Declarations that are drawn up for tables, and read back.
ghost use Rattle.std.specs.Prelude.{◌≡◌, IfOk, IfSome, is_some};
ghost use Rattle.cs_draft.specs.Draft.{IsUpdate, Warn, draft_base, has_twice_started, nothing};

use crate::confirm::is_update;
use crate::old::Old;
use crate::sheet::Asked;
use crate::updated::updated_text;
use cs_anacrontab::Anacrontab;
use cs_civil::{Bytes, MINUTES_OF_DAY, Sequence};
use cs_crontab::{Crontab, Line};
use cs_decl::{Entries, line_started_twice};
use cs_json::{Misread, parse};
use cs_place::Place;
use cs_plan::{MAX_CAPACITY, copy_name};
use cs_retrace::Given;
use std::alloc::{AllocError, Global};

/// Returns old declarations brought up to date with both tables, and what an operator has to know
/// of them, in lines that begin with `warning: ` or `note: `.
///
/// A command keeps its entry, wherever its line is now. Among several lines of one command, an
/// entry that gives a schedule belongs to the line of that schedule; entries without one belong to
/// the lines in their order, if there are as many of both; a last entry belongs to the last line.
/// If one entry is left over and one command is new, the command takes it over where `may_follow`
/// allows it and the lock is the same. New jobs are declared as by [`draw_up`], which names the line
/// that starts `twice`, if any. None where the text, read back, isn't an update: a new line may
/// start more than once in a minute by the zone; else it should never happen.
pub(crate) fn update(
    alloc: Global,
    table: &Crontab,
    jobs: &Anacrontab,
    places: &[Place],
    entries: &Entries,
    bytes: &[u8],
    max: u64,
    given: &[Given],
    remarks: &[u8],
    is_draft: bool,
    twice: Option<u32>,
) -> Result<Option<(Bytes, Bytes)>, AllocError>
    ensures { IfOk result (λ found. IfSome found (λ drawn. IsUpdate table.now jobs.now places.now
        entries.now max given.now drawn.0 × Warn table.now jobs.now entries.now drawn.0 drawn.1)) }
{
    let value = match parse(alloc, bytes) {
        Ok(value) => value,
        Err(Misread::Memory) => return Err(AllocError),
        Err(Misread::Fault(_)) => return Ok(None),
    };
    let old = Old {
        value: &value,
        entries,
        is_draft,
        twice,
    };
    let lines = table.lines();
    let asked = Asked {
        lines,
        places,
        max,
        given,
    };
    let (text, told) = updated_text(alloc, asked, jobs, old, remarks)?;
    let (text, told) = (Bytes::from_vec(text), Bytes::from_vec(told));
    let (new, warnings) = (text.as_slice(), told.as_slice());
    if is_update(
        alloc, table, jobs, places, entries, max, given, new, warnings,
    )? {
        return Ok(Some((text, told)));
    }
    Ok(None)
}

/// No job is declared yet; clocks go by the zone, or are `offset` minutes ahead of UTC.
fn nothing(alloc: Global, offset: i16, zone: &Option<Bytes>) -> Result<Entries, AllocError>
    ensures { IfOk result (λ d. d ≡ nothing offset zone.now) }
{
    Ok(Entries {
        capacity: i128::from(MAX_CAPACITY),
        offset: if zone.is_some() {
            0
        } else {
            i128::from(offset)
        },
        zone: copy_name(alloc, zone)?,
        hours: (0, i128::from(MINUTES_OF_DAY)),
        pass: None,
        groups: Sequence::new(alloc),
        cron: Sequence::new(alloc),
        anacron: Sequence::new(alloc),
        default: None,
        left_out: Sequence::new(alloc),
        doubled: None,
    })
}

/// What a draft is an update of, and the line that starts more than once in a minute by the zone,
/// if any: then clocks don't go by it.
fn draft_base(
    alloc: Global,
    lines: &[Line],
    offset: i16,
    zone: &Option<Bytes>,
) -> Result<(Entries, Option<u32>), AllocError>
    ensures { IfOk result (λ base. base.0 ≡ draft_base lines.now offset zone.now) }
{
    let by_zone = nothing(alloc, offset, zone)?;
    match line_started_twice(alloc, &by_zone, lines)? {
        Some(number) => Ok((nothing(alloc, offset, &None)?, Some(number))),
        None => Ok((by_zone, None)),
    }
}

/// The same as JSON.
fn base_text(alloc: Global, base: &Entries) -> Result<String, AllocError> {
    if let Some(rule) = &base.zone {
        // a rule is plain ASCII
        let rule = str::from_utf8(rule.as_slice()).unwrap_or("");
        return format!(in alloc; "{{\"capacity\": {MAX_CAPACITY}, \"zone\": \"{rule}\"}}");
    }
    let offset = base.offset;
    if offset == 0 {
        return format!(in alloc; "{{\"capacity\": {MAX_CAPACITY}}}");
    }
    format!(in alloc; "{{\"capacity\": {MAX_CAPACITY}, \"offset\": {offset}}}")
}

/// Returns declarations for the jobs of both tables: an update of nothing. `max` and `offset` are
/// minutes; clocks go by the zone (POSIX, TZ), or are ahead of UTC by `offset` if there is none or
/// a line would start more than once in a minute by it, which is warned of.
///
/// A job may run for `max` minutes, or as long as timeout(1) lets the whole command run; a command
/// at most to its next due minute, a gathered one by equal shares for its parts. A time is a guess
/// unless timeout(1) or `given` sets it. A plain call of flock(1), after settings, guards and
/// nice(1), gets the lock file's group and the mode of its options; other commands that name a
/// program that locks files get a warning, and `@reboot` lines go to `left_out`, each with a
/// warning.
pub(crate) fn draw_up(
    alloc: Global,
    table: &Crontab,
    jobs: &Anacrontab,
    places: &[Place],
    max: u64,
    given: &[Given],
    remarks: &[u8],
    offset: i16,
    zone: &Option<Bytes>,
) -> Result<Option<(Bytes, Bytes)>, AllocError>
    ensures { IfOk result (λ found. IfSome found (λ drawn. IsUpdate table.now jobs.now places.now
        (draft_base table.now.lines offset zone.now) max given.now drawn.0
        × Warn table.now jobs.now (draft_base table.now.lines offset zone.now) drawn.0 drawn.1)) }
{
    let (old, twice) = draft_base(alloc, table.lines(), offset, zone)?;
    let text = base_text(alloc, &old)?;
    let bytes = text.as_bytes();
    update(
        alloc, table, jobs, places, &old, bytes, max, given, remarks, true, twice,
    )
}
