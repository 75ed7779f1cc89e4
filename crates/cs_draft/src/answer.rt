//! The subcommand `draft`.
ghost use Rattle.std.specs.Prelude.{◌≡◌, ◌≢◌, [], All, IfErr, IfOk, IfSome, IsNone, OnOk, option_map, true};
ghost use Rattle.cs_args.specs.Asked.{asked_draft};
ghost use Rattle.cs_plan.specs.Plain.{is_possible_max};
ghost use Rattle.cs_io.specs.Files.{AreReadInTurn, IsFresh};
ghost use Rattle.cs_files.specs.Asked.{Tells, Warns};
ghost use Rattle.cs_files.specs.Ending.{sink};
ghost use Rattle.cs_files.specs.Trouble.{CameTo, IsHonestOf};
ghost use Rattle.cs_files.specs.Turn.{draft_paths, some_path};
ghost use Rattle.cs_draft.specs.Answer.{FindsDraftable, IsRefused, IsOfTables, PrintsDraft, PrintsUpdate};
ghost use Rattle.cs_draft.specs.Answer.{ReadsOld, ReadsText, entries_in, updated};

use crate::draft::{draw_up, update};
use crate::kept::was_left_out;
use cs_anacrontab::Job;
use cs_args::{DraftWords, WordFault};
use cs_civil::{Bytes, push_number};
use cs_crontab::Line;
use cs_decl::{Declarations, Entries, line_started_twice, read_declarations};
use cs_files::{Fault, Response, Status, Tables, all_bytes_at, declared_fault, find_tables};
use cs_io::{Inputs, Output};
use cs_place::push_shown;
use cs_plan::is_possible_max;
use cs_retrace::{Given, JobName, MaxFault, has_job, read_maxes};
use std::alloc::{AllocError, Global};
use std::slice;

/// A fault of a line of the longest times: `PATH line 3: NAME ..`, the name if the line has one.
fn refused(
    alloc: Global,
    path: &str,
    place: u64,
    name: Option<&JobName>,
    reason: &str,
) -> Result<Response, AllocError>
    ensures { IfOk result IsRefused }
{
    let mut fault = format!(in alloc; "{path} line {place}: ")?.into_bytes();
    if let Some(name) = name {
        push_shown(&mut fault, name.text(alloc)?.as_slice())?;
    }
    fault.extend_from_slice(reason.as_bytes())?;
    Response::fault(alloc, Status::BadInput, b"".as_slice(), fault.as_slice())
}

fn misread(alloc: Global, path: &str, place: u64, fault: &MaxFault) -> Result<Response, AllocError>
    ensures { IfOk result IsRefused }
{
    let (name, reason) = match fault {
        MaxFault::Shape => (None, "not of the form 'line 3 25' or 'job cron.daily 25'"),
        MaxFault::Range(name) => (
            Some(name),
            " gets a longest time that isn't from 1 to 4320 minutes",
        ),
        MaxFault::Twice(name) => (Some(name), " has a longest time already"),
    };
    refused(alloc, path, place, name, reason)
}

/// Why old declarations with a zone aren't updated.
const TWICE: &[u8] =
    b" would start more than once in a minute when clocks go forward: make it due once then, or \
    begin its minute or hour with *";

fn unknown(name: &JobName) -> &'static str {
    match name {
        JobName::Line(_) => " of the crontab has no job",
        JobName::Identifier(_) => " is in no table that --anacrontab gives",
    }
}

fn first_unknown<'g>(lines: &[Line], jobs: &[Job], given: &'g [Given]) -> Option<&'g Given>
    ensures none { IsNone result → All (IsOfTables lines.now jobs.now) given.now }
    ensures some { IfSome result (λ g. All (IsOfTables lines.now jobs.now) given.now → ⊥) }
{
    for one in given {
        if !has_job(lines, jobs, &one.name) {
            return Some(one);
        }
    }
    None
}

/// The bytes are kept, since an update copies members that `Declarations` don't hold, such as
/// notes.
fn find_old<'a, I: Inputs>(
    alloc: Global,
    inputs: &mut I,
    path: Option<&'a str>,
) -> Result<Option<(Declarations, Vec<u8>)>, Fault<'a>>
    ensures step { IsFresh (I.whole inputs.old) (I.left inputs.old)
        → CameTo (ReadsOld (I.whole inputs.old) (option_map (λ path. path.now) path.entry)
        (I.failed inputs.old) (I.failed inputs.new)) (entries_in result) }
    ensures works { OnOk result (I.failed inputs.new ≡ I.failed inputs.old) }
    ensures whole { I.whole inputs.new ≡ I.whole inputs.old }
    ensures fresh { OnOk result (IsFresh (I.whole inputs.old) (I.left inputs.old)
        → IsFresh (I.whole inputs.new) (I.left inputs.new)) }
    ensures status { IfErr result (IsHonestOf (I.failed inputs.new) (I.reads inputs.new)) }
    ensures turn { AreReadInTurn (some_path (option_map (λ path. path.now) path.entry))
        (I.reads inputs.old) (I.reads inputs.new) }
{
    match path {
        Some(path) => {
            let bytes = all_bytes_at(alloc, inputs, path)?;
            match read_declarations(alloc, bytes.as_slice()) {
                Ok(old) => Ok(Some((old, bytes))),
                Err(error) => Err(declared_fault(alloc, path, bytes.as_slice(), true, error)),
            }
        }
        None => Ok(None),
    }
}

fn text_at<'a, I: Inputs>(
    alloc: Global,
    inputs: &mut I,
    path: Option<&'a str>,
) -> Result<Bytes, Fault<'a>>
    ensures step { IsFresh (I.whole inputs.old) (I.left inputs.old)
        → CameTo (ReadsText (I.whole inputs.old) (option_map (λ path. path.now) path.entry)
        (I.failed inputs.old) (I.failed inputs.new)) result }
    ensures works { OnOk result (I.failed inputs.new ≡ I.failed inputs.old) }
    ensures status { IfErr result (IsHonestOf (I.failed inputs.new) (I.reads inputs.new)) }
    ensures turn { AreReadInTurn (some_path (option_map (λ path. path.now) path.entry))
        (I.reads inputs.old) (I.reads inputs.new) }
{
    match path {
        Some(path) => Ok(Bytes::from_vec(all_bytes_at(alloc, inputs, path)?)),
        None => Ok(Bytes::new(alloc)),
    }
}

/// What `draft` reads.
#[derive(Drop)]
pub struct Draftable {
    /// The crontab and the anacrontab.
    pub tables: Tables,
    /// The declarations to update, and their bytes.
    pub old: Option<(Declarations, Vec<u8>)>,
    /// The longest times of jobs, as `learn` prints them; empty if none are given.
    pub maxes: Bytes,
}

/// Reads both tables, the old declarations and the longest times, in this order, and writes
/// warnings about the tables to standard error. A longest time that no job may declare is refused
/// before a file is read.
pub fn find_draftable<'a, I: Inputs, E: Output>(
    alloc: Global,
    inputs: &mut I,
    err: &mut E,
    words: &DraftWords<'a>,
) -> Result<Draftable, Fault<'a>>
    ensures value { IsFresh (I.whole inputs.old) (I.left inputs.old)
        → Tells (λ w. Warns (I.whole inputs.old) (asked_draft words.now).table
        (asked_draft words.now).anacrontab (I.failed inputs.old)
        (I.reads inputs.old) (I.reads inputs.new) w
        × CameTo (FindsDraftable (asked_draft words.now) (I.whole inputs.old) w
        (I.failed inputs.old) (I.failed inputs.new)) result)
        (sink (E.contents err.old) (E.failed err.old))
        (sink (E.contents err.new) (E.failed err.new)) }
    ensures status { IfErr result (IsHonestOf (I.failed inputs.new) (I.reads inputs.new)) }
    ensures turn { AreReadInTurn (draft_paths (asked_draft words.now))
        (I.reads inputs.old) (I.reads inputs.new) }
{
    if !is_possible_max(words.max) {
        return Err(Fault::Words(WordFault::BadMax));
    }
    let tables = find_tables(alloc, inputs, err, words.table, words.anacrontab)?;
    let old = find_old(alloc, inputs, words.update)?;
    let maxes = text_at(alloc, inputs, words.maxes)?;
    Ok(Draftable { tables, old, maxes })
}

/// The first line that starts more than once in a minute by the zone of old declarations, which
/// don't leave it out.
fn first_twice(alloc: Global, old: &Entries, lines: &[Line]) -> Result<Option<u32>, AllocError> {
    for line in lines {
        if !was_left_out(false, old, line) {
            let number = line_started_twice(alloc, old, slice::from_ref(line))?;
            if number.is_some() {
                return Ok(number);
            }
        }
    }
    Ok(None)
}

/// Tells that the text didn't pass: by the zone of old declarations a new line may start more than
/// once in a minute.
fn not_drawn(alloc: Global, found: &Draftable) -> Result<Response, AllocError>
    ensures { IfOk result (λ r. (r.status ≡ 2) × (r.out ≡ [])) }
{
    let mut fault = Vec::from_slice(alloc, b"no draft could be made".as_slice())?;
    if let Some((old, _bytes)) = &found.old {
        let lines = found.tables.crontab.lines();
        if let Some(number) = first_twice(alloc, old.entries(), lines)? {
            fault.extend_from_slice(b": line ")?;
            push_number(alloc, &mut fault, u128::from(number))?;
            fault.extend_from_slice(TWICE)?;
        }
    }
    Response::fault(alloc, Status::Unknown, b"".as_slice(), fault.as_slice())
}

fn show(
    alloc: Global,
    max: u64,
    offset: i16,
    zone: &Option<Bytes>,
    found: &Draftable,
    given: &[Given],
) -> Result<Response, AllocError>
    ensures printed { IfOk result
        (PrintsUpdate found.now.tables.crontab found.now.tables.jobs found.now.tables.places
        (updated found.now.tables.crontab.lines offset zone.now
        (option_map (λ p. p.0) found.now.old)) max given.now) }
    ensures done { IfOk result (λ r. r.status ≢ 6) }
{
    let (table, jobs) = (&found.tables.crontab, &found.tables.jobs);
    let places = found.tables.places.as_slice();
    let remarks = found.maxes.as_slice();
    let drawn = match &found.old {
        Some((old, bytes)) => {
            let (old, bytes) = (old.entries(), bytes.as_slice());
            update(
                alloc, table, jobs, places, old, bytes, max, given, remarks, false, None,
            )?
        }
        None => draw_up(
            alloc, table, jobs, places, max, given, remarks, offset, zone,
        )?,
    };
    match drawn {
        Some((text, warnings)) => Ok(Response::done(text.into_vec(), warnings)),
        None => not_drawn(alloc, found),
    }
}

/// Answers `draft TABLE [--anacrontab FILE] [--max N] [--update OLD] [--max-from FILE]`, where
/// clocks go by the zone, a rule (POSIX, TZ), or without one are `offset` minutes ahead of UTC. The
/// only error is out of memory.
pub fn answer_draft(
    alloc: Global,
    words: &DraftWords<'_>,
    offset: i16,
    zone: &Option<Bytes>,
    found: &Draftable,
) -> Result<Response, AllocError>
    ensures printed { IfOk result (λ r. is_possible_max words.now.max ≡ true
        → PrintsDraft words.now.max offset zone.now found.now r) }
    ensures done { IfOk result (λ r. r.status ≢ 6) }
{
    let path = words.maxes.unwrap_or("");
    let given = match read_maxes(alloc, found.maxes.as_slice())? {
        Ok(given) => given,
        Err((place, fault)) => return misread(alloc, path, place, &fault),
    };
    let (lines, jobs) = (found.tables.crontab.lines(), found.tables.jobs.lines());
    if let Some(one) = first_unknown(lines, jobs, given.as_slice()) {
        return refused(alloc, path, one.place, Some(&one.name), unknown(&one.name));
    }
    show(alloc, words.max, offset, zone, found, given.as_slice())
}
