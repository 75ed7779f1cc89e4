//! Whether lines and jobs are declared as an update has to declare them.
ghost use Rattle.std.specs.Prelude.{◌≡◌, ◌⊎◌, ◌≤◌, IfOk, IfSome, IsSomeAnd, IsTrue, drop, false};
ghost use Rattle.std.specs.Prelude.{find, length, option_map, true};
ghost use Rattle.std.specs.List.{list_all, list_any};
ghost use Rattle.cs_decl.specs.Join.{is_left_out, is_named};
ghost use Rattle.cs_schedule.specs.Gap.{AreApart, can_be_apart};
ghost use Rattle.cs_schedule.specs.declared.gap.TheConstants.{MAX_GAP};
ghost use Rattle.cs_draft.specs.Draft.{AreAlike, HasNewTimes, HasTerms, IsAdded, IsDefaultEntry, IsLocked};
ghost use Rattle.cs_draft.specs.Draft.{IsNewEntry, IsUpdatedJob, IsUpdatedLine, has_own, is_guess};
ghost use Rattle.cs_draft.specs.Draft.{is_new_group, is_text, may_follow, new_times, parts_of};
ghost use Rattle.cs_command.specs.Locks.{lock_of};

use crate::given::{given_or, has_given, has_time, job_time, time_of};
use crate::kept::{are_alike, is_kept, is_new, may_follow};
use crate::names::{entry_of, is_left_out, is_text, job_entry};
use crate::parts::{has_parts, parts_of};
use cs_anacrontab::Job;
use cs_civil::Bytes;
use cs_command::{asked_for, own_lock, time_limit};
use cs_crontab::{Line, When};
use cs_decl::{AnacronEntry, CronEntry, DefaultEntry, Entries, GroupEntry};
use cs_history::Mode;
use cs_place::Place;
use cs_plan::MAX_GROUPS;
use cs_retrace::{Given, max_of};
use cs_schedule::{MAX_GAP, Schedule, least_gap};
use std::alloc::{AllocError, Global};

// ---- longest times

/// The asked time in minutes, or the shortest time to its next due minute if that is less.
#[tactic(auto, using(crate::proofs::Apart::still_apart))]
pub(crate) fn brief_max(schedule: &Schedule, asked: u64) -> u64
    ensures most { result ≤ asked }
    ensures apart { asked ≤ MAX_GAP → AreApart schedule.now result }
    ensures met { (result ≡ asked) ⊎ (can_be_apart schedule.now result ≡ true) }
{
    match least_gap(schedule) {
        Some(gap) if u64::from(gap) < asked => u64::from(gap),
        _ => asked,
    }
}

pub(crate) fn is_guess(command: &[u8], max: i128) -> bool
    ensures { result ≡ is_guess command.now max }
{
    match time_limit(command) {
        Some(limit) => max != i128::from(limit),
        None => true,
    }
}

// ---- lines

fn has_new_times(asked: u64, names: &[Bytes], line: &Line, entry: &CronEntry) -> bool
    ensures { IsTrue result → HasNewTimes asked names.now line.now entry.now }
{
    if entry.guess != is_guess(line.command(), entry.max) {
        return false;
    }
    let asked = asked_for(asked, line.command());
    match line.when() {
        When::Reboot => true,
        When::At(schedule) if names.is_empty() => {
            asked <= u64::from(MAX_GAP)
                && entry.parts.is_empty()
                && entry.max == i128::from(brief_max(schedule, asked))
        }
        When::At(_) => has_parts(names, entry),
    }
}

fn is_new_entry(
    asked: u64,
    given: &[Given],
    names: &[Bytes],
    line: &Line,
    entry: &CronEntry,
) -> bool
    ensures { IsTrue result → IsNewEntry asked given.now names.now line.now entry.now }
{
    if entry.weight != 1 {
        return false;
    }
    match time_of(given, line, names.is_empty(), entry.mode) {
        Some(max) => has_time(i128::from(max), entry),
        None => has_new_times(asked, names, line, entry),
    }
}

fn has_default(given: &[Given], line: &Line, default: &DefaultEntry, entry: &CronEntry) -> bool
    ensures { IsTrue result → IsDefaultEntry given.now line.now default.now entry.now }
{
    let max = match time_of(given, line, true, entry.mode) {
        Some(max) => i128::from(max),
        None => default.max,
    };
    entry.weight == default.weight && has_time(max, entry)
}

pub(crate) fn is_locked(
    groups: &[GroupEntry],
    lock: &Option<(Bytes, Mode)>,
    entry: &CronEntry,
) -> bool
    ensures { IsTrue result → IsLocked groups.now lock.now entry.now }
{
    let takes_none = entry.group.is_none() && entry.mode == Mode::Plain;
    let Some((file, mode)) = lock else {
        return takes_none;
    };
    if is_text(file.as_slice(), &entry.group) && entry.mode == *mode {
        return true;
    }
    takes_none
        && groups.len() == MAX_GROUPS
        && groups
            .iter()
            .all(|group| group.name.as_slice() != file.as_slice())
}

fn is_added(
    asked: u64,
    given: &[Given],
    names: &[Bytes],
    line: &Line,
    own: bool,
    default: &Option<DefaultEntry>,
    behind: Option<&CronEntry>,
    entry: Option<&CronEntry>,
) -> bool
    ensures { IsTrue result → IsAdded (IsNewEntry asked given.now names.now line.now)
        (IsDefaultEntry given.now line.now) own default.now (option_map (λ e. e.now) entry.entry)
        ⊎ IsSomeAnd (option_map (λ e. e.now) behind.entry) (λ o. (may_follow line.now o ≡ true)
        × IsSomeAnd (option_map (λ e. e.now) entry.entry)
        (AreAlike given.now line.now names.now o)) }
{
    if let Some(old) = behind
        && let Some(new) = entry
        && may_follow(line, old)
        && are_alike(given, line, names, old, new)
    {
        return true;
    }
    match (default, entry) {
        (None, Some(entry)) => is_new_entry(asked, given, names, line, entry),
        (None, None) => false,
        (Some(default), Some(entry)) => own && has_default(given, line, default, entry),
        (Some(_), None) => !own,
    }
}

fn is_new_line(
    alloc: Global,
    places: &[Place],
    old: &Entries,
    behind: Option<&CronEntry>,
    max: u64,
    given: &[Given],
    new: &Entries,
    line: &Line,
) -> Result<bool, AllocError>
    ensures added { IfOk result (λ b. IsTrue b
        → IsAdded (IsNewEntry max given.now (parts_of places.now line.now) line.now)
        (IsDefaultEntry given.now line.now) (has_own given.now line.now) old.now.default
        (find (λ e. is_named e.name line.now) new.now.cron)
        ⊎ IsSomeAnd (option_map (λ e. e.now) behind.entry) (λ o. (may_follow line.now o ≡ true)
        × IsSomeAnd (find (λ e. is_named e.name line.now) new.now.cron)
        (AreAlike given.now line.now (parts_of places.now line.now) o))) }
    ensures left_out { IfOk result (λ b. IsTrue b → is_left_out new.now line.now ≡ false) }
    ensures locked { IfOk result (λ b. IsTrue b
        → IfSome (find (λ e. is_named e.name line.now) new.now.cron)
        (IsLocked new.now.groups (lock_of line.now.command))) }
{
    let lock = own_lock(alloc, line.command())?;
    let own = lock.is_some() || max_of(given, u64::from(line.number())).is_some();
    let names = parts_of(places, line);
    let entry = entry_of(new, line);
    if is_left_out(new, line)
        || !is_added(max, given, names, line, own, &old.default, behind, entry)
    {
        return Ok(false);
    }
    match entry {
        Some(entry) => Ok(is_locked(new.groups.as_slice(), &lock, entry)),
        None => Ok(true),
    }
}

pub(crate) fn is_updated_line(
    alloc: Global,
    lines: &[Line],
    places: &[Place],
    old: &Entries,
    behind: Option<&CronEntry>,
    max: u64,
    given: &[Given],
    new: &Entries,
    line: &Line,
) -> Result<bool, AllocError>
    ensures { IfOk result (λ b. IsTrue b
        → IsUpdatedLine lines.now places.now old.now (option_map (λ e. e.now) behind.entry) max
        given.now new.now line.now) }
{
    if !has_given(given, line, entry_of(new, line))
        || !is_kept(false, given, places, lines, old, new, line)
        || !is_kept(true, given, places, lines, old, new, line)
    {
        return Ok(false);
    }
    if !is_new(old, line) {
        return Ok(true);
    }
    is_new_line(alloc, places, old, behind, max, given, new, line)
}

// ---- anacron jobs and groups

fn has_terms(
    weight: i128,
    group: &Option<Bytes>,
    times: (i128, bool),
    entry: Option<&AnacronEntry>,
) -> bool
    ensures { IsTrue result
        → IsSomeAnd (option_map (λ e. e.now) entry.entry) (HasTerms weight group.now times) }
{
    let Some(entry) = entry else {
        return false;
    };
    entry.weight == weight
        && entry.group == *group
        && entry.max == times.0
        && entry.guess == times.1
}

/// The longest time in minutes, and whether it is a guess.
fn new_times(asked: u64, command: &[u8]) -> (i128, bool)
    ensures { result ≡ new_times asked command.now }
{
    let max = i128::from(asked_for(asked, command));
    (max, is_guess(command, max))
}

pub(crate) fn is_updated_job(
    old: &Entries,
    max: u64,
    given: &[Given],
    new: &Entries,
    job: &Job,
) -> bool
    ensures { IsTrue result → IsUpdatedJob old.now max given.now new.now job.now }
{
    let time = job_time(given, job);
    let entry = job_entry(new, job.identifier());
    let times = new_times(max, job.command());
    match (job_entry(old, job.identifier()), &old.default, time) {
        (Some(before), _, _) => {
            let times = given_or(time, (before.max, before.guess));
            has_terms(before.weight, &before.group, times, entry)
        }
        (None, Some(_), None) => entry.is_none(),
        (None, Some(default), Some(max)) => {
            has_terms(default.weight, &None, (i128::from(max), false), entry)
        }
        (None, None, _) => has_terms(1, &None, given_or(time, times), entry),
    }
}

fn has_entry(entries: &[CronEntry], name: &[u8]) -> bool
    ensures { result ≡ list_any (λ e. is_text name.now e.group) entries.now }
{
    entries.iter().any(|entry| is_text(name, &entry.group))
}

fn is_new_group(entries: &Entries, group: &GroupEntry) -> bool
    ensures { result ≡ is_new_group entries.now group.now }
{
    group.exclusive && has_entry(entries.cron.as_slice(), group.name.as_slice())
}

fn are_all_new(entries: &Entries, groups: &[GroupEntry]) -> bool
    ensures { result ≡ list_all (is_new_group entries.now) groups.now }
{
    groups.iter().all(|group| is_new_group(entries, group))
}

pub(crate) fn are_new_groups(old: &Entries, new: &Entries) -> bool
    ensures { IsTrue result
        → list_all (is_new_group new.now) (drop (length old.now.groups) new.now.groups) ≡ true }
{
    let (count, groups) = (old.groups.len(), new.groups.as_slice());
    count <= groups.len() && are_all_new(new, &groups[count..])
}
