//! Whether new declarations keep what old ones declare.
ghost use Rattle.std.specs.Prelude.{◌≡◌, IfSome, IsSomeAnd, IsTrue, length, option_map, take, true};
ghost use Rattle.std.specs.List.{count_by, find, list_any};
ghost use Rattle.cs_decl.specs.Join.{is_named};
ghost use Rattle.cs_decl.specs.Lines.{names_of};
ghost use Rattle.cs_draft.specs.Draft.{AreAlike, HasTimes, IsKept, KeepsTimes, is_gone, is_lone, is_new, left_behind};
ghost use Rattle.cs_draft.specs.Draft.{is_text, may_follow, parts_of, tells};

use crate::given::{has_time, time_of};
use crate::names::{count_like, entry_of, is_left_out, is_text, tells};
use crate::parts::{keeps_times, parts_of};
use cs_civil::Bytes;
use cs_command::program_of;
use cs_crontab::Line;
use cs_decl::{CronEntry, Entries, GroupEntry, LineName, is_told_when};
use cs_place::Place;
use cs_plan::is_reboot;
use cs_retrace::Given;

fn has_times(given: Option<u64>, names: &[Bytes], old: &CronEntry, new: &CronEntry) -> bool
    ensures { IsTrue result → HasTimes given (KeepsTimes names.now old.now) new.now }
{
    match given {
        Some(max) => has_time(i128::from(max), new),
        None => keeps_times(names, old, new),
    }
}

fn are_same_terms(old: &CronEntry, new: &CronEntry) -> bool
    ensures weight { IsTrue result → new.now.weight ≡ old.now.weight }
    ensures group { IsTrue result → new.now.group ≡ old.now.group }
    ensures mode { IsTrue result → new.now.mode ≡ old.now.mode }
{
    old.weight == new.weight && old.group == new.group && old.mode == new.mode
}

pub(crate) fn are_alike(
    given: &[Given],
    line: &Line,
    names: &[Bytes],
    old: &CronEntry,
    new: &CronEntry,
) -> bool
    ensures { IsTrue result → AreAlike given.now line.now names.now old.now new.now }
{
    let time = time_of(given, line, old.parts.is_empty(), new.mode);
    are_same_terms(old, new) && has_times(time, names, old, new)
}

// ---- lines

#[tactic(auto, using(crate::proofs::Counts::counted))]
fn times_told(timed: bool, entries: &Entries, line: &Line) -> usize
    ensures { result ≡ count_by (tells timed line.now) (names_of entries.now) }
{
    let (cron, names) = (entries.cron.as_slice(), entries.left_out.as_slice());
    let entries = cron.iter().filter(|entry| tells(timed, line, &entry.name));
    let left_out = names.iter().filter(|name| tells(timed, line, name));
    entries.count() + left_out.count()
}

fn is_lone(timed: bool, lines: &[Line], old: &Entries, line: &Line) -> bool
    ensures { result ≡ is_lone timed lines.now old.now line.now }
{
    !is_reboot(line) && count_like(timed, lines, line) == 1 && times_told(timed, old, line) == 1
}

pub(crate) fn is_new(old: &Entries, line: &Line) -> bool
    ensures { result ≡ is_new old.now line.now }
{
    !is_reboot(line) && times_told(false, old, line) == 0
}

fn is_gone(lines: &[Line], name: &LineName) -> bool
    ensures { result ≡ is_gone lines.now name.now }
{
    let mut all = lines.iter();
    all.all(|line| !is_text(line.command(), &name.command))
}

fn count_new(lines: &[Line], old: &Entries) -> usize
    ensures { result ≡ count_by (is_new old.now) lines.now }
{
    lines.iter().filter(|line| is_new(old, line)).count()
}

#[tactic(auto, using(crate::proofs::Counts::counted_gone))]
fn count_gone(lines: &[Line], old: &Entries) -> usize
    ensures { result ≡ count_by (is_gone lines.now) (names_of old.now) }
{
    let (cron, names) = (old.cron.as_slice(), old.left_out.as_slice());
    let entries = cron.iter().filter(|entry| is_gone(lines, &entry.name));
    let left_out = names.iter().filter(|name| is_gone(lines, name));
    entries.count() + left_out.count()
}

fn first_gone<'e>(lines: &[Line], entries: &'e [CronEntry]) -> Option<&'e CronEntry>
    ensures { option_map (λ e. e.now) result ≡ find (λ e. is_gone lines.now e.name) entries.now }
{
    entries.iter().find(|entry| is_gone(lines, &entry.name))
}

pub(crate) fn left_behind<'e>(lines: &[Line], old: &'e Entries) -> Option<&'e CronEntry>
    ensures { option_map (λ e. e.now) result ≡ left_behind lines.now old.now }
{
    if count_new(lines, old) == 1 && count_gone(lines, old) == 1 {
        return first_gone(lines, old.cron.as_slice());
    }
    None
}

pub(crate) fn may_follow(line: &Line, old: &CronEntry) -> bool
    ensures { result ≡ may_follow line.now old.now }
{
    let Some(command) = &old.name.command else {
        return false;
    };
    match (program_of(command.as_slice()), program_of(line.command())) {
        (Some(before), Some(program)) => {
            program == before && is_told_when(&old.name.when, line.when())
        }
        _ => false,
    }
}

fn entry_that_tells<'e>(timed: bool, entries: &'e Entries, line: &Line) -> Option<&'e CronEntry>
    ensures { option_map (λ e. e.now) result
        ≡ find (λ e. tells timed line.now e.name) entries.now.cron }
{
    let cron = entries.cron.as_slice();
    cron.iter().find(|entry| tells(timed, line, &entry.name))
}

pub(crate) fn was_left_out(timed: bool, old: &Entries, line: &Line) -> bool
    ensures { result ≡ list_any (tells timed line.now) old.now.left_out }
{
    let names = old.left_out.as_slice();
    names.iter().any(|name| tells(timed, line, name))
}

fn keeps_entry(
    timed: bool,
    given: &[Given],
    places: &[Place],
    old: &Entries,
    new: &Entries,
    line: &Line,
) -> bool
    ensures { IsTrue result → IfSome (find (λ e. tells timed line.now e.name) old.now.cron)
        (λ o. IsSomeAnd (find (λ e. is_named e.name line.now) new.now.cron)
        (AreAlike given.now line.now (parts_of places.now line.now) o)) }
{
    match entry_that_tells(timed, old, line) {
        Some(old) => match entry_of(new, line) {
            Some(new) => are_alike(given, line, parts_of(places, line), old, new),
            None => false,
        },
        None => true,
    }
}

pub(crate) fn is_kept(
    timed: bool,
    given: &[Given],
    places: &[Place],
    lines: &[Line],
    old: &Entries,
    new: &Entries,
    line: &Line,
) -> bool
    ensures { IsTrue result → IsKept timed given.now places.now lines.now old.now new.now line.now }
{
    !is_lone(timed, lines, old, line)
        || keeps_entry(timed, given, places, old, new, line)
            && (!was_left_out(timed, old, line) || is_left_out(new, line))
}

fn is_same_group(old: &GroupEntry, new: &GroupEntry) -> bool
    ensures { IsTrue result → new.now ≡ old.now }
{
    old.name.as_slice() == new.name.as_slice() && old.exclusive == new.exclusive
}

fn begin_with(old: &[GroupEntry], new: &[GroupEntry]) -> bool
    ensures { IsTrue result → take (length old.now) new.now ≡ old.now }
{
    if new.len() < old.len() {
        return false;
    }
    for i in 0..old.len() {
        if !is_same_group(&old[i], &new[i]) {
            return false;
        }
    }
    true
}

fn is_same_zone(old: &Option<Bytes>, new: &Option<Bytes>) -> bool
    ensures { IsTrue result → new.now ≡ old.now }
{
    match new {
        Some(rule) => is_text(rule.as_slice(), old),
        None => old.is_none(),
    }
}

pub(crate) fn are_terms(old: &Entries, new: &Entries) -> bool
    ensures capacity { IsTrue result → new.now.capacity ≡ old.now.capacity }
    ensures offset { IsTrue result → new.now.offset ≡ old.now.offset }
    ensures zone { IsTrue result → new.now.zone ≡ old.now.zone }
    ensures hours { IsTrue result → new.now.hours ≡ old.now.hours }
    ensures pass { IsTrue result → new.now.pass ≡ old.now.pass }
    ensures default { IsTrue result → new.now.default ≡ old.now.default }
    ensures groups { IsTrue result
        → take (length old.now.groups) new.now.groups ≡ old.now.groups }
{
    old.capacity == new.capacity
        && old.offset == new.offset
        && is_same_zone(&old.zone, &new.zone)
        && old.hours == new.hours
        && old.pass == new.pass
        && old.default == new.default
        && begin_with(old.groups.as_slice(), new.groups.as_slice())
}
