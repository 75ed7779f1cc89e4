//! The parts of commands, in a gathered table and in entries.
ghost use Rattle.std.specs.Prelude.{◌≡◌, ◌==◌, [], All, IsTrue, bytes_eq, count_by, find, map, option_map};
ghost use Rattle.std.specs.Prelude.{pos, unwrap_or};
ghost use Rattle.std.specs.List.{list_all, list_any};
ghost use Rattle.cs_decl.specs.Faults.{minutes_of};
ghost use Rattle.cs_draft.specs.Draft.{HasParts, KeepsPart, KeepsTimes, all_are_parts, declarable};
ghost use Rattle.cs_draft.specs.Draft.{is_part, parts_of};
ghost use Rattle.cs_place.specs.Places.{place_of};

use cs_civil::Bytes;
use cs_crontab::Line;
use cs_decl::{CronEntry, PartEntry};
use cs_place::{Place, place_of};
use cs_plan::MAX_MINUTES;

// ---- the table's

pub(crate) fn names_at(places: &[Place], number: u32) -> &[Bytes]
    ensures { result.now
        ≡ unwrap_or (option_map (λ place. place.parts) (place_of places.now number)) [] }
{
    match place_of(places, number) {
        Some(place) => place.parts.as_slice(),
        None => &[],
    }
}

pub(crate) fn has_name(name: &[u8], names: &[Bytes]) -> bool
    ensures { result ≡ list_any (λ other. bytes_eq other name.now) names.now }
{
    names.iter().any(|other| other.as_slice() == name)
}

fn count_of(name: &[u8], names: &[Bytes]) -> usize
    ensures { result ≡ count_by (λ other. bytes_eq other name.now) names.now }
{
    names
        .iter()
        .filter(|other| other.as_slice() == name)
        .count()
}

fn have_own(names: &[Bytes]) -> bool
    ensures { result ≡ list_all (λ name. count_by (λ other. bytes_eq other name) names.now == 1)
        names.now }
{
    names
        .iter()
        .all(|name| count_of(name.as_slice(), names) == 1)
}

pub(crate) fn declarable(names: &[Bytes]) -> &[Bytes]
    ensures { result.now ≡ declarable names.now }
{
    if names.len() <= usize::from(MAX_MINUTES) && have_own(names) {
        return names;
    }
    &[]
}

pub(crate) fn parts_of<'p>(places: &'p [Place], line: &Line) -> &'p [Bytes]
    ensures { result.now ≡ parts_of places.now line.now }
{
    declarable(names_at(places, line.number()))
}

// ---- those of entries

pub(crate) fn part_of<'e>(parts: &'e [PartEntry], name: &[u8]) -> Option<&'e PartEntry>
    ensures { option_map (λ p. p.now) result ≡ find (is_part name.now) parts.now }
{
    parts.iter().find(|part| part.name.as_slice() == name)
}

pub(crate) fn has_part(parts: &[PartEntry], name: &[u8]) -> bool
    ensures { result ≡ list_any (is_part name.now) parts.now }
{
    parts.iter().any(|part| part.name.as_slice() == name)
}

pub(crate) fn all_are_parts(names: &[Bytes], parts: &[PartEntry]) -> bool
    ensures { result ≡ all_are_parts names.now parts.now }
{
    names.iter().all(|name| has_part(parts, name.as_slice()))
}

/// Whether both have parts, and not of the same names.
pub(crate) fn have_changed(names: &[Bytes], parts: &[PartEntry]) -> bool {
    !names.is_empty()
        && !parts.is_empty()
        && !(all_are_parts(names, parts)
            && parts
                .iter()
                .all(|part| has_name(part.name.as_slice(), names)))
}

fn is_named(name: &[u8], part: &PartEntry) -> bool
    ensures { IsTrue result → part.now.name ≡ name.now }
{
    part.name.as_slice() == name
}

fn are_named(names: &[Bytes], parts: &[PartEntry]) -> bool
    ensures { IsTrue result → map (λ p. p.name) parts.now ≡ names.now }
{
    if parts.len() != names.len() {
        return false;
    }
    for i in 0..names.len() {
        if !is_named(names[i].as_slice(), &parts[i]) {
            return false;
        }
    }
    true
}

/// Subtracts, as a sum of many parts might not fit.
fn is_sum(max: i128, parts: &[PartEntry]) -> bool
    ensures { IsTrue result → max ≡ pos (minutes_of parts.now) }
{
    if max < 0 {
        return false;
    }
    let mut left = max.unsigned_abs();
    let mut rest = parts;
    while let [part, others @ ..] = rest {
        let Some(less) = left.checked_sub(part.max.unsigned_abs()) else {
            return false;
        };
        left = less;
        rest = others;
    }
    left == 0
}

pub(crate) fn has_parts(names: &[Bytes], entry: &CronEntry) -> bool
    ensures { IsTrue result → HasParts names.now entry.now }
{
    let parts = entry.parts.as_slice();
    are_named(names, parts) && is_sum(entry.max, parts)
}

fn keeps_part(old: &[PartEntry], part: &PartEntry) -> bool
    ensures { IsTrue result → KeepsPart old.now part.now }
{
    match part_of(old, part.name.as_slice()) {
        Some(old) => part.max == old.max,
        None => true,
    }
}

fn keep_parts(old: &[PartEntry], new: &[PartEntry]) -> bool
    ensures { IsTrue result → All (KeepsPart old.now) new.now }
{
    for part in new {
        if !keeps_part(old, part) {
            return false;
        }
    }
    true
}

fn is_same_part(old: &PartEntry, new: &PartEntry) -> bool
    ensures { IsTrue result → new.now ≡ old.now }
{
    old.name.as_slice() == new.name.as_slice() && old.max == new.max
}

fn are_same_parts(old: &[PartEntry], new: &[PartEntry]) -> bool
    ensures { IsTrue result → new.now ≡ old.now }
{
    if new.len() != old.len() {
        return false;
    }
    for i in 0..old.len() {
        if !is_same_part(&old[i], &new[i]) {
            return false;
        }
    }
    true
}

pub(crate) fn keeps_times(names: &[Bytes], old: &CronEntry, new: &CronEntry) -> bool
    ensures { IsTrue result → KeepsTimes names.now old.now new.now }
{
    let (before, parts) = (old.parts.as_slice(), new.parts.as_slice());
    if old.max == new.max && old.guess == new.guess && are_same_parts(before, parts) {
        return true;
    }
    !names.is_empty()
        && !before.is_empty()
        && has_parts(names, new)
        && keep_parts(before, parts)
        && new.guess == (old.guess || !all_are_parts(names, before))
}
