//! The plan of a gathered table, whose comments say which parts a command has.
ghost use Rattle.std.specs.Prelude.{◌≡◌, ◌&&◌, bytes_eq, position};
ghost use Rattle.std.specs.List.{list_all, list_any};
ghost use Rattle.cs_decl.specs.Join.{is_named};
ghost use Rattle.cs_plan.specs.Answers.{Answers};
ghost use Rattle.cs_files.specs.Fitting.{fitting, has_other_parts, have_names, tells_others};
ghost use Rattle.cs_place.specs.Places.{place_of};

use cs_anacrontab::Anacrontab;
use cs_civil::Bytes;
use cs_crontab::{Crontab, Line};
use cs_decl::{CronEntry, Declarations, PartEntry, is_named, join};
use cs_place::{Place, place_of};
use cs_plan::{DeclError, DeclFault, Place as At, Plan};
use std::alloc::Global;

fn is_among(names: &[Bytes], part: &PartEntry) -> bool
    ensures { result ≡ list_any (bytes_eq part.now.name) names.now }
{
    names
        .iter()
        .any(|name| part.name.as_slice() == name.as_slice())
}

fn all_are_among(names: &[Bytes], parts: &[PartEntry]) -> bool
    ensures { result
        ≡ list_all (λ part. list_any (bytes_eq part.name) names.now) parts.now }
{
    parts.iter().all(|part| is_among(names, part))
}

fn have_names(parts: &[PartEntry], names: &[Bytes]) -> bool
    ensures { result ≡ have_names parts.now names.now }
{
    parts.len() == names.len() && all_are_among(names, parts)
}

fn tells_others(places: &[Place], line: &Line, parts: &[PartEntry]) -> bool
    ensures { result ≡ tells_others parts.now (place_of places.now line.now.number) }
{
    match place_of(places, line.number()) {
        Some(place) => {
            let names = place.parts.as_slice();
            !names.is_empty() && !have_names(parts, names)
        }
        None => false,
    }
}

fn are_told_otherwise(places: &[Place], lines: &[Line], entry: &CronEntry) -> bool
    ensures { result ≡ list_any (λ line. is_named entry.now.name line
        && tells_others entry.now.parts (place_of places.now line.number)) lines.now }
{
    lines.iter().any(|line| is_named(&entry.name, line)
        && tells_others(places, line, entry.parts.as_slice()))
}

fn has_other_parts(places: &[Place], lines: &[Line], entry: &CronEntry) -> bool
    ensures { result ≡ has_other_parts places.now lines.now entry.now }
{
    !entry.parts.is_empty() && are_told_otherwise(places, lines, entry)
}

fn first_with_other_parts(places: &[Place], lines: &[Line], entries: &[CronEntry]) -> Option<usize>
    ensures { result ≡ position (has_other_parts places.now lines.now) entries.now }
{
    entries
        .iter()
        .position(|entry| has_other_parts(places, lines, entry))
}

/// Joins tables and declarations to a plan, as [`join`] does. The last fault is
/// [`OtherParts`](DeclFault::OtherParts), of the first entry with other parts than the place of its
/// line.
pub(crate) fn join_placed(
    alloc: Global,
    table: Crontab,
    jobs: Anacrontab,
    places: &[Place],
    declarations: Declarations,
) -> Result<Plan, DeclError>
    ensures { Answers (λ plan. plan) (fitting places.now (table, jobs) declarations) result }
{
    let entries = declarations.entries().cron.as_slice();
    let other = first_with_other_parts(places, table.lines(), entries);
    let plan = join(alloc, table, jobs, declarations)?;
    match other {
        None => Ok(plan),
        Some(index) => Err(DeclError::At {
            fault: DeclFault::OtherParts,
            place: Some(At::Cron(index)),
        }),
    }
}
