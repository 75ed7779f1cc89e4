//! Findings in all files of a call.
ghost use Rattle.std.specs.Prelude.{◌≡◌};

use crate::answer::some_bytes;
use crate::changes::Change;
use crate::declared::Declared;
use crate::planned::held_in;
use crate::refusal::{Looked, Refusal};
use crate::table::{Beside, Table};
use crate::wanted::{Asked, Wanted};
use cs_args::Format;
use cs_diagnostics::{Done, File, Findings, Level, TableKind, Told, notes_on, parsed, places_in};
use cs_files::are_jobs;
use cs_findings::Finding;
use cs_place::Place;
use cs_plan::Plan;
use std::alloc::{AllocError, Global};

/// The texts of the files of a call.
#[derive(Drop)]
pub struct Texts {
    /// The crontab.
    pub table: Vec<u8>,
    /// The anacrontab, if there is one.
    pub jobs: Option<Vec<u8>>,
    /// The declarations, if there are any.
    pub declarations: Option<Vec<u8>>,
    /// The next changes of the zone's clocks; none without `--zone`.
    pub(crate) changes: Vec<Change>,
}

impl Texts {
    /// Texts beside which no zone is given.
    pub fn new(
        alloc: Global,
        table: Vec<u8>,
        jobs: Option<Vec<u8>>,
        declarations: Option<Vec<u8>>,
    ) -> Texts
        ensures { (result.table ≡ table) × (result.jobs ≡ jobs)
            × (result.declarations ≡ declarations) }
    {
        Texts {
            table,
            jobs,
            declarations,
            changes: Vec::new(alloc),
        }
    }
}

/// What is found in the files of a call.
#[derive(Drop)]
pub(crate) struct Report<'a> {
    /// Lines for people; empty in another form.
    pub(crate) text: Vec<u8>,
    /// The findings in another form; none for people.
    pub(crate) findings: Vec<Finding<'a>>,
    pub(crate) is_odd: bool,
}

#[derive(Drop)]
struct Found {
    table: Findings,
    /// Those of the crontab where clocks change, printed last.
    clock: Findings,
    jobs: Findings,
    declared: Findings,
}

const AS_JOBS: &str = "the table reads as an anacrontab: give it with --anacrontab";

/// That the crontab reads as an anacrontab; a fault is the one of its reader.
fn as_jobs(alloc: Global, plan: &Result<Option<Plan>, Refusal>) -> Result<Told, AllocError> {
    let (level, words) = match plan {
        Err(Refusal::Table(first)) => (
            Level::Error,
            format!(in alloc; "{}: {AS_JOBS}", first.name)?,
        ),
        _ => (Level::Warning, String::from_str(alloc, AS_JOBS)?),
    };
    Ok(Told {
        line: 1,
        column: 1,
        end: 1,
        level,
        words,
        text: Vec::new(alloc),
    })
}

fn push_findings<'a>(
    findings: &Findings,
    path: &'a str,
    bytes: &[u8],
    all: &mut Vec<Finding<'a>>,
) -> Done {
    let mut told = Vec::new(findings.alloc);
    findings.push_told(bytes, &mut told)?;
    for one in told.iter() {
        all.push(Finding::of(findings.alloc, path, one)?)?;
    }
    Ok(())
}

/// Checks the declarations, and both tables beside them.
fn look_at_declarations(
    alloc: Global,
    bytes: &[u8],
    table: &mut Table<'_>,
    jobs: &mut Table<'_>,
    has_jobs: bool,
    wanted: Wanted<'_>,
) -> Result<Findings, AllocError> {
    let json = parsed(alloc, bytes)?;
    let given: Option<&Table<'_>> = if has_jobs { Some(&*jobs) } else { None };
    let found = Declared::at(alloc, bytes, &json, table, given, wanted)?;
    table.find_beside(&found)?;
    jobs.find_beside(&found)?;
    Ok(found.tell.findings)
}

impl Found {
    fn of<'a>(
        alloc: Global,
        texts: &'a Texts,
        beside: Beside<'a>,
        wanted: Wanted<'a>,
    ) -> Result<Found, AllocError> {
        let none = Beside {
            places: &[],
            user: None,
            commands: &[],
            changes: &[],
        };
        let (bytes, has_jobs) = (some_bytes(&texts.jobs), texts.jobs.is_some());
        let mut table = Table::at(
            alloc,
            texts.table.as_slice(),
            TableKind::Crontab,
            wanted,
            beside,
        )?;
        let mut jobs = Table::at(
            alloc,
            bytes.unwrap_or(&[]),
            TableKind::Anacrontab,
            wanted,
            none,
        )?;
        let declared = match &texts.declarations {
            Some(bytes) => {
                let bytes = bytes.as_slice();
                look_at_declarations(alloc, bytes, &mut table, &mut jobs, has_jobs, wanted)?
            }
            None => Findings::new(alloc, &[])?,
        };
        Ok(Found {
            table: table.findings,
            clock: table.clock,
            jobs: jobs.findings,
            declared,
        })
    }

    /// Adds the readers' refusal, unless a finding reports it already.
    fn keep(&mut self, refusal: &Refusal) -> Done {
        match refusal {
            Refusal::Table(first) => self.table.keep(first),
            Refusal::Jobs(first) => self.jobs.keep(first),
            Refusal::Plan(first) if self.table.tells(first) || self.jobs.tells(first) => Ok(()),
            Refusal::Plan(first) => self.declared.keep(first),
        }
    }

    /// The report: file after file, then changes of clocks; `places` are those of a gathered
    /// crontab. If the crontab reads as an anacrontab this comes first, and alone if its reader
    /// refuses it.
    fn text(
        &self,
        alloc: Global,
        request: Asked<'_, '_>,
        texts: &Texts,
        places: &[Place],
        are_jobs: bool,
        is_refused: bool,
    ) -> Result<Vec<u8>, AllocError> {
        let table = File {
            path: request.table,
            bytes: texts.table.as_slice(),
        };
        let jobs = File {
            path: request.anacrontab.unwrap_or(""),
            bytes: some_bytes(&texts.jobs).unwrap_or(&[]),
        };
        let declarations = File {
            path: request.declarations.unwrap_or(""),
            bytes: some_bytes(&texts.declarations).unwrap_or(&[]),
        };
        let notes = notes_on(alloc, places)?;
        let mut text = Vec::new(alloc);
        let is_alone = are_jobs && is_refused;
        if are_jobs {
            let kind = if is_refused { "fault" } else { "odd" };
            let line = format!(in alloc; "{}:1:1: {kind}: {AS_JOBS}\n", table.path)?;
            text.extend_from_slice(line.as_bytes())?;
        }
        if !is_alone {
            self.table.tell(&table, notes.as_slice(), &mut text)?;
        }
        self.jobs.tell(&jobs, &[], &mut text)?;
        self.declared
            .tell(&declarations, notes.as_slice(), &mut text)?;
        if !is_alone {
            self.clock.tell(&table, notes.as_slice(), &mut text)?;
        }
        Ok(text)
    }

    /// What [`text`](Found::text) prints, in the same order, after `hint`; `is_alone` says whether
    /// nothing else of the crontab is printed.
    fn findings<'a>(
        &self,
        alloc: Global,
        request: Asked<'a, '_>,
        texts: &Texts,
        hint: Option<Told>,
        is_alone: bool,
    ) -> Result<Vec<Finding<'a>>, AllocError> {
        let (path, table) = (request.table, texts.table.as_slice());
        let jobs = some_bytes(&texts.jobs).unwrap_or(&[]);
        let declarations = some_bytes(&texts.declarations).unwrap_or(&[]);
        let mut all = Vec::new(alloc);
        if let Some(hint) = hint {
            all.push(Finding::of(alloc, path, &hint)?)?;
        }
        if !is_alone {
            push_findings(&self.table, path, table, &mut all)?;
        }
        push_findings(&self.jobs, request.anacrontab.unwrap_or(""), jobs, &mut all)?;
        let path_of_declarations = request.declarations.unwrap_or("");
        push_findings(&self.declared, path_of_declarations, declarations, &mut all)?;
        if !is_alone {
            push_findings(&self.clock, path, table, &mut all)?;
        }
        Ok(all)
    }
}

/// The findings in all files, for people or for programs, and whether something in them is odd.
///
/// A fault begins with its number and name, as the reader gives them. All faults are reported, not
/// only the first: of each field and item of a line, of each member and entry of declarations, and
/// of all that doesn't fit together. Odd findings are reported if they are wanted. A table of more
/// than 1 MiB isn't checked any further.
pub(crate) fn told_of<'a>(
    alloc: Global,
    request: Asked<'a, '_>,
    texts: &Texts,
    looked: &Looked,
) -> Result<Report<'a>, AllocError> {
    let wanted = request.wanted;
    let places = places_in(alloc, texts.table.as_slice())?;
    let commands = match &looked.plan {
        Ok(Some(plan)) => held_in(alloc, plan)?,
        _ => Vec::new(alloc),
    };
    let beside = Beside {
        places: places.as_slice(),
        user: looked.user,
        commands: commands.as_slice(),
        changes: texts.changes.as_slice(),
    };
    let mut found = Found::of(alloc, texts, beside, wanted)?;
    if let Err(refusal) = &looked.plan {
        found.keep(refusal)?;
    }
    let is_refused = matches!(looked.plan, Err(Refusal::Table(_)));
    let is_told = is_refused || wanted.tells("");
    let are_jobs = is_told && are_jobs(alloc, texts.table.as_slice())?;
    let is_odd = found.table.has_oddities || found.clock.has_oddities || found.jobs.has_oddities;
    let is_odd = is_odd || found.declared.has_oddities || are_jobs;
    if request.format == Format::Text {
        let places = places.as_slice();
        let text = found.text(alloc, request, texts, places, are_jobs, is_refused)?;
        return Ok(Report {
            text,
            findings: Vec::new(alloc),
            is_odd,
        });
    }
    let hint = if are_jobs {
        Some(as_jobs(alloc, &looked.plan)?)
    } else {
        None
    };
    let findings = found.findings(alloc, request, texts, hint, are_jobs && is_refused)?;
    Ok(Report {
        text: Vec::new(alloc),
        findings,
        is_odd,
    })
}
