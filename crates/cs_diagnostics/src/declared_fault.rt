//! Lines that show the first fault of declarations.
use crate::declared::Declarations;
use crate::entry::{Entry, Kind};
use crate::findings::{Done, Findings};
use crate::outline::parsed;
use crate::render::File;
use crate::span::Span;
use crate::told::Shown;
use cs_plan::{DeclError, DeclFault, Place};
use serde_json::Value;
use std::alloc::{AllocError, Global};

/// The kind of entries to which a place belongs, and the entry's index, from 0.
fn entry_at(place: &Option<Place>) -> (Kind, Option<usize>) {
    match place {
        Some(Place::Group(index)) => (Kind::Group, Some(*index)),
        Some(Place::Cron(index)) => (Kind::Cron, Some(*index)),
        Some(Place::Anacron(index)) => (Kind::Anacron, Some(*index)),
        Some(Place::LeftOut(index)) => (Kind::LeftOut, Some(*index)),
        Some(Place::Line(_)) => (Kind::Cron, None),
        Some(Place::Job(_)) => (Kind::Anacron, None),
        None => (Kind::Whole, None),
    }
}

/// The member of an entry that doesn't fit the tables; empty where that is the whole entry.
fn member_of(fault: DeclFault, kind: Kind, has_line: bool) -> &'static str {
    match (fault, kind) {
        (DeclFault::OtherCommand, _) => "command",
        (DeclFault::AmbiguousCommand, _) => "command",
        (DeclFault::OtherSchedule, _) => "when",
        (DeclFault::OtherParts, _) => "parts",
        (DeclFault::NoSuchLine, Kind::Anacron) => "id",
        (DeclFault::TwiceDeclared, Kind::Anacron) => "id",
        (DeclFault::NoSuchLine, _) if has_line => "line",
        (DeclFault::TwiceDeclared, _) if has_line => "line",
        (DeclFault::NoSuchLine, _) => "command",
        (DeclFault::TwiceDeclared, _) => "command",
        _ => "",
    }
}

/// What to do about an entry that doesn't fit the tables.
fn advice(fault: DeclFault, kind: Kind, has_line: bool, has_jobs: bool) -> &'static str {
    match (fault, kind) {
        (DeclFault::NoSuchLine, Kind::Anacron) if !has_jobs => {
            "no anacrontab with jobs is given: use --anacrontab FILE"
        }
        (DeclFault::NoSuchLine, Kind::Anacron) => {
            "no such job: correct \"id\", or remove the entry"
        }
        (DeclFault::NoSuchLine, _) if has_line => {
            "this line has no command: correct it, or remove this entry"
        }
        (DeclFault::NoSuchLine, _) => "no line has this command: correct it, or remove this entry",
        (DeclFault::TwiceDeclared, _) => "this line has an entry already: remove one of the two",
        (DeclFault::OtherCommand, _) => {
            "the line has another command: correct \"line\" or \"command\""
        }
        (DeclFault::OtherSchedule, _) => {
            "the line has another schedule: correct \"line\" or \"when\""
        }
        (DeclFault::AmbiguousCommand, _) => {
            "more than one line has it: add the \"line\" that is meant"
        }
        (DeclFault::OtherParts, _) => {
            "the line has other parts: correct them, as 'cronsafe draft --update' does"
        }
        (DeclFault::RebootLine, _) => "put this line of the crontab into \"left_out\"",
        (DeclFault::StartsTwice, _) => {
            "write this line of the crontab so that it is due once, such as 0 3 for 0 2,3"
        }
        (DeclFault::Undeclared, Kind::Anacron) => "add an entry for this job",
        (DeclFault::Undeclared, _) => "add an entry for this line of the crontab",
        _ => "see 'cronsafe explain'",
    }
}

impl Declarations<'_> {
    fn entry(&self, kind: Kind, index: Option<usize>) -> Option<&Entry<'_>> {
        for entry in self.entries.iter() {
            if entry.kind == kind && Some(entry.index) == index {
                return Some(entry);
            }
        }
        None
    }

    /// The place of the entry's member; else where the entry, its list or the whole begins.
    fn place_of(&self, kind: Kind, index: Option<usize>, member: &str) -> Span {
        if let Some(entry) = self.entry(kind, index) {
            return match entry.object.member(member) {
                Some((_, span)) => span,
                None => entry.object.bracket,
            };
        }
        let [list, ..] = kind.texts();
        match self.whole.object.member(list) {
            Some((_, span)) => Span::of(span.from, 1),
            None => self.whole.object.bracket,
        }
    }

    /// Whether the entry names its line by number.
    fn has_line(&self, kind: Kind, index: Option<usize>) -> bool {
        match self.entry(kind, index) {
            Some(entry) => entry.object.has("line"),
            None => false,
        }
    }
}

/// Adds all faults that have the reader's fault and place, or that fault alone where none is found.
fn find_fault(
    findings: &mut Findings,
    bytes: &[u8],
    value: &Value,
    (fault, place, name): (DeclFault, &Option<Place>, &str),
    has_jobs: bool,
) -> Done {
    let declarations = Declarations::new(findings.alloc, bytes, value)?;
    declarations.find_faults(findings, bytes)?;
    findings.keep_named(name);
    if findings.has_faults() {
        return Ok(());
    }
    let (kind, index) = entry_at(place);
    let has_line = declarations.has_line(kind, index);
    let why = advice(fault, kind, has_line, has_jobs);
    let member = member_of(fault, kind, has_line);
    let span = declarations.place_of(kind, index, member);
    findings.fault(span, format_args!("{name}: {why}"))
}

/// What [`Findings::tell`] prints of the first fault of declarations; none where the reader ran out of memory. `has_jobs` says whether an anacrontab has
/// jobs. The only error is out of memory.
pub fn declared_lines(
    alloc: Global,
    file: &File<'_>,
    error: &DeclError,
    has_jobs: bool,
) -> Result<Option<Shown>, AllocError> {
    let DeclError::At { fault, place } = error else {
        return Ok(None);
    };
    let mut findings = Findings::new(alloc, file.bytes)?;
    let text = error.text(alloc)?;
    let name = String::from_utf8_lossy(alloc, text.as_slice())?;
    match parsed(alloc, file.bytes)? {
        Ok(value) => {
            let fault = (*fault, place, name.as_str());
            find_fault(&mut findings, file.bytes, &value, fault, has_jobs)?;
        }
        Err(error) => findings.no_json(file.bytes, &error)?,
    }
    Ok(Some(findings.shown(file, &[])?))
}
