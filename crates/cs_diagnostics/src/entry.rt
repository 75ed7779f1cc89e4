//! The objects of declarations, with their kinds and places.
use crate::findings::{Done, Findings};
use crate::names::shown;
use crate::object::Object;
use crate::outline::parts;
use crate::span::Span;
use cs_plan::DeclFault;
use indexmap::{IndexMap, IndexSet};
use serde_json::Value;
use std::alloc::{AllocError, Global};
use std::fmt::Display;

/// A kind of object: the whole of declarations, or an item of one of its members.
#[derive(Clone, Copy, PartialEq, Eq)]
pub enum Kind {
    Whole,
    Default,
    Group,
    Cron,
    /// A part of an entry of `cron`, with the index of that entry.
    Part,
    Anacron,
    LeftOut,
}

/// Of each kind: its member of the whole, the name of its places, its own name, and its members.
const TEXTS: [[&str; 4]; 7] = [
    [
        "",
        "",
        "the declarations",
        "anacron capacity cron default groups hours left_out note offset pass zone",
    ],
    ["default", "", "\"default\"", "max note weight"],
    [
        "groups",
        "group",
        "this entry of \"groups\"",
        "exclusive name note",
    ],
    [
        "cron",
        "cron",
        "this entry of \"cron\"",
        "command group guess line max mode name note parts weight when",
    ],
    ["parts", "cron", "this entry of \"parts\"", "max name note"],
    [
        "anacron",
        "anacron",
        "this entry of \"anacron\"",
        "group guess id max note weight",
    ],
    [
        "left_out",
        "left_out",
        "this entry of \"left_out\"",
        "command line note when",
    ],
];

impl Kind {
    /// Its member of the whole, the name of its places, its own name, and its members with blanks
    /// between them.
    pub fn texts(self) -> [&'static str; 4] {
        TEXTS[self as usize]
    }
}

/// An object of declarations, or another value in its place.
#[derive(Drop)]
pub struct Entry<'v> {
    pub kind: Kind,
    /// Its index in its list, from 0.
    pub index: usize,
    pub place: Span,
    pub is_object: bool,
    /// Without members if it is no object.
    pub object: Object<'v>,
}

impl<'v> Entry<'v> {
    /// The entry of a value, which is at that span of the text. The only error is out of memory.
    pub fn new(
        alloc: Global,
        bytes: &[u8],
        (kind, index): (Kind, usize),
        part: (&'v Value, Span),
    ) -> Result<Entry<'v>, AllocError> {
        Ok(Entry {
            kind,
            index,
            place: part.1,
            is_object: part.0.is_object(),
            object: Object::new(alloc, bytes, part)?,
        })
    }

    /// The text of a member and its place, if the entry is of that kind.
    pub fn text(&self, kind: Kind, member: &str) -> Option<(&'v str, Span)> {
        if self.kind == kind {
            self.object.text(member)
        } else {
            None
        }
    }

    /// Whether it names lines of the crontab.
    pub fn names_lines(&self) -> bool {
        self.kind == Kind::Cron || self.kind == Kind::LeftOut
    }

    /// Adds the entries in its list of that kind; parts get its own index.
    pub fn push_list(
        &self,
        alloc: Global,
        bytes: &[u8],
        kind: Kind,
        entries: &mut Vec<Entry<'v>>,
    ) -> Done {
        let [list, ..] = kind.texts();
        let Some((value, span)) = self.object.member(list) else {
            return Ok(());
        };
        let Some(items) = value.as_array() else {
            return Ok(());
        };
        let places = parts(alloc, bytes, span)?;
        for (index, (part, value)) in places.iter().zip(items.iter()).enumerate() {
            let index = if kind == Kind::Part {
                self.index
            } else {
                index
            };
            let entry = Entry::new(alloc, bytes, (kind, index), (value, part.value))?;
            entries.push(entry)?;
        }
        Ok(())
    }
}

/// Adds a fault for each entry of a kind whose text in the member an earlier one has.
pub(crate) fn find_twice(
    findings: &mut Findings,
    bytes: &[u8],
    entries: &[Entry<'_>],
    (kind, member, called): (Kind, &str, &str),
) -> Done {
    let mut seen = IndexSet::new(findings.alloc);
    for entry in entries {
        if let Some((text, span)) = entry.text(kind, member) {
            if !seen.insert(text)? {
                let text = shown(findings.alloc, span.bytes(bytes))?;
                findings.twice(entry, span, format_args!("the {called} {text}"))?;
            }
        }
    }
    Ok(())
}

impl Findings {
    /// Adds a fault of an entry, with its place as the readers of declarations write it.
    pub fn fault_of(
        &mut self,
        entry: &Entry<'_>,
        span: Span,
        fault: DeclFault,
        why: impl Display + Drop,
    ) -> Done {
        let ([_, place, _, _], number) = (entry.kind.texts(), entry.index.saturating_add(1));
        if place.is_empty() || fault == DeclFault::BadShape {
            return self.fault(span, format_args!("{fault}: {why}"));
        }
        let at = format_args!("{fault} at {place} {number}");
        self.fault(span, format_args!("{at}: {why}"))
    }

    /// Adds the fault that something has an earlier entry.
    pub fn twice(&mut self, entry: &Entry<'_>, span: Span, what: impl Display + Drop) -> Done {
        let fault = match entry.kind {
            Kind::Part => DeclFault::BadParts,
            _ => DeclFault::TwiceDeclared,
        };
        let why = "has an entry already: remove one of the two";
        self.fault_of(entry, span, fault, format_args!("{what} {why}"))
    }
}

/// The texts of a member in entries of a kind, each with its last place.
pub fn texts_in<'v>(
    alloc: Global,
    entries: &[Entry<'v>],
    kind: Kind,
    member: &str,
) -> Result<IndexMap<&'v str, Span>, AllocError> {
    let mut texts = IndexMap::new(alloc);
    for entry in entries {
        if let Some((text, span)) = entry.text(kind, member) {
            texts.insert(text, span)?;
        }
    }
    Ok(texts)
}
