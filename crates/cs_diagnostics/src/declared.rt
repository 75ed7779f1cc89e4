//! Faults of declarations' entries, by themselves and beside each other.
use crate::entry::{Entry, Kind, find_twice, texts_in};
use crate::findings::{Done, Findings, Words};
use crate::names::{nearest, quoted};
use crate::outline::trimmed;
use crate::shape::{find_in_entry, has_meant};
use crate::span::Span;
use crate::zone::find_in_zone;
use cs_plan::{DeclFault, MAX_GROUPS, MAX_MINUTES};
use indexmap::IndexMap;
use serde_json::Value;
use std::alloc::{AllocError, Global};

/// The parts that an entry of `cron` lists. The only error is out of memory.
pub fn parts_in<'v>(
    alloc: Global,
    bytes: &[u8],
    entry: &Entry<'v>,
) -> Result<Vec<Entry<'v>>, AllocError> {
    let mut parts = Vec::new(alloc);
    if entry.kind == Kind::Cron {
        entry.push_list(alloc, bytes, Kind::Part, &mut parts)?;
    }
    Ok(parts)
}

/// Adds the faults of an entry's parts, of each and of their sum.
fn find_in_parts(findings: &mut Findings, bytes: &[u8], entry: &Entry<'_>) -> Done {
    let parts = parts_in(findings.alloc, bytes, entry)?;
    let mut minutes = Some(0i128);
    for part in parts.iter() {
        find_in_entry(findings, part)?;
        minutes = match (minutes, part.object.whole("max")) {
            (Some(sum), Some((max, _))) if 1 <= max && max <= i128::from(MAX_MINUTES) => {
                Some(sum.saturating_add(max))
            }
            _ => None,
        };
    }
    find_twice(
        findings,
        bytes,
        parts.as_slice(),
        (Kind::Part, "name", "part"),
    )?;
    let (Some(minutes), Some((max, span))) = (minutes, entry.object.whole("max")) else {
        return Ok(());
    };
    if parts.is_empty() || minutes <= max {
        return Ok(());
    }
    let sum = format_args!("the parts add up to {minutes}");
    if minutes > i128::from(MAX_MINUTES) {
        let why = format_args!("{sum}, and \"max\" is at most {MAX_MINUTES}: lower theirs");
        return findings.fault_of(entry, span, DeclFault::BadParts, why);
    }
    let why = format_args!("{sum}: set \"max\" to at least {minutes}, or correct a part");
    findings.fault_of(entry, span, DeclFault::BadParts, why)
}

fn no_group_words(alloc: Global, groups: &IndexMap<&str, Span>, name: &str) -> Words {
    let known = groups.keys().take(MAX_GROUPS).copied();
    let known = known.collect::<Vec<&str>>(alloc)?;
    let text = quoted(alloc, name)?;
    match nearest(alloc, name, known.as_slice())? {
        Some(near) => format!(in alloc; "no group is named {text}: did you mean \"{near}\"?"),
        None if groups.is_empty() => {
            format!(in alloc; "\"groups\" is empty: add this group to it")
        }
        None => format!(in alloc; "no group is named {text}: add it to \"groups\""),
    }
}

/// Declarations that are JSON: the whole and its entries.
#[derive(Drop)]
pub struct Declarations<'v> {
    pub whole: Entry<'v>,
    /// The default, the groups, and the entries of `cron`, `anacron` and `left_out`.
    pub entries: Vec<Entry<'v>>,
}

impl<'v> Declarations<'v> {
    /// `value` is what `bytes` are in JSON. The only error is out of memory.
    pub fn new(
        alloc: Global,
        bytes: &[u8],
        value: &'v Value,
    ) -> Result<Declarations<'v>, AllocError> {
        let span = trimmed(bytes, Span::of(0, bytes.len()));
        let whole = Entry::new(alloc, bytes, (Kind::Whole, 0), (value, span))?;
        let mut entries = Vec::new(alloc);
        if let Some(part) = whole.object.member("default") {
            entries.push(Entry::new(alloc, bytes, (Kind::Default, 0), part)?)?;
        }
        for kind in [Kind::Group, Kind::Cron, Kind::Anacron, Kind::LeftOut] {
            whole.push_list(alloc, bytes, kind, &mut entries)?;
        }
        Ok(Declarations { whole, entries })
    }

    /// Whether all entries of a kind are known: their list is one, and no misspelt member may be
    /// meant. The only error is out of memory.
    pub fn has_all(&self, alloc: Global, kind: Kind) -> Result<bool, AllocError> {
        let [list, ..] = kind.texts();
        match self.whole.object.member(list) {
            Some((value, _)) => Ok(value.is_array()),
            None => Ok(!has_meant(alloc, &self.whole.object, list)?),
        }
    }

    /// Adds all faults that show without the tables.
    pub fn find_faults(&self, findings: &mut Findings, bytes: &[u8]) -> Done {
        if !self.whole.is_object {
            let fault = DeclFault::BadShape;
            let why = "declarations are one object: write {..}";
            return findings.fault(self.whole.place, format_args!("{fault}: {why}"));
        }
        find_in_entry(findings, &self.whole)?;
        for entry in self.entries.iter() {
            if entry.is_object || entry.kind != Kind::Default {
                find_in_entry(findings, entry)?;
                find_in_parts(findings, bytes, entry)?;
            }
        }
        self.find_in_groups(findings)?;
        find_in_zone(findings, &self.whole)?;
        let entries = self.entries.as_slice();
        find_twice(findings, bytes, entries, (Kind::Group, "name", "group"))?;
        find_twice(
            findings,
            bytes,
            entries,
            (Kind::Anacron, "id", "identifier"),
        )
    }

    /// Adds the faults of groups, and of entries' groups.
    fn find_in_groups(&self, findings: &mut Findings) -> Done {
        let alloc = findings.alloc;
        let groups = texts_in(alloc, self.entries.as_slice(), Kind::Group, "name")?;
        let has_all_groups = self.has_all(alloc, Kind::Group)?;
        for entry in self.entries.iter() {
            let object = &entry.object;
            match (entry.kind, object.text("group"), object.text("mode")) {
                (Kind::Group, _, _) if entry.index == MAX_GROUPS && entry.is_object => {
                    let why = "this is group 65 of at most 64: remove groups without jobs";
                    findings.fault_of(entry, object.bracket, DeclFault::TooManyGroups, why)?;
                }
                (Kind::Cron | Kind::Anacron, Some((name, span)), _)
                    if has_all_groups && !groups.contains_key(name) => {
                    let why = no_group_words(alloc, &groups, name)?;
                    findings.fault_of(entry, span, DeclFault::UnknownGroup, why.as_str())?;
                }
                (Kind::Cron, None, Some(("skip" | "try" | "wait" | "shared", span)))
                    if !object.has("group") => {
                    let why = "add the \"group\" whose lock it takes, or remove \"mode\"";
                    findings.fault_of(entry, span, DeclFault::ModeNeedsGroup, why)?;
                }
                _ => {}
            }
        }
        Ok(())
    }
}
