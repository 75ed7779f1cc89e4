//! The declared parts of a command that run-parts(8) runs.
use crate::entry::Tell;
use cs_diagnostics::{Done, Entry, Kind, Span, parts_in, quoted, shown, texts_in};
use cs_place::Place;
use indexmap::{IndexMap, IndexSet};

const ADVICE: &str = "as 'cronsafe draft --update' does";

/// Reports parts of the entry that its line doesn't have, and, unless a part lacks a name, those of
/// the line that the entry doesn't have.
pub(crate) fn find_moved(tell: &mut Tell<'_>, entry: &Entry<'_>, place: &Place) -> Done {
    let parts = parts_in(tell.findings.alloc, tell.bytes, entry)?;
    let names = texts_in(tell.findings.alloc, parts.as_slice(), Kind::Part, "name")?;
    if names.is_empty() {
        return Ok(());
    }
    find_gone(tell, &names, place)?;
    for part in parts.iter() {
        if part.object.text("name").is_none() {
            return Ok(());
        }
    }
    match entry.object.member("parts") {
        Some((_, span)) => find_new(tell, &names, Span::of(span.from, 1), place),
        None => Ok(()),
    }
}

fn find_gone(tell: &mut Tell<'_>, names: &IndexMap<&str, Span>, place: &Place) -> Done {
    let (alloc, line) = (tell.findings.alloc, place.line);
    let mut has = IndexSet::new(alloc);
    has.extend(place.parts.as_slice().iter().map(|part| part.as_slice()))?;
    for (name, span) in names.iter() {
        if !has.contains(name.as_bytes()) {
            let name = quoted(alloc, name)?;
            let words = format_args!("line {line} has no part {name} any more: remove it");
            tell.odd(*span, "", format_args!("{words}, {ADVICE}"))?;
        }
    }
    Ok(())
}

fn find_new(
    tell: &mut Tell<'_>,
    names: &IndexMap<&str, Span>,
    bracket: Span,
    place: &Place,
) -> Done {
    let (alloc, line) = (tell.findings.alloc, place.line);
    for part in place.parts.as_slice().iter() {
        let is_declared = match str::from_utf8(part.as_slice()) {
            Ok(name) => names.contains_key(name),
            Err(_) => false,
        };
        if !is_declared {
            let name = shown(alloc, part.as_slice())?;
            let words = format_args!(
                "line {line} has a part \"{name}\" that isn't declared: add it"
            );
            tell.odd(bracket, "", format_args!("{words}, {ADVICE}"))?;
        }
    }
    Ok(())
}
