//! The texts that explain one name, and that list all.
ghost use Rattle.std.specs.Prelude.{◌≡◌, option_map};
ghost use Rattle.std.specs.List.{find};
ghost use Rattle.cs_explain.specs.Odd.{is_alike, odd_named};

use crate::kind::{KINDS, Kind};
use crate::meaning::Meaning;
use std::alloc::{AllocError, Global};

/// Adds the line above the names of a kind, with an empty line before it if the text has others.
fn push_heading(text: &mut String, kind: Kind) -> Result<(), AllocError> {
    if !text.is_empty() {
        text.push_str("\n")?;
    }
    text.push_str(kind.heading())?;
    text.push_str("\n")
}

fn push_line(text: &mut String, front: &str, meaning: &Meaning) -> Result<(), AllocError> {
    text.push_str(front)?;
    text.push_str(meaning.name)?;
    text.push_str(": ")?;
    text.push_str(meaning.short)?;
    text.push_str("\n")
}

fn meaning_of<'a>(meanings: &'a [Meaning], name: &str) -> Option<&'a Meaning>
    ensures { option_map (λ meaning. meaning.now) result
        ≡ find (λ meaning. is_alike name.now meaning.name.now) meanings.now }
{
    meanings
        .iter()
        .find(|meaning| meaning.name.eq_ignore_ascii_case(name))
}

/// Adds the names of a kind, each with its short meaning on a line of its own.
fn push_names(text: &mut String, kind: Kind) -> Result<(), AllocError> {
    push_heading(text, kind)?;
    for meaning in kind.meanings() {
        push_line(text, "  ", meaning)?;
    }
    Ok(())
}

/// The names that messages print with that number, each with its short meaning, by kind. Empty for
/// a word that is no number.
fn names_numbered(alloc: Global, number: &str) -> Result<String, AllocError> {
    let mut text = String::new(alloc);
    let value = number.parse::<usize>().unwrap_or(0);
    let front = format!(in alloc; "{value} ")?;
    for kind in KINDS {
        if let Some(meaning) = kind.numbered(value) {
            push_heading(&mut text, kind)?;
            push_line(&mut text, front.as_str(), meaning)?;
        }
    }
    Ok(text)
}

/// Explains the name of a fault, a refusal or a reason of `unknown`, in lines of at most 80
/// columns: a paragraph for each kind of input or answer that has the name, with a wrong and a
/// right example if there is one. A number gets a line for each name that is printed with it. None
/// if nothing has the name. Case doesn't matter. The only error is out of memory.
pub fn explain(alloc: Global, name: &str) -> Result<Option<String>, AllocError> {
    let mut text = names_numbered(alloc, name)?;
    for kind in KINDS {
        if let Some(meaning) = meaning_of(kind.meanings(), name) {
            push_heading(&mut text, kind)?;
            push_line(&mut text, "  ", meaning)?;
            text.push_str(meaning.text)?;
            text.push_str("\n")?;
        }
    }
    if text.is_empty() {
        return Ok(None);
    }
    Ok(Some(text))
}

/// The name in the list of what `lint` calls odd. Case doesn't matter.
pub fn odd_name(name: &str) -> Option<&'static str>
    ensures { option_map (λ found. found.now) result ≡ odd_named name.now }
{
    let meaning = meaning_of(Kind::Odd.meanings(), name)?;
    Some(meaning.name)
}

/// All names, a line each with a short meaning, by kind of input or answer. The only error is out
/// of memory.
pub fn names(alloc: Global) -> Result<String, AllocError> {
    let mut text = String::new(alloc);
    for kind in KINDS {
        push_names(&mut text, kind)?;
    }
    Ok(text)
}
