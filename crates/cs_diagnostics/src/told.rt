//! Findings as programs read them.
ghost use Rattle.std.specs.Prelude.{◌≡◌, ◌++◌, List, OnOk, map};
ghost use Rattle.cs_diagnostics.specs.Printed.{printed_oddities, words_in, words_told};
ghost use Rattle.cs_diagnostics.specs.declared.told.Told.{Told};

use crate::findings::{Done, Finding, Findings, MAX_TOLD};
use crate::span::Span;
use cs_civil::{Bytes, Sequence};
use std::alloc::{AllocError, Global};
use std::marker::Model;

/// How severe a finding is.
#[derive(Clone, Copy, PartialEq, Eq)]
pub enum Level {
    /// The files are refused, or unsafe.
    Error,
    /// Probably a mistake.
    Warning,
    /// Worth knowing.
    Note,
}

/// A finding as programs read it.
#[derive(Drop)]
pub struct Told {
    /// Its line, from 1; 0 for the whole file.
    pub line: u64,
    /// The column of its first byte, from 1, in bytes of the line.
    pub column: u64,
    /// The column after its last byte.
    pub end: u64,
    /// An error for a fault, a warning for what is odd.
    pub level: Level,
    /// What it is, in one line.
    pub words: String,
    /// The line, without its newline.
    pub text: Vec<u8>,
}

/// Findings in a file, as people and as programs read them.
#[derive(Drop)]
pub struct Shown {
    path: String,
    lines: Bytes,
    told: Sequence<Told>,
}

impl Model for Shown {
    ghost use Rattle.std.specs.Prelude.{ℕ, List};

    ghost Value = { List ℕ };

    ghost view = { λ s. s.lines };
}

impl Shown {
    /// Findings in the file at a path, with the lines that show them.
    pub(crate) fn new(
        alloc: Global,
        path: &str,
        lines: Bytes,
        told: Vec<Told>,
    ) -> Result<Shown, AllocError> {
        Ok(Shown {
            path: String::from_str(alloc, path)?,
            lines,
            told: Sequence::from_vec(told),
        })
    }

    /// One fault in a line, without lines that show it.
    pub fn alone(alloc: Global, path: &str, line: u64, words: String) -> Result<Shown, AllocError> {
        let mut told = Vec::new(alloc);
        told.push(Told {
            line,
            column: 1,
            end: 1,
            level: Level::Error,
            words,
            text: Vec::new(alloc),
        })?;
        Shown::new(alloc, path, Bytes::new(alloc), told)
    }

    /// The path of the file.
    pub fn path(&self) -> &str {
        self.path.as_str()
    }

    /// The lines for people, after a newline and without the last one.
    pub fn lines(&self) -> &[u8]
        ensures { result.now ≡ self.now }
    {
        self.lines.as_slice()
    }

    /// The same findings, in the same order.
    pub fn told(&self) -> &[Told] {
        self.told.as_slice()
    }
}

/// The line that begins at this offset.
fn line_at(bytes: &[u8], start: usize) -> &[u8] {
    let rest = Span::between(start, bytes.len()).bytes(bytes);
    match rest.split(|byte| *byte == b'\n').next() {
        Some(line) => line,
        None => &[],
    }
}

fn push_told(
    alloc: Global,
    bytes: &[u8],
    level: Level,
    findings: &[Finding],
    told: &mut Vec<Told>,
) -> Done
    ensures { OnOk result (map words_told told.new.items
        ≡ map words_told told.old.items ++ map words_in findings.now) }
{
    for finding in findings {
        let place = finding.place;
        told.push(Told {
            line: finding.line,
            column: (place.from as u64).saturating_add(1),
            end: (place.to as u64).saturating_add(1),
            level,
            words: String::from_str(alloc, finding.words.as_str())?,
            text: Vec::from_slice(alloc, line_at(bytes, finding.start))?,
        })?;
    }
    Ok(())
}

fn and_more(alloc: Global, more: u64) -> Result<Told, AllocError> {
    Ok(Told {
        line: 0,
        column: 1,
        end: 1,
        level: Level::Note,
        words: format!(in alloc; "and {more} more")?,
        text: Vec::new(alloc),
    })
}

impl Findings {
    /// Adds the findings that [`tell`](Findings::tell) prints, in the same order, for a file of
    /// these bytes; the last line of its text, that there are more, is a note on the whole file.
    pub fn push_told(&self, bytes: &[u8], told: &mut Vec<Told>) -> Done
        ensures { OnOk result ((last : List Told) × (map words_told told.new.items
            ≡ ((map words_told told.old.items ++ map words_in self.now.faults.items)
            ++ map words_in (printed_oddities self.now)) ++ map words_told last)) }
    {
        let alloc = self.alloc;
        push_told(alloc, bytes, Level::Error, self.faults.as_slice(), told)?;
        push_told(alloc, bytes, Level::Warning, self.printed_oddities(), told)?;
        if self.more == 0 {
            return Ok(());
        }
        let last = and_more(alloc, self.more)?;
        told.push(last)?;
        Ok(())
    }
}
