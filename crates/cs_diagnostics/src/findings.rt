use crate::span::Span;
use std::alloc::{AllocError, Global};
use std::fmt::Display;

/// The most findings that are printed of one file.
pub const MAX_TOLD: usize = 100;

/// The result of a function whose only error is out of memory.
pub type Done = Result<(), AllocError>;

/// Words; the only error is out of memory.
pub type Words = Result<String, AllocError>;

/// Something in a file that is wrong or odd.
#[derive(Drop)]
pub(crate) struct Finding {
    /// Its line, from 1.
    pub(crate) line: u64,
    /// The offset of that line in the file.
    pub(crate) start: usize,
    /// Its place in that line.
    pub(crate) place: Span,
    /// What it is, in one line.
    pub(crate) words: String,
    /// The line whose note follows it.
    pub(crate) about: u64,
}

/// The first fault of a file, as its reader gives it.
#[derive(Clone, Copy)]
pub struct FirstFault<'a> {
    /// Its line, from 1; 0 for a fault of the whole file.
    pub line: u64,
    /// Its offset in that line, from 0.
    pub from: usize,
    /// It may also begin up to so many bytes later.
    pub more: usize,
    /// Its number and name.
    pub name: &'a str,
}

impl<'a> FirstFault<'a> {
    /// A fault in a line of a table; line and column count from 1. The fault of a setting may be
    /// shown anywhere in its length, others only at their column.
    pub fn of(
        line: u32,
        column: usize,
        length: usize,
        is_setting: bool,
        name: &'a str,
    ) -> FirstFault<'a> {
        FirstFault {
            line: u64::from(line),
            from: column.saturating_sub(1),
            more: if is_setting { length } else { 0 },
            name,
        }
    }
}

/// A note on a line, printed after each finding about it.
#[derive(Drop)]
pub struct Note {
    /// The number of the line, from 1.
    pub line: u64,
    /// One line of text.
    pub text: Vec<u8>,
}

/// How many findings begin at that offset of the file or before it.
fn rank(findings: &[Finding], from: usize) -> usize {
    for (at, found) in findings.iter().enumerate() {
        if from < found.start.saturating_add(found.place.from) {
            return at;
        }
    }
    findings.len()
}

/// Inserts a finding at its rank; if there are [`MAX_TOLD`], the last is dropped.
fn put(findings: &mut Vec<Finding>, finding: Finding) -> Done {
    if findings.len() >= MAX_TOLD {
        let _last = findings.pop();
    }
    let from = finding.start.saturating_add(finding.place.from);
    let rank = rank(findings.as_slice(), from).min(findings.len());
    findings.insert(rank, finding)?;
    Ok(())
}

fn is_named(words: &str, name: &str) -> bool {
    match words.strip_prefix(name) {
        Some(rest) => rest.starts_with(':'),
        None => false,
    }
}

/// The advice for faults that no other check explains.
const ADVICE: [(&str, &str); 7] = [
    (
        "1 TooLong",
        "a line has at most 4,096 bytes, a table 1,048,576: shorten it",
    ),
    (
        "11 NoCommand",
        "the command is missing: add it after the user",
    ),
    (
        "13 BadUser",
        "this can't be a user, who stands before the command: add one",
    ),
    (
        "12 TooManyJobs",
        "a crontab has at most 256 commands: join some in one script",
    ),
    (
        "11 TooManyJobs",
        "an anacrontab has at most 64 jobs: join some in one script",
    ),
    (
        "9 TwiceNamed",
        "a line above has this identifier: choose another one",
    ),
    (
        "10 Continued",
        "continued lines aren't read: write it all on one line",
    ),
];

fn advice(name: &str) -> &'static str {
    for (known, why) in ADVICE {
        if known == name {
            return why;
        }
    }
    "see 'cronsafe explain'"
}

/// Findings in one file. The first [`MAX_TOLD`] are kept, first faults and then oddities, each by
/// place; the others are counted.
#[derive(Drop)]
pub struct Findings {
    /// Where its memory comes from.
    pub alloc: Global,
    /// The offsets of the file's lines.
    starts: Vec<usize>,
    /// What is wrong, by place.
    pub(crate) faults: Vec<Finding>,
    /// What is odd, by place.
    pub(crate) oddities: Vec<Finding>,
    pub(crate) more: u64,
    /// Whether anything odd was found.
    pub has_oddities: bool,
    /// The line that later findings are about, whose note follows them: none for the line of their
    /// place, 0 for no line.
    pub about: Option<u64>,
}

impl Findings {
    /// No findings yet, in a file with these bytes.
    pub fn new(alloc: Global, bytes: &[u8]) -> Result<Findings, AllocError> {
        let mut starts = Vec::new(alloc);
        starts.push(0)?;
        for (i, byte) in bytes.iter().enumerate() {
            if *byte == b'\n' {
                starts.push(i.saturating_add(1))?;
            }
        }
        Ok(Findings {
            alloc,
            starts,
            faults: Vec::new(alloc),
            oddities: Vec::new(alloc),
            more: 0,
            has_oddities: false,
            about: None,
        })
    }

    /// The offset of the line, or of the last one if there are fewer; line 0 begins where line 1
    /// does.
    pub(crate) fn line_start(&self, line: u64) -> usize {
        let start = self.starts.get(line.saturating_sub(1) as usize);
        start.or(self.starts.last()).copied().unwrap_or(0)
    }

    fn add(&mut self, is_odd: bool, place: Span, words: impl Display + Drop) -> Done {
        if self.faults.len().saturating_add(self.oddities.len()) >= MAX_TOLD {
            self.more = self.more.saturating_add(1);
        }
        let (faults, oddities) = (self.faults.as_slice(), self.oddities.as_slice());
        let before = if is_odd { faults.len() } else { 0 };
        let among = if is_odd { oddities } else { faults };
        if before.saturating_add(rank(among, place.from)) >= MAX_TOLD {
            return Ok(());
        }
        let line = self.starts.partition_point(|start| *start <= place.from) as u64;
        let start = self.line_start(line);
        let finding = Finding {
            line,
            start,
            place: Span::of(place.from.saturating_sub(start), place.len()),
            words: format!(in self.alloc; "{words}")?,
            about: self.about.unwrap_or(line),
        };
        if is_odd {
            return put(&mut self.oddities, finding);
        }
        put(&mut self.faults, finding)
    }

    /// Adds something wrong.
    pub fn fault(&mut self, place: Span, words: impl Display + Drop) -> Done {
        self.add(false, place, words)
    }

    /// Adds something odd.
    pub fn odd(&mut self, place: Span, words: impl Display + Drop) -> Done {
        self.has_oddities = true;
        self.add(true, place, words)
    }

    /// Whether a finding reports the fault: by its name and place.
    pub fn tells(&self, fault: &FirstFault<'_>) -> bool {
        for found in self.faults.iter() {
            let from = found.place.from;
            let is_there = fault.from <= from && from.saturating_sub(fault.from) <= fault.more;
            let is_named = found.words.as_bytes().starts_with(fault.name.as_bytes());
            if is_named && (fault.line == 0 || found.line == fault.line && is_there) {
                return true;
            }
        }
        false
    }

    /// Drops all faults but those of that name and place.
    pub(crate) fn keep_named(&mut self, name: &str) {
        self.more = 0;
        self.faults
            .retain(|found| is_named(found.words.as_str(), name));
    }

    /// Whether anything wrong was found.
    pub fn has_faults(&self) -> bool {
        !self.faults.is_empty()
    }

    /// Whether no more faults can be kept.
    pub fn is_full(&self) -> bool {
        self.faults.len() >= MAX_TOLD
    }

    /// Adds a fault, unless a finding reports it.
    pub fn keep(&mut self, fault: &FirstFault<'_>) -> Done
    // Faults that were reported still are, unless there are a hundred.
    {
        if self.tells(fault) {
            return Ok(());
        }
        let (name, why) = (fault.name, advice(fault.name));
        let words = format!(in self.alloc; "{name}: {why}")?;
        let line = fault.line.max(1);
        let finding = Finding {
            line,
            start: self.line_start(fault.line),
            place: Span::of(fault.from, 1),
            words,
            about: self.about.unwrap_or(line),
        };
        put(&mut self.faults, finding)?;
        Ok(())
    }

    /// Whether a fault at this place would be kept, as far as is known; else counts it.
    pub fn takes_fault(&mut self, place: Span) -> bool {
        let takes = rank(self.faults.as_slice(), place.from) < MAX_TOLD;
        if !takes {
            self.more = self.more.saturating_add(1);
        }
        takes
    }
}
