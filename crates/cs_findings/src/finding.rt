ghost use Rattle.std.specs.Prelude.{◌≡◌, IfOk, string_bytes};

use crate::text::message_of;
use cs_diagnostics::{Level, Shown, Told};
use cs_files::Fault;
use std::alloc::{AllocError, Global};

/// A job that takes part in a verdict.
#[derive(Drop)]
pub struct JobTold<'a> {
    /// `line 3` or `job ID`.
    pub name: Vec<u8>,
    /// The path of its table.
    pub file: &'a str,
    /// The number of its line there, from 1.
    pub line: u64,
    /// `NAME:LINE (USER)`, where the line of a gathered table comes from.
    pub place: Option<Vec<u8>>,
    /// Its command.
    pub command: Vec<u8>,
    /// Its longest time, in minutes.
    pub max: u64,
    /// Its weight.
    pub weight: u64,
    /// The name of its group, if it is in one.
    pub group: Option<Vec<u8>>,
    /// How it takes the lock of its group: `none`, `skip`, `try`, `wait` or `shared`.
    pub mode: &'static str,
}

/// An event of the history that breaks a plan.
#[derive(Drop)]
pub struct Event {
    /// The minute up to which the history has come, such as `2024-09-13T23:30`, where it says one.
    pub minute: Option<String>,
    /// The word of the script for what happens, such as `start`.
    pub name: &'static str,
    /// The name of the job to which it happens, `line 3` or `job ID`, if it is one of a job.
    pub job: Option<Vec<u8>>,
}

/// What a verdict shows besides its place.
#[derive(Drop)]
pub struct Verdict<'a> {
    /// The minute at which a rule is broken, such as `2024-09-13T23:30`, where it is known.
    pub minute: Option<String>,
    /// The jobs that take part, the one that breaks the rule first.
    pub jobs: Vec<JobTold<'a>>,
    /// The history that breaks the plan, in order of time; empty if there is none.
    pub story: Vec<Event>,
}

/// One finding.
#[derive(Drop)]
pub struct Finding<'a> {
    /// The path of the file.
    pub file: &'a str,
    /// Its line, from 1; 0 for the whole file.
    pub line: u64,
    /// The column of its first byte, from 1, in bytes of the line.
    pub column: u64,
    /// The column after its last byte.
    pub end: u64,
    /// The line, without its newline.
    pub text: Vec<u8>,
    /// How severe it is.
    pub level: Level,
    /// Its name, which `explain` knows, such as `OutOfField`.
    pub rule: String,
    /// What it is, in one line.
    pub message: String,
    /// What a verdict shows.
    pub verdict: Option<Verdict<'a>>,
}

/// How the table at a path ends a call.
#[derive(Clone, Copy)]
pub struct TableStatus<'a> {
    /// The path of the crontab.
    pub table: &'a str,
    /// The status of a call for this table alone.
    pub status: u8,
    /// `safe`, `unsafe`, `unknown` or `refused`, where it was judged.
    pub verdict: Option<&'a str>,
}

/// How many ASCII letters a text begins with.
fn letters(text: &[u8]) -> usize {
    let mut count: usize = 0;
    for byte in text {
        if !byte.is_ascii_alphabetic() {
            return count;
        }
        count = count.saturating_add(1);
    }
    count
}

/// How many digits a text begins with.
fn digits(text: &[u8]) -> usize {
    let mut count: usize = 0;
    for byte in text {
        if !byte.is_ascii_digit() {
            return count;
        }
        count = count.saturating_add(1);
    }
    count
}

fn split(text: &[u8], at: usize) -> (&[u8], &[u8]) {
    text.split_at(at.min(text.len()))
}

/// The name that begins the words, without its number: `OutOfField` of `3 OutOfField: ..`. Empty if
/// none does.
pub fn name_in(words: &[u8]) -> &[u8] {
    let words = match split(words, digits(words)).1 {
        [b' ', others @ ..] => others,
        others => others,
    };
    let (name, behind) = split(words, letters(words));
    let is_name = match name {
        [first, ..] => first.is_ascii_uppercase(),
        [] => false,
    };
    let ends = match behind {
        [] | [b':', ..] => true,
        _ => behind.starts_with(b" at ".as_slice()),
    };
    if is_name && ends {
        name
    } else {
        b"".as_slice()
    }
}

/// The rule of a finding that says this.
fn rule_of(alloc: Global, level: Level, words: &[u8]) -> Result<String, AllocError> {
    let name = name_in(words);
    if !name.is_empty() {
        return String::from_utf8_lossy(alloc, name);
    }
    let rule = match level {
        Level::Note => "More",
        _ => "Odd",
    };
    String::from_str(alloc, rule)
}

impl<'a> Finding<'a> {
    /// What `lint` or a reader found in the file at a path: the name that begins its words is its
    /// rule, without its number; without a name it is `Odd`, and `More` of a note. The only error
    /// is out of memory.
    pub fn of(alloc: Global, file: &'a str, told: &Told) -> Result<Finding<'a>, AllocError> {
        Ok(Finding {
            file,
            line: told.line,
            column: told.column,
            end: told.end,
            text: Vec::from_slice(alloc, told.text.as_slice())?,
            level: told.level,
            rule: rule_of(alloc, told.level, told.words.as_str().as_bytes())?,
            message: String::from_str(alloc, told.words.as_str())?,
            verdict: None,
        })
    }

    /// What is found of a plan, in the line of the first job that takes part, or, if none does, in
    /// the whole file at `table`. The only error is out of memory.
    pub fn of_plan(
        alloc: Global,
        table: &'a str,
        level: Level,
        rule: &str,
        message: &[u8],
        verdict: Verdict<'a>,
    ) -> Result<Finding<'a>, AllocError>
        ensures level { IfOk result (λ finding. finding.level ≡ level) }
        ensures rule { IfOk result (λ finding. string_bytes finding.rule ≡ rule.now) }
    {
        let (file, line) = match verdict.jobs.as_slice() {
            [first, ..] => (first.file, first.line),
            [] => (table, 0),
        };
        Ok(Finding {
            file,
            line,
            column: 1,
            end: 1,
            text: Vec::new(alloc),
            level,
            rule: String::from_str(alloc, rule)?,
            message: message_of(alloc, message, &verdict)?,
            verdict: Some(verdict),
        })
    }

    /// One error in a whole file.
    fn whole(alloc: Global, file: &'a str, rule: String, message: String) -> Finding<'a> {
        Finding {
            file,
            line: 0,
            column: 1,
            end: 1,
            text: Vec::new(alloc),
            level: Level::Error,
            rule,
            message,
            verdict: None,
        }
    }
}

fn findings_shown<'a>(alloc: Global, shown: &'a Shown) -> Result<Vec<Finding<'a>>, AllocError> {
    let mut findings = Vec::new(alloc);
    for told in shown.told() {
        findings.push(Finding::of(alloc, shown.path(), told)?)?;
    }
    Ok(findings)
}

fn first_line(text: &[u8]) -> &[u8] {
    let mut count: usize = 0;
    for byte in text {
        if *byte == b'\n' {
            break;
        }
        count = count.saturating_add(1);
    }
    split(text, count).0
}

/// The first line of a complaint, without the program's name.
fn first_words(alloc: Global, complaint: &[u8]) -> Result<String, AllocError> {
    let line = first_line(complaint);
    let words = line.strip_prefix(b"cronsafe: ".as_slice()).unwrap_or(line);
    String::from_utf8_lossy(alloc, words)
}

const OF_CERTIFICATE: &[u8] = b"certificate: ";

/// The findings of a fault that ends a call, which are those that its lines show; without such lines
/// it is one, of the whole file. A fault that names no file is in the file at `certificate`. The
/// only error is out of memory, also where that is the fault.
pub fn findings_of_fault<'a>(
    alloc: Global,
    fault: &'a Fault<'_>,
    certificate: &'a str,
) -> Result<Vec<Finding<'a>>, AllocError> {
    if let Some(shown) = fault.shown() {
        return findings_shown(alloc, shown);
    }
    let response = fault.response(alloc, b"".as_slice())?;
    let message = first_words(alloc, response.err())?;
    let (file, rule) = match fault {
        Fault::CannotRead(path, _) => (*path, String::from_str(alloc, "Unread")?),
        _ => {
            let words = message.as_str().as_bytes();
            let words = words.strip_prefix(OF_CERTIFICATE).unwrap_or(words);
            (certificate, rule_of(alloc, Level::Error, words)?)
        }
    };
    let mut findings = Vec::new(alloc);
    findings.push(Finding::whole(alloc, file, rule, message))?;
    Ok(findings)
}
