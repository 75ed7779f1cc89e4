//! The answers on all tables as one.
ghost use Rattle.std.specs.Prelude.{◌≡◌, IfOk, map};
ghost use Rattle.cs_all.specs.Answer.{IsMostSevere, IsWorst, severity};

use cs_args::Format;
use cs_civil::Bytes;
use cs_files::{Response, Status};
use cs_findings::{Finding, TableStatus, written};
use cs_place::push_shown;
use std::alloc::{AllocError, Global};

/// What is told of a path.
#[derive(Drop)]
pub(crate) struct Told<'a> {
    pub(crate) path: &'a str,
    /// The status of a call for it alone.
    pub(crate) status: Status,
    /// The word of its line; none if it gets no line.
    pub(crate) word: Option<&'static str>,
    /// The same where it was judged.
    pub(crate) verdict: Option<&'static str>,
    /// For standard output, after its line; empty in another form than text.
    pub(crate) out: Vec<u8>,
    /// For standard error.
    pub(crate) warnings: &'a [u8],
    /// For standard error, after the warnings.
    pub(crate) err: Vec<u8>,
    /// The findings in another form than text; none in text.
    pub(crate) findings: Vec<Finding<'a>>,
}

fn severity(status: Status) -> u8
    ensures { result ≡ severity status }
{
    match status {
        Status::Done => 0,
        Status::Unknown => 1,
        Status::Refused => 2,
        Status::BadInput => 3,
        Status::NoCall => 4,
        Status::NoMemory => 5,
        Status::DeviceFailed => 6,
    }
}

fn most_severe(all: &[Told<'_>]) -> Status
    ensures { IsMostSevere (map (λ told. told.status) all.now) result }
{
    let mut most = Status::Done;
    for told in all {
        if severity(most) < severity(told.status) {
            most = told.status;
        }
    }
    most
}

/// The path as a terminal may show it.
fn push_path(text: &mut Vec<u8>, path: &str, rest: &str) -> Result<(), AllocError> {
    push_shown(text, path.as_bytes())?;
    text.extend_from_slice(rest.as_bytes())
}

/// A line for each table, and after it what a call for it alone prints.
fn lines(alloc: Global, all: &[Told<'_>]) -> Result<Vec<u8>, AllocError> {
    let mut text = Vec::new(alloc);
    for told in all {
        if let Some(word) = told.word {
            push_path(&mut text, told.path, ": ")?;
            text.extend_from_slice(word.as_bytes())?;
            text.push(b'\n')?;
        }
        text.extend_from_slice(told.out.as_slice())?;
    }
    Ok(text)
}

/// The lines for standard error of each table, after one with its path.
fn errors(alloc: Global, all: &[Told<'_>]) -> Result<Vec<u8>, AllocError> {
    let mut text = Vec::new(alloc);
    for told in all {
        let is_quiet = told.warnings.is_empty() && told.err.is_empty();
        if told.word.is_some() && !is_quiet {
            push_path(&mut text, told.path, ":\n")?;
        }
        text.extend_from_slice(told.warnings)?;
        text.extend_from_slice(told.err.as_slice())?;
    }
    Ok(text)
}

fn in_format(alloc: Global, format: Format, all: Vec<Told<'_>>) -> Result<Vec<u8>, AllocError> {
    let (mut tables, mut findings) = (Vec::new(alloc), Vec::new(alloc));
    for told in all {
        if told.word.is_some() {
            tables.push(TableStatus {
                table: told.path,
                status: told.status.code(),
                verdict: told.verdict,
            })?;
        }
        let mut more = told.findings;
        findings.append(&mut more)?;
    }
    written(alloc, format, findings.as_slice(), tables.as_slice())
}

/// The answers as one, whose status is the most severe. The only error is out of memory.
pub(crate) fn response_of(
    alloc: Global,
    format: Format,
    all: Vec<Told<'_>>,
) -> Result<Response, AllocError>
    ensures { IfOk result (IsWorst (map (λ told. told.status) all.entry.items)) }
{
    let most = most_severe(all.as_slice());
    let err = errors(alloc, all.as_slice())?;
    let out = match format {
        Format::Text => lines(alloc, all.as_slice())?,
        _ => in_format(alloc, format, all)?,
    };
    Ok(Response::told(most, out, Bytes::from_vec(err)))
}
