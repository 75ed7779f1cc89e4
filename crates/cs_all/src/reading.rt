//! What the tables below folders hold, read one after the other.
ghost use Rattle.std.specs.Prelude.{◌≡◌};

use crate::below::{Found, Kind};
use cs_claims::MAX_CERTIFICATE;
use cs_files::{Fault, Planned, all_bytes_at, bytes_at, find_plan};
use cs_io::{CannotWrite, Inputs, Output};
use cs_lint::Texts;
use cs_table::MAX_TABLE;
use std::alloc::{AllocError, Global};

/// What is asked of each table.
#[derive(Clone, Copy, PartialEq, Eq)]
pub(crate) enum Aim {
    /// Whether it is safe.
    Judge,
    /// All that is wrong or odd in it.
    Lint,
}

/// What is told of at a path.
#[derive(Drop)]
pub(crate) enum Content<'a> {
    /// A plan to be judged.
    Plan(Planned),
    /// A plan, and the text of a certificate that is claimed for it.
    Claim(Planned, Vec<u8>),
    /// Texts to be linted.
    Lines(Texts),
    /// A fault, or that something can't be read.
    Fault(Fault<'a>),
    /// A table to be judged that has no declarations.
    Undeclared,
    /// A file that belongs to a table, which isn't there.
    Stray,
    /// No table is below any folder of the call.
    Bare,
}

#[derive(Drop)]
pub(crate) struct Read<'a> {
    found: &'a Found,
    /// For standard error.
    pub(crate) warnings: Vec<u8>,
    pub(crate) content: Content<'a>,
}

impl Read<'_> {
    pub(crate) fn found(&self) -> &Found {
        self.found
    }
}

/// Keeps what is written to it.
#[derive(Drop)]
struct Kept {
    text: Vec<u8>,
    has_failed: bool,
}

impl Output for Kept {
    ghost failed = { λ kept. kept.has_failed };

    fn print(&mut self, text: &[u8]) -> Result<(), CannotWrite> {
        match self.text.extend_from_slice(text) {
            Ok(()) => Ok(()),
            Err(_) => {
                self.has_failed = true;
                Err(CannotWrite)
            }
        }
    }
}

pub(crate) fn path_in(path: &Option<String>) -> Option<&str> {
    match path {
        Some(path) => Some(path.as_str()),
        None => None,
    }
}

fn some_bytes_at<'a, I: Inputs>(
    alloc: Global,
    inputs: &mut I,
    path: Option<&'a str>,
    limit: u32,
) -> Result<Option<Vec<u8>>, Fault<'a>> {
    match path {
        Some(path) => Ok(Some(bytes_at(alloc, inputs, path, limit)?)),
        None => Ok(None),
    }
}

/// The certificate is read first.
fn plan_at<'a, I: Inputs>(
    alloc: Global,
    inputs: &mut I,
    err: &mut Kept,
    found: &'a Found,
) -> Result<Content<'a>, Fault<'a>> {
    let Some(declarations) = path_in(&found.declarations) else {
        let _table = bytes_at(alloc, inputs, found.path.as_str(), MAX_TABLE as u32)?;
        return Ok(Content::Undeclared);
    };
    let certificate = path_in(&found.certificate);
    let certificate = some_bytes_at(alloc, inputs, certificate, MAX_CERTIFICATE as u32)?;
    let (table, jobs) = (found.path.as_str(), path_in(&found.anacrontab));
    let planned = find_plan(alloc, inputs, err, table, jobs, declarations)?;
    match certificate {
        Some(certificate) => Ok(Content::Claim(planned, certificate)),
        None => Ok(Content::Plan(planned)),
    }
}

fn texts_at<'a, I: Inputs>(
    alloc: Global,
    inputs: &mut I,
    found: &'a Found,
) -> Result<Content<'a>, Fault<'a>> {
    let table = bytes_at(alloc, inputs, found.path.as_str(), MAX_TABLE as u32)?;
    let jobs = some_bytes_at(alloc, inputs, path_in(&found.anacrontab), MAX_TABLE as u32)?;
    let declarations = match path_in(&found.declarations) {
        Some(path) => Some(all_bytes_at(alloc, inputs, path)?),
        None => None,
    };
    Ok(Content::Lines(Texts::new(alloc, table, jobs, declarations)))
}

/// Reads what belongs to a path that was found, and adds it.
fn push_read<'a, I: Inputs>(
    alloc: Global,
    inputs: &mut I,
    aim: Aim,
    found: &'a Found,
    all: &mut Vec<Read<'a>>,
) -> Result<(), AllocError> {
    let mut err = Kept {
        text: Vec::new(alloc),
        has_failed: false,
    };
    let content = match found.kind {
        Kind::Table if aim == Aim::Lint => texts_at(alloc, inputs, found),
        Kind::Table => plan_at(alloc, inputs, &mut err, found),
        Kind::Unread(reason) => Err(Fault::CannotRead(found.path.as_str(), reason)),
        Kind::Stray => Ok(Content::Stray),
        Kind::Bare => Ok(Content::Bare),
    };
    let content = match content {
        Ok(content) => content,
        Err(Fault::OutOfMemory) => return Err(AllocError),
        Err(fault) => Content::Fault(fault),
    };
    let Kept { text, has_failed } = err;
    all.push(Read {
        found,
        warnings: text,
        content,
    })?;
    if has_failed { Err(AllocError) } else { Ok(()) }
}

/// Reads what belongs to each path that was found, in turn. The only error is out of memory.
pub(crate) fn read_all<'a, I: Inputs>(
    alloc: Global,
    inputs: &mut I,
    aim: Aim,
    found: &'a [Found],
    all: &mut Vec<Read<'a>>,
) -> Result<(), AllocError> {
    for one in found {
        push_read(alloc, inputs, aim, one, all)?;
    }
    Ok(())
}
