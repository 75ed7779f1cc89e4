//! The lines that show a fault of a table or of declarations: its place, and what is wrong there.
ghost use Rattle.cs_files.specs.Trouble.{IsFaultOf};

use crate::fault::Fault;
use cs_anacrontab::{AnacronFault, JobFault};
use cs_crontab::{LineFault, TableFault as CrontabFault};
use cs_diagnostics::{File, FirstFault, Shown, TableKind, declared_lines, table_lines};
use cs_plan::DeclError;
use std::alloc::{AllocError, Global};

/// The lines that show the first fault of a crontab; none for people if it reads as an anacrontab.
/// None if memory ran out.
pub(crate) fn crontab_lines(
    alloc: Global,
    path: &str,
    bytes: &[u8],
    fault: CrontabFault,
    are_jobs: bool,
) -> Result<Option<Shown>, AllocError> {
    let CrontabFault::At {
        line,
        column,
        length,
        fault,
    } = fault
    else {
        return Ok(None);
    };
    let is_setting = fault == LineFault::BadSetting;
    let first = FirstFault::of(line, column, length, is_setting, fault.text());
    if are_jobs {
        let why = "the table reads as an anacrontab: give it with --anacrontab";
        let words = format!(in alloc; "{}: {why}", fault.text())?;
        return Ok(Some(Shown::alone(alloc, path, u64::from(line), words)?));
    }
    let file = File { path, bytes };
    Ok(Some(table_lines(alloc, &file, TableKind::Crontab, &first)?))
}

/// The same for an anacrontab.
pub(crate) fn anacrontab_lines(
    alloc: Global,
    path: &str,
    bytes: &[u8],
    fault: AnacronFault,
) -> Result<Option<Shown>, AllocError> {
    let AnacronFault::At {
        line,
        column,
        length,
        fault,
    } = fault
    else {
        return Ok(None);
    };
    let is_setting = fault == JobFault::BadSetting;
    let first = FirstFault::of(line, column, length, is_setting, fault.text());
    let file = File { path, bytes };
    Ok(Some(table_lines(alloc, &file, TableKind::Anacrontab, &first)?))
}

/// Returns a fault of declarations, with the lines that show it. `has_jobs`: whether the anacrontab
/// has jobs, which the lines say where an entry is for one.
pub fn declared_fault<'a>(
    alloc: Global,
    path: &str,
    bytes: &[u8],
    has_jobs: bool,
    error: DeclError,
) -> Fault<'a>
    ensures { IsFaultOf error result }
{
    match declared_lines(alloc, &File { path, bytes }, &error, has_jobs) {
        Ok(lines) => Fault::Declarations(error, lines),
        Err(AllocError) => Fault::OutOfMemory,
    }
}
