ghost use Rattle.std.specs.Prelude.{◌≡◌, ◌++◌, IfOk, IfSome, None, OnOk, Some, codes, decimal};
ghost use Rattle.std.specs.Prelude.{option_map};
ghost use Rattle.cs_args.specs.Words.{word_fault};
ghost use Rattle.cs_io.specs.Reasons.{reason_text};
ghost use Rattle.cs_files.specs.Response.{status_of};
ghost use Rattle.cs_files.specs.Trouble.{Says, certificate_trouble, declared_trouble, ends};
ghost use Rattle.cs_files.specs.Trouble.{gathered_trouble, jobs_hint, lines_in, no_zone_line};
ghost use Rattle.cs_files.specs.Trouble.{jobs_trouble, script_trouble, table_trouble, trouble};
ghost use Rattle.cs_files.specs.Trouble.{trouble_status, word_hint};
ghost use Rattle.cs_files.specs.declared.fault.Fault.TheVariants.{Declarations};
ghost use Rattle.cs_files.specs.declared.fault.Fault.TheVariants.{OutOfMemory, Words};

use crate::response::{Response, Status};
use cs_anacrontab::AnacronFault;
use cs_args::WordFault;
use cs_civil::push_number;
use cs_claims::CertError;
use cs_crontab::TableFault as CrontabFault;
use cs_diagnostics::Shown;
use cs_io::Reason;
use cs_plan::DeclError;
use cs_report::ScriptError;
use cs_system::SystemFault;
use cs_table::TableFault;
use std::alloc::{AllocError, AllocFailed, Global};

/// Why a call ends before all of it was done.
#[derive(Drop)]
pub enum Fault<'a> {
    /// The words of the call hold a fault.
    Words(WordFault),
    /// This path can't be read, for this reason.
    CannotRead(&'a str, Reason),
    /// The crontab holds a fault, whether it reads as an anacrontab, and lines that show the fault.
    Crontab(CrontabFault, bool, Option<Shown>),
    /// The anacrontab holds a fault, and lines that show it.
    Anacrontab(AnacronFault, Option<Shown>),
    /// The table at this path, one of those that are gathered, holds a fault, and lines show it.
    Gathered(&'a str, TableFault<SystemFault>, Option<Shown>),
    /// The declarations, or the plan that they make of the tables, hold a fault, and lines show it.
    Declarations(DeclError, Option<Shown>),
    /// The script holds a fault.
    Script(ScriptError),
    /// The text of the certificate holds a fault.
    Certificate(CertError),
    /// The file at this path isn't one of a time zone.
    NoZone(&'a str),
    /// Memory ran out.
    OutOfMemory,
}

impl<'a> From<AllocError> for Fault<'a> {
    ghost from_gives = { λ _ fault. fault ≡ OutOfMemory };

    fn from(_error: AllocError) -> Fault<'a> {
        Fault::OutOfMemory
    }
}

impl<'a, T: Drop> From<AllocFailed<T>> for Fault<'a> {
    ghost from_gives = { λ _ fault. fault ≡ OutOfMemory };

    fn from(_error: AllocFailed<T>) -> Fault<'a> {
        Fault::OutOfMemory
    }
}

impl<'a> From<WordFault> for Fault<'a> {
    ghost from_gives = { λ error fault. fault ≡ Words error };

    fn from(error: WordFault) -> Fault<'a> {
        Fault::Words(error)
    }
}

impl<'a> From<DeclError> for Fault<'a> {
    ghost from_gives = { λ error fault. fault ≡ Declarations error None };

    fn from(error: DeclError) -> Fault<'a> {
        Fault::Declarations(error, None)
    }
}

fn line_text(alloc: Global, file: &[u8], line: u32, fault: &str) -> Result<Vec<u8>, AllocError>
    ensures { IfOk result
        (λ text. text.items ≡ file.now ++ (decimal line ++ (codes ": " ++ fault.now))) }
{
    let mut text = Vec::from_slice(alloc, file)?;
    push_number(alloc, &mut text, u128::from(line))?;
    text.extend_from_slice(b": ")?;
    text.extend_from_slice(fault.as_bytes())?;
    Ok(text)
}

fn named_text(alloc: Global, name: &[u8], rest: &[u8]) -> Result<Vec<u8>, AllocError>
    ensures { IfOk result (λ text. text.items ≡ name.now ++ rest.now) }
{
    let mut text = Vec::from_slice(alloc, name)?;
    text.extend_from_slice(rest)?;
    Ok(text)
}

fn unread_text(alloc: Global, path: &str, reason: Reason) -> Result<Vec<u8>, AllocError>
    ensures { IfOk result (λ text. text.items ≡
        codes "can't read " ++ (path.now ++ reason_text reason)) }
{
    let mut text = Vec::from_slice(alloc, b"can't read ".as_slice())?;
    text.extend_from_slice(path.as_bytes())?;
    text.extend_from_slice(reason.text().as_bytes())?;
    Ok(text)
}

fn push_jobs_hint(text: &mut Vec<u8>, are_jobs: bool) -> Result<(), AllocError>
    ensures { OnOk result (text.new.items ≡ text.old.items ++ jobs_hint are_jobs) }
{
    if !are_jobs {
        return Ok(());
    }
    text.extend_from_slice(
        b"\ncronsafe: the table reads as an anacrontab: give it with --anacrontab",
    )
}

fn push_lines(text: &mut Vec<u8>, lines: &Option<Shown>) -> Result<(), AllocError>
    ensures { OnOk result (text.new.items ≡ text.old.items ++ lines_in lines.now) }
{
    match lines {
        Some(shown) => text.extend_from_slice(shown.lines()),
        None => Ok(()),
    }
}

fn crontab_text(
    alloc: Global,
    fault: CrontabFault,
    are_jobs: bool,
    lines: &Option<Shown>,
) -> Result<Vec<u8>, AllocError>
    ensures { IfOk result
        (λ text. Says (table_trouble fault are_jobs (lines_in lines.now)) text.items) }
{
    match fault {
        CrontabFault::At { line, fault, .. } => {
            let mut text = line_text(alloc, b"crontab line ".as_slice(), line, fault.text())?;
            push_jobs_hint(&mut text, are_jobs)?;
            push_lines(&mut text, lines)?;
            Ok(text)
        }
        CrontabFault::OutOfMemory => Err(AllocError),
    }
}

fn anacrontab_text(
    alloc: Global,
    fault: AnacronFault,
    lines: &Option<Shown>,
) -> Result<Vec<u8>, AllocError>
    ensures { IfOk result (λ text. Says (jobs_trouble fault (lines_in lines.now)) text.items) }
{
    match fault {
        AnacronFault::At { line, fault, .. } => {
            let mut text = line_text(alloc, b"anacrontab line ".as_slice(), line, fault.text())?;
            push_lines(&mut text, lines)?;
            Ok(text)
        }
        AnacronFault::OutOfMemory => Err(AllocError),
    }
}

fn gathered_text(
    alloc: Global,
    path: &str,
    fault: TableFault<SystemFault>,
    lines: &Option<Shown>,
) -> Result<Vec<u8>, AllocError>
    ensures { IfOk result
        (λ text. Says (gathered_trouble path.now fault (lines_in lines.now)) text.items) }
{
    match fault {
        TableFault::At { line, fault, .. } => {
            let table = named_text(alloc, path.as_bytes(), b" line ".as_slice())?;
            let mut text = line_text(alloc, table.as_slice(), line, fault.text())?;
            push_lines(&mut text, lines)?;
            Ok(text)
        }
        TableFault::OutOfMemory => Err(AllocError),
    }
}

fn script_text(alloc: Global, fault: ScriptError) -> Result<Vec<u8>, AllocError>
    ensures { IfOk result (λ text. Says (script_trouble fault) text.items) }
{
    match fault {
        ScriptError::At { line, fault } => {
            line_text(alloc, b"script line ".as_slice(), line, fault.text())
        }
        ScriptError::OutOfMemory => Err(AllocError),
    }
}

fn certificate_text(alloc: Global, fault: CertError) -> Result<Vec<u8>, AllocError>
    ensures { IfOk result (λ text. Says (certificate_trouble fault) text.items) }
{
    match fault {
        CertError::Fault(fault) => {
            named_text(alloc, b"certificate: ".as_slice(), fault.text().as_bytes())
        }
        CertError::OutOfMemory => Err(AllocError),
    }
}

fn no_zone_text(alloc: Global, path: &str) -> Result<Vec<u8>, AllocError>
    ensures { IfOk result (λ text. text.items ≡ no_zone_line path.now) }
{
    named_text(alloc, path.as_bytes(), b": no time zone file".as_slice())
}

fn declared_text(
    alloc: Global,
    fault: &DeclError,
    lines: &Option<Shown>,
) -> Result<Vec<u8>, AllocError>
    ensures { IfOk result
        (λ text. Says (declared_trouble fault.now (lines_in lines.now)) text.items) }
{
    match fault {
        DeclError::At { .. } => {
            let line = fault.text(alloc)?;
            let mut text = named_text(alloc, b"declarations: ".as_slice(), line.as_slice())?;
            push_lines(&mut text, lines)?;
            Ok(text)
        }
        DeclError::OutOfMemory => Err(AllocError),
    }
}

const DATE_HINT: &[u8] =
    b"\ncronsafe: a date is YYYY-MM-DD, from 1970-01-04 to 9999-12-31, as $(date +%F) prints it";

fn word_text(alloc: Global, fault: WordFault) -> Result<Vec<u8>, AllocError>
    ensures { IfOk result (λ text. text.items ≡ word_fault fault ++ word_hint fault) }
{
    match fault {
        WordFault::Date(fault) => {
            let text = named_text(alloc, b"date: ".as_slice(), fault.text().as_bytes())?;
            named_text(alloc, text.as_slice(), DATE_HINT)
        }
        WordFault::BadMax => named_text(
            alloc,
            b"declarations: 6 BadMax".as_slice(),
            b"\ncronsafe: the longest time is from 1 to 4320 minutes",
        ),
        WordFault::BadHours => named_text(
            alloc,
            b"declarations: 12 BadHours".as_slice(),
            b"\ncronsafe: --from is from 0 on and below --to, which is at most 1440",
        ),
    }
}

impl Fault<'_> {
    /// An error too if the fault is that memory ran out.
    fn text(&self, alloc: Global) -> Result<Vec<u8>, AllocError>
        ensures { IfOk result (λ text. Says (trouble self.now) text.items) }
    {
        match self {
            Fault::Words(fault) => word_text(alloc, *fault),
            Fault::CannotRead(path, reason) => unread_text(alloc, path, *reason),
            Fault::Crontab(fault, are_jobs, lines) => {
                crontab_text(alloc, *fault, *are_jobs, lines)
            }
            Fault::Anacrontab(fault, lines) => anacrontab_text(alloc, *fault, lines),
            Fault::Gathered(path, fault, lines) => gathered_text(alloc, path, *fault, lines),
            Fault::Declarations(fault, lines) => declared_text(alloc, fault, lines),
            Fault::Script(fault) => script_text(alloc, *fault),
            Fault::Certificate(fault) => certificate_text(alloc, *fault),
            Fault::NoZone(path) => no_zone_text(alloc, path),
            Fault::OutOfMemory => Err(AllocError),
        }
    }

    /// What is wrong in the tables or declarations, where that was found.
    pub fn shown(&self) -> Option<&Shown> {
        match self {
            Fault::Crontab(_, _, shown) => shown.as_ref(),
            Fault::Anacrontab(_, shown) => shown.as_ref(),
            Fault::Declarations(_, shown) => shown.as_ref(),
            _ => None,
        }
    }

    fn status(&self) -> Status
        ensures { IfSome (trouble self.now) (λ t. status_of result ≡ trouble_status t) }
    {
        match self {
            Fault::CannotRead(_, _) => Status::DeviceFailed,
            Fault::OutOfMemory => Status::NoMemory,
            Fault::Words(_) => Status::BadInput,
            Fault::Crontab(_, _, _) => Status::BadInput,
            Fault::Anacrontab(_, _) => Status::BadInput,
            Fault::Gathered(_, _, _) => Status::BadInput,
            Fault::Declarations(_, _) => Status::BadInput,
            Fault::Script(_) => Status::BadInput,
            Fault::Certificate(_) => Status::BadInput,
            Fault::NoZone(_) => Status::BadInput,
        }
    }

    /// Returns the answer to it, after these warnings. An error too if memory had run out.
    #[tactic(auto, using(crate::proofs::TroubleLemmas::is_ending))]
    pub fn response(&self, alloc: Global, warnings: &[u8]) -> Result<Response, AllocError>
        ensures { IfOk result (λ r. option_map (ends warnings.now) (trouble self.now) ≡ Some r) }
    {
        let text = self.text(alloc)?;
        Response::fault(alloc, self.status(), warnings, text.as_slice())
    }
}
