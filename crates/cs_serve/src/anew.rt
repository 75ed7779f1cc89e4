//! Reading a daemon's files again.
ghost use Rattle.std.specs.Prelude.{◌≡◌, ◌++◌, IfErr, IfOk};
ghost use Rattle.cs_args.specs.Asked.{asked_run};
ghost use Rattle.cs_io.specs.Files.{IsFresh};
ghost use Rattle.cs_files.specs.Response.{status_of};
ghost use Rattle.cs_ruling.specs.declared.answer.Answer.TheVariants.{Runs};
ghost use Rattle.cs_serve.specs.Anew.{Hinders, IsOfFiles, IsOrderOf, IsRejection, RunAnswers};
ghost use Rattle.cs_serve.specs.Anew.{rejected_status, rejected_text, warned};

use cs_args::{CheckWords, RunWords};
use cs_civil::Bytes;
use cs_files::{Response, Status};
use cs_io::{Inputs, Printer};
use cs_machine::{is_root, open_log};
use cs_report::warnings;
use cs_ruling::{Answer, Order, answer_run_alone, find_claimed};
use std::alloc::{AllocError, Global};
use std::rt::Files;
use std::{fs, io};

/// What `run` would order of a daemon's files.
#[derive(Drop)]
pub(crate) struct Accepted<'a> {
    order: Order<'a>,
    /// The warnings of the tables, and after them the notes on the plan.
    pub(crate) warnings: Bytes,
    ghost read: { IsOfFiles order },
    ghost told: { warnings ≡ warned order },
}

/// Why a daemon's files aren't accepted.
#[derive(Drop)]
pub(crate) enum Rejection {
    /// For the reason in this answer.
    Answered(Response),
    /// One of them is standard input.
    StandardInput,
    /// One of them is a pipe, a device or a folder.
    NoFile,
    NoLog,
    NoOutput,
    NotRoot,
    NoMemory,
}

impl Rejection {
    /// The status of `reload` then.
    pub(crate) fn status(&self) -> Status
        ensures { status_of result ≡ rejected_status self.now }
    {
        match self {
            Rejection::Answered(response) => response.status(),
            Rejection::StandardInput => Status::DeviceFailed,
            Rejection::NoFile => Status::DeviceFailed,
            Rejection::NoLog => Status::DeviceFailed,
            Rejection::NoOutput => Status::DeviceFailed,
            Rejection::NotRoot => Status::DeviceFailed,
            Rejection::NoMemory => Status::NoMemory,
        }
    }

    /// What `reload` writes then, one text after another.
    pub(crate) fn texts(&self) -> (&[u8], &[u8])
        ensures { result.0.now ++ result.1.now ≡ rejected_text self.now }
    {
        match self {
            Rejection::Answered(response) => (response.err(), response.out()),
            Rejection::StandardInput => {
                (
                    b"cronsafe: can't read standard input again\n".as_slice(),
                    b"".as_slice(),
                )
            }
            Rejection::NoFile => {
                (
                    b"cronsafe: can't read a pipe, a device or a folder again\n".as_slice(),
                    b"".as_slice(),
                )
            }
            Rejection::NoLog => (
                b"cronsafe: can't write the log\n".as_slice(),
                b"".as_slice(),
            ),
            Rejection::NoOutput => (
                b"cronsafe: no folder for the output of jobs\n".as_slice(),
                b"".as_slice(),
            ),
            Rejection::NotRoot => {
                (
                    b"cronsafe: only root can run a gathered table\n".as_slice(),
                    b"".as_slice(),
                )
            }
            Rejection::NoMemory => (b"cronsafe: out of memory\n".as_slice(), b"".as_slice()),
        }
    }
}

/// Without an anacrontab the first is there twice.
pub(crate) fn paths_of<'a>(files: &CheckWords<'a>) -> [&'a str; 4] {
    let jobs = files.anacrontab.unwrap_or(files.table);
    [files.table, files.declarations, files.certificate, jobs]
}

/// Whether one of these is there and isn't a file. A pipe would hold the daemon up.
pub(crate) fn has_no_files<R: Files>(rt: &R, paths: &[&str]) -> bool {
    for path in paths {
        if let Ok(found) = fs::metadata(rt, *path) {
            if !found.is_file() {
                return true;
            }
        }
    }
    false
}

pub(crate) fn has_log<R: Files>(rt: &R, log: Option<&str>) -> bool {
    match log {
        None | Some("-") => true,
        Some(path) => open_log(rt, path).is_ok(),
    }
}

/// Whether the folder for the output of jobs is there, if one is given.
pub(crate) fn has_output<R: Files>(rt: &R, output: Option<&str>) -> bool {
    let Some(path) = output else {
        return true;
    };
    match fs::metadata(rt, path) {
        Ok(found) => found.is_dir(),
        Err(_) => false,
    }
}

fn told_of(alloc: Global, order: &Order<'_>) -> Result<Bytes, AllocError>
    ensures { IfOk result (λ text. text ≡ warned order.now) }
{
    let plan = order.checked.plan();
    let mut told = warnings(alloc, plan.crontab(), plan.anacrontab())?.into_vec();
    told.extend_from_slice(order.warnings.as_slice())?;
    Ok(Bytes::from_vec(told))
}

/// Accepts an order, unless its commands have owners and this process isn't root's.
fn accept<'a, R: Files>(rt: &R, alloc: Global, order: Order<'a>) -> Result<Accepted<'a>, Rejection>
    requires { IsOfFiles order }
    ensures order { IfOk result (λ accepted. accepted.order ≡ order.entry) }
    ensures hinders { IfErr result (Hinders order.entry) }
{
    if !order.owners.is_empty() && !is_root(rt) {
        drop(order);
        return Err(Rejection::NotRoot);
    }
    let Ok(warnings) = told_of(alloc, &order) else {
        drop(order);
        return Err(Rejection::NoMemory);
    };
    Ok(Accepted { order, warnings })
}

/// What `run` answers, checked by one thread. The warnings of the tables aren't written.
fn answer_anew<'a, I: Inputs>(
    alloc: Global,
    inputs: &mut I,
    words: RunWords<'a>,
) -> Result<Answer<'a>, AllocError>
    requires { IsFresh (I.whole inputs.old) (I.left inputs.old) }
    ensures { IfOk result (RunAnswers (asked_run words.entry) (I.whole inputs.old)
        (I.failed inputs.old) (I.failed inputs.new)) }
{
    let mut unheard = Printer::new(io::sink());
    match find_claimed(alloc, inputs, &mut unheard, &words.check) {
        Ok(claimed) => answer_run_alone(alloc, words, claimed),
        Err(fault) => Ok(Answer::Ends(fault.response(alloc, b"".as_slice())?)),
    }
}

/// Reads the files of these words again, and accepts what `run` would order of them.
pub(crate) fn read_anew<'a, R: Files, I: Inputs>(
    rt: &R,
    alloc: Global,
    inputs: &mut I,
    words: RunWords<'a>,
) -> Result<Accepted<'a>, Rejection>
    requires { IsFresh (I.whole inputs.old) (I.left inputs.old) }
    ensures order { IfOk result (λ accepted. RunAnswers (asked_run words.entry)
        (I.whole inputs.old) (I.failed inputs.old) (I.failed inputs.new) (Runs accepted.order)) }
    ensures ending { IfErr result (IsRejection (asked_run words.entry)
        (I.whole inputs.old) (I.failed inputs.old) (I.failed inputs.new)) }
{
    let paths = paths_of(&words.check);
    if paths.contains(&"-") {
        return Err(Rejection::StandardInput);
    }
    if has_no_files(rt, &paths) {
        return Err(Rejection::NoFile);
    }
    if !has_log(rt, words.log) {
        return Err(Rejection::NoLog);
    }
    if !has_output(rt, words.output) {
        return Err(Rejection::NoOutput);
    }
    match answer_anew(alloc, inputs, words) {
        Ok(Answer::Runs(order)) => accept(rt, alloc, order),
        Ok(Answer::Ends(response)) => Err(Rejection::Answered(response)),
        Ok(Answer::Stops(_)) => unreachable!(),
        Ok(Answer::Reloads(_)) => unreachable!(),
        Ok(Answer::Applies { .. }) => unreachable!(),
        Ok(Answer::Tells(_)) => unreachable!(),
        Err(AllocError) => Err(Rejection::NoMemory),
    }
}

impl Accepted<'_> {
    /// Returns the order by these words of `run`.
    pub(crate) fn order<'w>(self, words: RunWords<'w>) -> Order<'w>
        ensures { IsOrderOf (asked_run words.entry) result }
    {
        let Accepted { order, warnings } = self;
        order.checked.is_safe();
        let Order {
            checked,
            owners,
            warnings: notes,
            declarations,
            digests,
            ..
        } = order;
        drop(notes);
        Order {
            checked,
            owners,
            warnings,
            declarations,
            words,
            digests,
        }
    }
}
