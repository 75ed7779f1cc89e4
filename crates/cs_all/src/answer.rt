//! The subcommands `judge --all` and `lint --all`.
ghost use Rattle.std.specs.Prelude.{◌≡◌, ◌⊎◌, IfOk};
ghost use Rattle.std.specs.List.{AllZip};
ghost use Rattle.cs_all.specs.Answer.{AnswersAll, IsTold, TellsAll};

use crate::below::found_below;
use crate::judging::told_of;
use crate::reading::{Aim, Read, read_all};
use crate::told::{Told, response_of};
use cs_args::AllWords;
use cs_files::Response;
use cs_io::Folders;
use cs_lint::refuse_names;
use rayon::prelude::*;
use std::alloc::{AllocError, Global};
use std::rt::Files;
use std::thread::Threads;

/// In the order of paths, by several threads.
fn told_each<'a, R: Threads + Sync>(
    rt: &R,
    alloc: Global,
    request: &AllWords<'_>,
    read: &'a [Read<'_>],
) -> Result<Vec<Told<'a>>, AllocError>
    ensures { IfOk result
        (λ all. AllZip (λ read told. IsTold read.content told.status) read.now all.items) }
{
    read.par_iter()
        .with_min_len(1)
        .map(
            |one: &Read<'_>| -> Result<Told<'_>, AllocError>
                ensures { IfOk result (λ told. IsTold one.now.content told.status) }
            { told_of(rt, alloc, request, one) },
        )
        .collect::<Result<Vec<Told<'a>>, AllocError>>(rt, alloc)?
}

/// The answer on what was read, if all was.
fn answer_on<R: Threads + Sync>(
    rt: &R,
    alloc: Global,
    request: &AllWords<'_>,
    done: Result<(), AllocError>,
    read: &[Read<'_>],
) -> Result<Response, AllocError>
    ensures { IfOk result TellsAll }
{
    done?;
    let all = told_each(rt, alloc, request, read)?;
    response_of(alloc, request.format, all)
}

fn answer_all<R: Threads + Sync + Files, I: Folders>(
    rt: &R,
    alloc: Global,
    request: &AllWords<'_>,
    inputs: &mut I,
    aim: Aim,
) -> Result<Response, AllocError>
    ensures { IfOk result AnswersAll }
{
    if request.folders.as_slice().contains(&"-") {
        let text = b"cronsafe: standard input is no folder: name a folder of tables\n".as_slice();
        return Ok(Response::no_call(alloc, Vec::from_slice(alloc, text)?));
    }
    let found = found_below(rt, alloc, inputs, request.folders.as_slice())?;
    let mut read = Vec::new(alloc);
    let done = read_all(alloc, inputs, aim, found.as_slice(), &mut read);
    let answer = answer_on(rt, alloc, request, done, read.as_slice());
    drop(read);
    answer
}

/// Answers `judge --all FOLDER.. [--format FORMAT]`. The only error is out of memory.
pub fn answer_judge_all<R: Threads + Sync + Files, I: Folders>(
    rt: &R,
    alloc: Global,
    request: &AllWords<'_>,
    inputs: &mut I,
) -> Result<Response, AllocError>
    ensures { IfOk result AnswersAll }
{
    answer_all(rt, alloc, request, inputs, Aim::Judge)
}

/// Answers `lint --all FOLDER.. [--only NAME].. [--except NAME].. [--faults-only] [--format
/// FORMAT]`. The only error is out of memory.
pub fn answer_lint_all<R: Threads + Sync + Files, I: Folders>(
    rt: &R,
    alloc: Global,
    request: &AllWords<'_>,
    inputs: &mut I,
) -> Result<Response, AllocError>
    ensures { IfOk result AnswersAll }
{
    if let Some(response) = refuse_names(alloc, request.only.as_slice())? {
        return Ok(response);
    }
    if let Some(response) = refuse_names(alloc, request.except.as_slice())? {
        return Ok(response);
    }
    answer_all(rt, alloc, request, inputs, Aim::Lint)
}
