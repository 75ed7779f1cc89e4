ghost use Rattle.std.specs.Prelude.{◌≡◌, IfNone, IfOk, IfSome, map};
ghost use Rattle.cs_io.specs.Files.{IsFresh};
ghost use Rattle.cs_files.specs.Ending.{sink};
ghost use Rattle.cronsafe.specs.Run.{IsEndingOf, IsReplaced, replaced_text};

use crate::responding::respond;
use crate::run::run_words;
use cs_args::{Request, RunWords, parse_words};
use cs_device::Runner;
use cs_files::{Response, tell, words_of};
use cs_io::{Inputs, Machine, Output, Printer};
use cs_machine::{Remarks, RunnerSetup};
use cs_ruling::Answer;
use cs_serve::{KeptFiles, Streams};
use std::alloc::{AllocError, Global};
use std::convert::AsStr;
use std::fs::File;
use std::io;
use std::io::Write;
use std::process::{ExitCode, Processes};
use std::rt::{Clock, Env, Files};
use std::sync::Wait;
use std::thread::Threads;

/// What `run` is asked, if it is asked for the files that were accepted last.
fn asks_last<S: AsStr>(alloc: Global, words: &[S]) -> Option<RunWords<'_>> {
    match parse_words(alloc, words) {
        Ok(Request::Run(words)) if words.last_accepted => Some(words),
        _ => None,
    }
}

/// How a call over these inputs ends, unless it runs something. Warnings aren't written.
fn ending_of<R: Threads + Sync, S: AsStr, I: Inputs>(
    rt: &R,
    alloc: Global,
    words: &[S],
    inputs: &mut I,
) -> Option<Response>
    requires { IsFresh (I.whole inputs.old) (I.left inputs.old) }
    ensures { IfSome result (IsEndingOf (map S.text words.now) (I.whole inputs.old)
        (I.failed inputs.old) (I.failed inputs.new)) }
{
    let mut unheard = Printer::new(io::sink());
    match respond(rt, alloc, words, inputs, &mut unheard) {
        Ok(Answer::Ends(response)) => Some(response),
        Ok(other) => {
            drop(other);
            None
        }
        Err(AllocError) => None,
    }
}

const REPORT: &[u8] = b"cronsafe: the files that were accepted last are run\n";

const REMARK: &[u8] = b"the files that were accepted last are run";

fn replaced_text(alloc: Global, ending: &Response) -> Result<Vec<u8>, AllocError>
    ensures { IfOk result (λ text. text.items ≡ replaced_text ending.now) }
{
    let mut text = Vec::from_slice(alloc, ending.err())?;
    text.extend_from_slice(ending.out())?;
    text.extend_from_slice(REPORT)?;
    Ok(text)
}

/// The files that were accepted last, if `run` is asked for them and these inputs hold none that it
/// runs, which is reported.
fn last_accepted<'a, R: Threads + Sync + Files + Wait, S: AsStr, I: Inputs, E: Output>(
    rt: &R,
    alloc: Global,
    words: &'a [S],
    inputs: &mut I,
    remarks: &Remarks,
    err: &mut E,
) -> Option<KeptFiles<'a>>
    requires { IsFresh (I.whole inputs.old) (I.left inputs.old) }
    ensures replaced { IfSome result (λ _. IsReplaced (map S.text words.now) (I.whole inputs.old)
        (I.failed inputs.old) (I.failed inputs.new)
        (sink (E.contents err.old) (E.failed err.old))
        (sink (E.contents err.new) (E.failed err.new))) }
    ensures untold { IfNone result (sink (E.contents err.new) (E.failed err.new)
        ≡ sink (E.contents err.old) (E.failed err.old)) }
{
    let asked = asks_last(alloc, words)?;
    let kept = KeptFiles::read(rt, alloc, &asked)?;
    let ending = ending_of(rt, alloc, words, inputs)?;
    let Ok(text) = replaced_text(alloc, &ending) else {
        return None;
    };
    tell(err, text.as_slice());
    if let Ok(remark) = Vec::from_slice(alloc, REMARK) {
        remarks.leave(rt, remark);
    }
    Some(kept)
}

/// Runs the program on the machine's words and files, with these two outputs. Runners that
/// `new_runner` makes run the commands. With `--last-accepted` the files that were accepted last
/// are run if the machine's are refused.
pub(crate) fn run_program<
    R: Files<File = File> + Input + Env + Clock + AllocGlobal + Threads + Wait + Sync + Processes,
    O: Output + Write + Send,
    E: Output,
    W: Runner + Send + Drop,
    F: Fn(RunnerSetup) -> W + Drop,
>(rt: &R, streams: Streams<'_>, out: &mut O, err: &mut E, new_runner: F) -> ExitCode
    requires { F.IsAlwaysCallable new_runner }
{
    let words = match words_of(rt, err) {
        Ok(words) => words,
        Err(status) => return ExitCode::from(status.code()),
    };
    let (alloc, words) = (rt.alloc(), words.as_slice());
    let tried = &mut Machine::new(rt);
    let status = match last_accepted(rt, alloc, words, tried, streams.remarks, err) {
        Some(mut kept) => run_words(rt, alloc, words, &mut kept, streams, out, err, new_runner),
        None => {
            let inputs = &mut Machine::new(rt);
            run_words(rt, alloc, words, inputs, streams, out, err, new_runner)
        }
    };
    ExitCode::from(status)
}
