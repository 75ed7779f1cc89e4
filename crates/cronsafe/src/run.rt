//! The program, as a function of its words, its inputs and two outputs.
ghost use Rattle.std.specs.Prelude.{map};
ghost use Rattle.cs_io.specs.Files.{IsFresh};
ghost use Rattle.cs_files.specs.Ending.{sink};
ghost use Rattle.cs_files.specs.Response.{status_of};
ghost use Rattle.cronsafe.specs.Turn.{ReadsInTurn};
ghost use Rattle.cronsafe.specs.Run.{CarriesOut, Runs};

use crate::responding::respond;
use cs_ask::{apply, reload, stop, tell_status};
use cs_device::Runner;
use cs_files::{Status, finish, run_out};
use cs_io::{Inputs, Output};
use cs_machine::RunnerSetup;
use cs_ruling::Answer;
use cs_serve::{Streams, serve};
use std::alloc::{AllocError, Global};
use std::convert::AsStr;
use std::fs::File;
use std::io::Write;
use std::process::Processes;
use std::rt::{Clock, Files};
use std::sync::Wait;
use std::thread::Threads;

fn carry_out<
    R: Threads + Wait + Sync + Files<File = File> + Input + Clock + Processes,
    O: Output + Write + Send,
    E: Output,
    W: Runner + Send + Drop,
    F: Fn(RunnerSetup) -> W + Drop,
>(
    rt: &R,
    alloc: Global,
    answer: Answer<'_>,
    streams: Streams<'_>,
    out: &mut O,
    err: &mut E,
    new_runner: F,
) -> Status
    requires { F.IsAlwaysCallable new_runner }
    ensures { CarriesOut answer.entry
        (sink (O.Output.contents out.old) (O.Output.failed out.old))
        (sink (O.Output.contents out.new) (O.Output.failed out.new))
        (sink (E.contents err.old) (E.failed err.old))
        (sink (E.contents err.new) (E.failed err.new))
        (status_of result) }
{
    match answer {
        Answer::Ends(response) => finish(&response, out, err),
        Answer::Runs(order) => serve(rt, alloc, order, streams, out, err, new_runner),
        Answer::Stops(words) => stop(rt, alloc, words, out, err),
        Answer::Reloads(words) => reload(rt, alloc, words, out, err),
        Answer::Applies {
            certificate,
            stamps,
            made,
        } => apply(rt, alloc, certificate, stamps, &made, out, err),
        Answer::Tells(words) => tell_status(rt, alloc, words, out, err),
    }
}

/// Runs the program on its words, of which the first is its name, and returns the status that the
/// process ends with ([`Status`](cs_files::Status)).
///
/// `run` returns when its daemon has ended. Runners that `new_runner` makes run its commands.
pub(crate) fn run_words<
    R: Threads + Wait + Sync + Files<File = File> + Input + Clock + Processes,
    S: AsStr,
    I: Inputs,
    O: Output + Write + Send,
    E: Output,
    W: Runner + Send + Drop,
    F: Fn(RunnerSetup) -> W + Drop,
>(
    rt: &R,
    alloc: Global,
    words: &[S],
    inputs: &mut I,
    streams: Streams<'_>,
    out: &mut O,
    err: &mut E,
    new_runner: F,
) -> u8
    requires { F.IsAlwaysCallable new_runner }
    // Where each path of known bytes stands at its front.
    ensures value { IsFresh (I.whole inputs.old) (I.left inputs.old)
        → Runs (map S.text words.now)
        (I.whole inputs.old) (I.failed inputs.old) (I.failed inputs.new)
        (I.reads inputs.old) (I.reads inputs.new)
        (sink (O.Output.contents out.old) (O.Output.failed out.old))
        (sink (O.Output.contents out.new) (O.Output.failed out.new))
        (sink (E.contents err.old) (E.failed err.old))
        (sink (E.contents err.new) (E.failed err.new))
        result }
    ensures turn { ReadsInTurn (map S.text words.now)
        (I.reads inputs.old) (I.reads inputs.new) }
{
    match respond(rt, alloc, words, inputs, err) {
        Ok(answer) => carry_out(rt, alloc, answer, streams, out, err, new_runner).code(),
        Err(AllocError) => run_out(err).code(),
    }
}
