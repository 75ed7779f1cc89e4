//! The program, as a function of its words, its inputs and two outputs.
ghost use Rattle.std.specs.Prelude.{map};
ghost use Rattle.cs_io.specs.Files.{IsFresh};
ghost use Rattle.cs_files.specs.Ending.{sink};
ghost use Rattle.cronsafe_aids.specs.Run.{Runs};
ghost use Rattle.cronsafe_aids.specs.Turn.{ReadsInTurn};

use crate::now::Now;
use crate::responding::respond;
use cs_files::{finish, run_out};
use cs_io::{Folders, Output};
use std::alloc::{AllocError, Global};
use std::convert::AsStr;
use std::rt::Files;
use std::thread::Threads;

/// Runs the program on its words, the first of which is its name. Returns the status of the
/// process: 0 done, help or the version, 1 a finding, or a plan is unsafe, 2 unknown, 3 a fault in
/// the words or in a file, 4 no call, 5 out of memory, 6 a file can't be read, or standard output
/// can't be written.
pub(crate) fn run_words<R: Threads + Sync + Files, S: AsStr, I: Folders, O: Output, E: Output>(
    rt: &R,
    alloc: Global,
    words: &[S],
    now: Now<'_>,
    inputs: &mut I,
    out: &mut O,
    err: &mut E,
) -> u8
    // If no file of known content has been read so far.
    ensures value { IsFresh (I.whole inputs.old) (I.left inputs.old)
        → Runs now.entry (map S.text words.now) I.tree
        (I.whole inputs.old) (I.failed inputs.old) (I.failed inputs.new)
        (I.reads inputs.old) (I.reads inputs.new)
        (sink (O.contents out.old) (O.failed out.old))
        (sink (O.contents out.new) (O.failed out.new))
        (sink (E.contents err.old) (E.failed err.old))
        (sink (E.contents err.new) (E.failed err.new))
        result }
    ensures turn { ReadsInTurn (map S.text words.now)
        (I.reads inputs.old) (I.reads inputs.new) }
{
    match respond(rt, alloc, words, now, inputs, err) {
        Ok(response) => finish(&response, out, err).code(),
        Err(AllocError) => run_out(err).code(),
    }
}
