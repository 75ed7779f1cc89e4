//! Stopping the daemon of a folder of stamps.
ghost use Rattle.std.specs.Prelude.{◌≡◌, ◌⊎◌, IfOk, true};
ghost use Rattle.cs_args.specs.Asked.{asked_stop};
ghost use Rattle.cs_files.specs.Response.{status_of};
ghost use Rattle.cs_ask.specs.Asking.{MayTell};
ghost use Rattle.cs_files.specs.Ending.{Ends, RunsOut, sink};
ghost use Rattle.cs_ask.specs.Stopping.{Leaves, Stops, unfinished, unwritten_text, waiting_text};
ghost use Rattle.cs_machine.specs.declared.last_word.StampsLeft.TheVariants.{AllWritten};

use crate::asking::{Refusal, find_daemon, refuse, wait_for};
use cs_args::StopWords;
use cs_files::{Response, Status, finish, run_out};
use cs_io::Output;
use cs_machine::{FolderLock, LockFault, RequestFile, StampsLeft, read_left};
use std::alloc::{AllocError, Global};
use std::fs::File;
use std::rt::{Clock, Files};
use std::sync::Wait;

/// None while the daemon goes on.
fn look<R: Files<File = File>>(
    rt: &R,
    alloc: Global,
    folder: &str,
    file: &RequestFile,
) -> Option<Result<StampsLeft, Refusal>> {
    match FolderLock::probe(rt, alloc, folder) {
        Ok(lock) => {
            // the next daemon of this folder removes it too
            let _ = file.remove(rt);
            Some(Ok(read_left(alloc, &lock)))
        }
        Err(LockFault::Failed) => Some(Err(Refusal::Unlocked)),
        Err(LockFault::InUse) if file.is_there(rt) => None,
        Err(LockFault::InUse) => Some(Err(Refusal::Another)),
    }
}

fn ask_and_wait<R: Files<File = File> + Clock + Wait, E: Output>(
    rt: &R,
    alloc: Global,
    words: StopWords<'_>,
    file: &RequestFile,
    err: &mut E,
) -> Result<StampsLeft, Refusal>
    ensures told { MayTell waiting_text (sink (E.contents err.old) (E.failed err.old))
        (sink (E.contents err.new) (E.failed err.new)) }
    ensures now { words.entry.now ≡ true
        → sink (E.contents err.new) (E.failed err.new)
        ≡ sink (E.contents err.old) (E.failed err.old) }
    ensures left { words.entry.now ≡ true → IfOk result (λ left. left ≡ AllWritten) }
{
    find_daemon(rt, alloc, words.stamps)?;
    if file.make(rt).is_err() {
        return Err(Refusal::NotAsked);
    }
    if words.now {
        return Ok(StampsLeft::AllWritten);
    }
    wait_for(
        rt,
        "cronsafe: waiting for the runs under way to end\n",
        err,
        || look(rt, alloc, words.stamps, file),
    )
}

fn tell_left<O: Output, E: Output>(
    alloc: Global,
    left: StampsLeft,
    out: &mut O,
    err: &mut E,
) -> Status
    ensures { Leaves left
        (sink (O.contents out.old) (O.failed out.old))
        (sink (O.contents out.new) (O.failed out.new))
        (sink (E.contents err.old) (E.failed err.old))
        (sink (E.contents err.new) (E.failed err.new))
        (status_of result) }
{
    match left {
        StampsLeft::AllWritten => Status::Done,
        StampsLeft::Unwritten(jobs) => match unwritten(alloc, jobs.as_slice()) {
            Ok(what) => tell_unfinished(alloc, what.as_slice(), out, err),
            Err(AllocError) => run_out(err),
        },
        StampsLeft::Unknown => {
            let what = b"can't tell whether all stamps are written".as_slice();
            tell_unfinished(alloc, what, out, err)
        }
    }
}

fn unwritten(alloc: Global, jobs: &[u8]) -> Result<Vec<u8>, AllocError>
    ensures { IfOk result (λ what. what.items ≡ unwritten_text jobs.now) }
{
    let mut what = Vec::from_slice(alloc, b"stamps not written: ".as_slice())?;
    what.extend_from_slice(jobs)?;
    Ok(what)
}

fn tell_unfinished<O: Output, E: Output>(
    alloc: Global,
    what: &[u8],
    out: &mut O,
    err: &mut E,
) -> Status
    ensures { Ends (unfinished what.now)
        (sink (O.contents out.old) (O.failed out.old))
        (sink (O.contents out.new) (O.failed out.new))
        (sink (E.contents err.old) (E.failed err.old))
        (sink (E.contents err.new) (E.failed err.new))
        (status_of result)
        ⊎ RunsOut
        (sink (O.contents out.old) (O.failed out.old))
        (sink (O.contents out.new) (O.failed out.new))
        (sink (E.contents err.old) (E.failed err.old))
        (sink (E.contents err.new) (E.failed err.new))
        (status_of result) }
{
    match Response::fault(alloc, Status::Refused, b"".as_slice(), what) {
        Ok(response) => finish(&response, out, err),
        Err(AllocError) => run_out(err),
    }
}

/// Asks the daemon of a folder of stamps to stop, waits for its end unless `--now` is given, and
/// returns the status: 0, 1 if it left stamps unwritten or may have, or that of why it isn't
/// stopped.
pub fn stop<R: Files<File = File> + Clock + Wait, O: Output, E: Output>(
    rt: &R,
    alloc: Global,
    words: StopWords<'_>,
    out: &mut O,
    err: &mut E,
) -> Status
    ensures { Stops (asked_stop words.entry)
        (sink (O.contents out.old) (O.failed out.old))
        (sink (O.contents out.new) (O.failed out.new))
        (sink (E.contents err.old) (E.failed err.old))
        (sink (E.contents err.new) (E.failed err.new))
        (status_of result) }
{
    let Ok(file) = RequestFile::to_stop(alloc, words.stamps) else {
        return run_out(err);
    };
    match ask_and_wait(rt, alloc, words, &file, err) {
        Ok(left) => tell_left(alloc, left, out, err),
        Err(refusal) => refuse(alloc, refusal, words.stamps, out, err),
    }
}
