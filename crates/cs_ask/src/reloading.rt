//! Asking the daemon of a folder of stamps to read its files again.
ghost use Rattle.std.specs.Prelude.{◌≡◌, IfOk, MatchResult};
ghost use Rattle.cs_files.specs.Response.{status_of};
ghost use Rattle.cs_ask.specs.Asking.{MayTell, refused};
ghost use Rattle.cs_files.specs.Ending.{sink};
ghost use Rattle.cs_ask.specs.Reloading.{IsOutcome, IsToldOf, Reloads, answer_awaited};

use crate::asking::{Refusal, find_daemon, wait_for};
use crate::reply::read_reply;
use cs_args::ReloadWords;
use cs_civil::Bytes;
use cs_files::{Response, Status, finish, run_out};
use cs_io::Output;
use cs_machine::{FolderLock, LockFault, RequestFile, ToldFile};
use std::alloc::{AllocError, Global};
use std::fs::File;
use std::rt::{Clock, Files};
use std::sync::Wait;

/// The files by which a daemon is asked, and answers.
#[derive(Drop)]
struct Exchange<'f> {
    request: RequestFile,
    drain: RequestFile,
    answer: ToldFile<'f>,
}

impl<'f> Exchange<'f> {
    fn of(alloc: Global, folder: &'f str) -> Result<Exchange<'f>, AllocError> {
        let request = RequestFile::to_reload(alloc, folder)?;
        let drain = RequestFile::to_drain(alloc, folder)?;
        let answer = ToldFile::answer(alloc, folder)?;
        Ok(Exchange {
            request,
            drain,
            answer,
        })
    }
}

/// Whether the daemon of a folder has answered, or has ended; none while it has still to answer.
fn look<R: Files<File = File>>(
    rt: &R,
    alloc: Global,
    folder: &str,
    request: &RequestFile,
) -> Option<Result<(), Refusal>> {
    // a daemon that has answered may have ended by now
    if !request.is_there(rt) {
        return Some(Ok(()));
    }
    match FolderLock::probe(rt, alloc, folder) {
        Ok(_lock) => {
            let _ = request.remove(rt);
            Some(Err(Refusal::NoDaemon))
        }
        Err(LockFault::Failed) => Some(Err(Refusal::Unlocked)),
        Err(LockFault::InUse) => None,
    }
}

fn ask_and_wait<R: Files<File = File> + Clock + Wait, E: Output>(
    rt: &R,
    alloc: Global,
    words: ReloadWords<'_>,
    exchange: &Exchange<'_>,
    err: &mut E,
) -> Result<Vec<u8>, Refusal>
    ensures { MayTell answer_awaited (sink (E.contents err.old) (E.failed err.old))
        (sink (E.contents err.new) (E.failed err.new)) }
{
    let folder = words.stamps;
    find_daemon(rt, alloc, folder)?;
    // first, as the daemon looks for it once the request is there
    if words.drain && exchange.drain.make(rt).is_err() {
        return Err(Refusal::NotAsked);
    }
    if exchange.request.make(rt).is_err() {
        return Err(Refusal::NotAsked);
    }
    wait_for(
        rt,
        "cronsafe: waiting for the daemon's answer\n",
        err,
        || look(rt, alloc, folder, &exchange.request),
    )?;
    // it stays for others who ask meanwhile
    exchange
        .answer
        .read(rt, alloc)
        .map_err(|_| Refusal::Unanswered)
}

fn response_to(alloc: Global, folder: &str, text: &[u8]) -> Result<Response, AllocError>
    ensures { IfOk result (IsToldOf folder.now text.now) }
{
    let Some(reply) = read_reply(text) else {
        return Refusal::Unanswered.response(alloc, folder);
    };
    let told = Bytes::from_slice(alloc, reply.text)?;
    Ok(Response::told(reply.status, Vec::new(alloc), told))
}

fn response_of(
    alloc: Global,
    folder: &str,
    answer: Result<Vec<u8>, Refusal>,
) -> Result<Response, AllocError>
    ensures told { MatchResult answer (λ text. IfOk result (IsToldOf folder.now text.items))
        (λ refusal. IfOk result (λ r. r ≡ refused refusal folder.now)) }
    ensures outcome { IfOk result (IsOutcome folder.now) }
{
    match answer {
        Ok(text) => response_to(alloc, folder, text.as_slice()),
        Err(refusal) => refusal.response(alloc, folder),
    }
}

/// Asks the daemon of a folder of stamps to read its files again, and returns the status: that of
/// its answer, or of why there is none. An accepted plan begins in the first minute in which
/// nothing runs, waits or is pending, or, with `--drain`, when the runs under way have ended; else
/// the daemon goes on as before.
pub fn reload<R: Files<File = File> + Clock + Wait, O: Output, E: Output>(
    rt: &R,
    alloc: Global,
    words: ReloadWords<'_>,
    out: &mut O,
    err: &mut E,
) -> Status
    ensures { Reloads words.entry.stamps.now
        (sink (O.contents out.old) (O.failed out.old))
        (sink (O.contents out.new) (O.failed out.new))
        (sink (E.contents err.old) (E.failed err.old))
        (sink (E.contents err.new) (E.failed err.new))
        (status_of result) }
{
    let folder = words.stamps;
    let Ok(exchange) = Exchange::of(alloc, folder) else {
        return run_out(err);
    };
    let answer = ask_and_wait(rt, alloc, words, &exchange, err);
    match response_of(alloc, folder, answer) {
        Ok(response) => finish(&response, out, err),
        Err(AllocError) => run_out(err),
    }
}
