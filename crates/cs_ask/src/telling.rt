//! Showing what the daemon of a folder of stamps does.
ghost use Rattle.std.specs.Prelude.{◌≡◌, ◌++◌, IfOk};
ghost use Rattle.cs_files.specs.Response.{complaint, status_of};
ghost use Rattle.cs_files.specs.Ending.{sink};
ghost use Rattle.cs_ask.specs.Asking.{refused};
ghost use Rattle.cs_ask.specs.Telling.{IsAnswer, Tells, told_as};

use crate::asking::{Refusal, find_daemon};
use cs_args::StatusWords;
use cs_civil::{Bytes, push_number};
use cs_files::{Response, Status, finish, run_out};
use cs_io::Output;
use cs_json::Misread;
use cs_machine::{Report, ToldFile, read_metrics, read_report, unix_seconds};
use std::alloc::{AllocError, Global};
use std::fs::File;
use std::rt::{Clock, Files};

/// How a daemon fares, by its state.
#[derive(Clone, Copy)]
pub(crate) enum Health {
    /// All is well.
    Fine,
    /// A run is late, a job's last run failed, a stamp couldn't be written, or the files that were
    /// accepted last are run.
    Faulty,
    /// The state is too old.
    Old,
    /// The daemon has ended.
    Gone,
}

/// If this machine's clock can't be read, no state is old.
fn health_of<R: Clock>(rt: &R, report: &Report) -> Health {
    match unix_seconds(rt) {
        Some(now) if report.is_old(now) => Health::Old,
        _ if report.has_fault() => Health::Faulty,
        _ => Health::Fine,
    }
}

#[tactic(auto, unfolding(cs_files::specs::Response::complaint))]
fn complaint_about(alloc: Global, what: &str, folder: &str) -> Result<Bytes, AllocError>
    ensures { IfOk result (λ told. told ≡ complaint (what.now ++ folder.now)) }
{
    let mut told = Vec::from_slice(alloc, b"cronsafe: ".as_slice())?;
    told.extend_from_slice(what.as_bytes())?;
    told.extend_from_slice(folder.as_bytes())?;
    told.extend_from_slice(b"\n")?;
    Ok(Bytes::from_vec(told))
}

fn told_response(
    alloc: Global,
    health: Health,
    text: Vec<u8>,
    folder: &str,
) -> Result<Response, AllocError>
    ensures { IfOk result (λ r. r ≡ told_as health text.items folder.now) }
{
    match health {
        Health::Fine => Ok(Response::told(Status::Done, text, Bytes::new(alloc))),
        Health::Faulty => Ok(Response::told(Status::Refused, text, Bytes::new(alloc))),
        Health::Old => {
            let told = complaint_about(alloc, "no state of the last two minutes in ", folder)?;
            Ok(Response::told(Status::Unknown, text, told))
        }
        Health::Gone => {
            let told = complaint_about(alloc, "no daemon uses ", folder)?;
            Ok(Response::told(Status::Unknown, text, told))
        }
    }
}

/// The state as the words ask for it; `lines` is its text for people.
fn text_for(
    alloc: Global,
    words: StatusWords<'_>,
    state: Vec<u8>,
    lines: Vec<u8>,
    is_up: bool,
) -> Result<Vec<u8>, AllocError> {
    if words.json {
        return Ok(state);
    }
    if !words.metrics {
        return Ok(lines);
    }
    match read_metrics(alloc, state.as_slice(), is_up) {
        Ok(text) => Ok(text),
        // the lines were read from it, so it is JSON
        Err(_) => Err(AllocError),
    }
}

fn respond_to<R: Clock>(
    rt: &R,
    alloc: Global,
    words: StatusWords<'_>,
    state: Vec<u8>,
) -> Result<Response, AllocError>
    ensures { IfOk result (IsAnswer words.entry.stamps.now) }
{
    let report = match read_report(alloc, state.as_slice()) {
        Ok(report) => report,
        Err(Misread::Memory) => return Err(AllocError),
        Err(Misread::Fault(_)) => return Refusal::Untold.response(alloc, words.stamps),
    };
    let health = health_of(rt, &report);
    let text = text_for(alloc, words, state, report.into_lines(), true)?;
    told_response(alloc, health, text, words.stamps)
}

/// The first line says how old the state is, if the clock can be read.
fn last_lines<R: Clock>(rt: &R, alloc: Global, report: Report) -> Result<Vec<u8>, AllocError> {
    let Some(now) = unix_seconds(rt) else {
        return Ok(report.into_lines());
    };
    let mut text = Vec::from_slice(alloc, b"last state, ".as_slice())?;
    push_number(alloc, &mut text, u128::from(report.minutes_old(now)))?;
    text.extend_from_slice(b" min old\n")?;
    text.extend_from_slice(report.into_lines().as_slice())?;
    Ok(text)
}

fn respond_after<R: Clock>(
    rt: &R,
    alloc: Global,
    words: StatusWords<'_>,
    state: Vec<u8>,
) -> Result<Response, AllocError>
    ensures { IfOk result (IsAnswer words.entry.stamps.now) }
{
    let report = match read_report(alloc, state.as_slice()) {
        Ok(report) => report,
        Err(Misread::Memory) => return Err(AllocError),
        Err(Misread::Fault(_)) => return Refusal::NoDaemon.response(alloc, words.stamps),
    };
    let lines = last_lines(rt, alloc, report)?;
    let text = text_for(alloc, words, state, lines, false)?;
    told_response(alloc, Health::Gone, text, words.stamps)
}

/// Shows the last state of a daemon that has ended, if it can be read.
fn respond_without<R: Files + Clock>(
    rt: &R,
    alloc: Global,
    words: StatusWords<'_>,
    refusal: Refusal,
) -> Result<Response, AllocError>
    ensures { IfOk result (IsAnswer words.entry.stamps.now) }
{
    if let Refusal::NoDaemon = refusal {
        if let Ok(state) = ToldFile::state(alloc, words.stamps)?.read(rt, alloc) {
            return respond_after(rt, alloc, words, state);
        }
    }
    refusal.response(alloc, words.stamps)
}

fn look<R: Files<File = File>>(rt: &R, alloc: Global, folder: &str) -> Result<Vec<u8>, Refusal> {
    find_daemon(rt, alloc, folder)?;
    let Ok(file) = ToldFile::state(alloc, folder) else {
        return Err(Refusal::Untold);
    };
    file.read(rt, alloc).map_err(|_| Refusal::Untold)
}

/// Shows what the daemon of a folder of stamps does, or what the last one did, and returns the
/// status: 0 if all is well, 1 if it is faulty, 2 if its state is too old or it has ended, or that
/// of why there is none.
pub fn tell_status<R: Files<File = File> + Clock, O: Output, E: Output>(
    rt: &R,
    alloc: Global,
    words: StatusWords<'_>,
    out: &mut O,
    err: &mut E,
) -> Status
    ensures { Tells words.entry.stamps.now
        (sink (O.contents out.old) (O.failed out.old))
        (sink (O.contents out.new) (O.failed out.new))
        (sink (E.contents err.old) (E.failed err.old))
        (sink (E.contents err.new) (E.failed err.new))
        (status_of result) }
{
    let answered = match look(rt, alloc, words.stamps) {
        Ok(state) => respond_to(rt, alloc, words, state),
        Err(refusal) => respond_without(rt, alloc, words, refusal),
    };
    match answered {
        Ok(response) => finish(&response, out, err),
        Err(AllocError) => run_out(err),
    }
}
