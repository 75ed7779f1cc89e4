//! The program on the machine's words, files and clock.
use crate::now::{Local, Now, UTC, local_time, read_clock};
use crate::run::run_words;
use cs_args::{Request, parse_words};
use cs_civil::Bytes;
use cs_files::{Status, run_out, words_of};
use cs_io::{Machine, Output};
use cs_rule::read_rule;
use jiff_core::Timestamp;
use jiff_tz::posix;
use std::alloc::{AllocError, Global};
use std::process::ExitCode;
use std::rt::{Clock, Env, Files};
use std::thread::Threads;

/// Announces that many plans are to be judged, if the words ask for that.
fn announce<E: Output>(alloc: Global, words: &[String], err: &mut E) {
    match parse_words(alloc, words) {
        Ok(Request::Advise(_)) | Ok(Request::Room(_)) => {
            let _ = err.print(
                b"cronsafe: judging changed plans, which can take a while\n".as_slice(),
            );
        }
        Ok(Request::JudgeAll(_)) => {
            let _ = err.print(b"cronsafe: judging all tables, which can take a while\n".as_slice());
        }
        _ => {}
    }
}

/// Whether the answer to the words needs a clock.
fn asks_time(alloc: Global, words: &[String]) -> bool {
    match parse_words(alloc, words) {
        Ok(Request::Lint(request)) => request.zone.is_some(),
        Ok(Request::Next(request)) => request.from.is_none(),
        Ok(Request::Diff(request)) => request.since.is_none(),
        _ => false,
    }
}

/// Whether the words ask for new declarations.
fn asks_new(alloc: Global, words: &[String]) -> bool {
    match parse_words(alloc, words) {
        Ok(Request::Draft(words)) => words.update.is_none(),
        _ => false,
    }
}

/// The text of a rule with summer time that new declarations name, if the words ask for some. Warns
/// of a rule that no plan can follow.
fn zone_for<E: Output>(
    alloc: Global,
    words: &[String],
    rule: Option<posix::TimeZone>,
    err: &mut E,
) -> Result<Option<Bytes>, AllocError> {
    let Some(rule) = rule else {
        return Ok(None);
    };
    if rule.dst.is_none() || !asks_new(alloc, words) {
        return Ok(None);
    }
    let text = format!(in alloc; "{rule}")?;
    let Err(fault) = read_rule(text.as_bytes()) else {
        return Ok(Some(Bytes::from_vec(text.into_bytes())));
    };
    let why = fault.text();
    let zone = "warning: no plan can follow the machine's zone ";
    let offset = ", so the draft keeps one offset all year: ";
    let warning = format!(in alloc; "{zone}{text}{offset}{why}\n")?;
    let _ = err.print(warning.as_bytes());
    Ok(None)
}

/// Warns that `TZ` names no time zone, if the words ask for declarations, which have the offset.
fn warn_of_zone<E: Output>(alloc: Global, words: &[String], err: &mut E) {
    match parse_words(alloc, words) {
        Ok(Request::Draft(_)) => {
            let _ = err.print(
                b"warning: TZ names no known time zone and is taken as UTC\n".as_slice(),
            );
        }
        _ => {}
    }
}

/// Local time and the instant; 1970-01-01 00:00 UTC if it is neither known nor needed. An unknown
/// time zone is UTC. An error was printed, and is the status.
fn time_for<R: Clock + Env + Files + AllocGlobal, E: Output>(
    rt: &R,
    words: &[String],
    err: &mut E,
) -> Result<(Local, Timestamp), Status> {
    let Some(instant) = read_clock(rt) else {
        if asks_time(rt.alloc(), words) {
            let _ = err.print(b"cronsafe: can't read the clock\n".as_slice());
            return Err(Status::DeviceFailed);
        }
        return Ok((UTC, Timestamp::UNIX_EPOCH));
    };
    match local_time(rt, instant) {
        Ok(Some(local)) => Ok((local, instant)),
        Ok(None) => {
            warn_of_zone(rt.alloc(), words, err);
            Ok((UTC, instant))
        }
        Err(_) => Err(run_out(err)),
    }
}

/// Answers the words; returns the status, or the status of an error that was printed.
fn answered<R: Files + Input + Env + Clock + AllocGlobal + Threads + Sync, O: Output, E: Output>(
    rt: &R,
    is_watched: bool,
    words: &[String],
    out: &mut O,
    err: &mut E,
) -> Result<u8, Status> {
    if is_watched {
        announce(rt.alloc(), words, err);
    }
    let (local, instant) = time_for(rt, words, err)?;
    let Ok(zone) = zone_for(rt.alloc(), words, local.rule, err) else {
        return Err(run_out(err));
    };
    let now = Now {
        offset: local.offset,
        zone: &zone,
        instant,
    };
    let mut inputs = Machine::new(rt);
    Ok(run_words(rt, rt.alloc(), words, now, &mut inputs, out, err))
}

/// Runs the program on the machine's words, files and clock; `is_watched` says whether standard
/// error is a terminal.
pub(crate) fn run_program<
    R: Files + Input + Env + Clock + AllocGlobal + Threads + Sync,
    O: Output,
    E: Output,
>(rt: &R, is_watched: bool, out: &mut O, err: &mut E) -> ExitCode {
    let words = match words_of(rt, err) {
        Ok(words) => words,
        Err(status) => return ExitCode::from(status.code()),
    };
    match answered(rt, is_watched, words.as_slice(), out, err) {
        Ok(code) => ExitCode::from(code),
        Err(status) => ExitCode::from(status.code()),
    }
}
