//! The subcommand `learn`.
ghost use Rattle.std.specs.Prelude.{◌≡◌, ◌≢◌, [], IfErr, IfOk, OnOk, map};
ghost use Rattle.cs_args.specs.Asked.{asked_learn};
ghost use Rattle.cs_io.specs.Files.{AreReadInTurn, IsFresh};
ghost use Rattle.cs_files.specs.Asked.{Tells, Warns};
ghost use Rattle.cs_files.specs.Ending.{sink};
ghost use Rattle.cs_files.specs.Trouble.{CameTo, IsHonestOf, trouble};
ghost use Rattle.cs_learn.specs.Answer.{FindsLearnable, PrintsLearned, ReadsLogs, learned_paths, no_factor};
ghost use Rattle.cs_learn.specs.Answer.{trouble_of};

use crate::job::jobs_of;
use crate::learned::learn;
use crate::log::Log;
use crate::max::Factor;
use crate::reading::{Unread, read_logs};
use crate::summary::summary_of;
use cs_args::LearnWords;
use cs_files::{Fault, Response, Status, Tables, find_tables};
use cs_io::{Inputs, Output, ReadFault};
use std::alloc::{AllocError, Global};

fn no_factor(alloc: Global, factor: &str) -> Result<Response, AllocError>
    ensures { IfOk result (λ r. r ≡ no_factor factor.now) }
{
    let start = b"error: --factor is a number from 1 to 10 with at most two decimals: ";
    let mut text = Vec::from_slice(alloc, start.as_slice())?;
    text.extend_from_slice(factor.as_bytes())?;
    text.extend_from_slice(b"\n")?;
    Ok(Response::no_call(alloc, text))
}

fn fault_of(unread: Unread<'_>) -> Fault<'_>
    ensures { trouble result ≡ trouble_of unread.entry.path.now unread.entry.fault }
{
    match unread.fault {
        ReadFault::CannotRead(reason) => Fault::CannotRead(unread.path, reason),
        ReadFault::OutOfMemory => Fault::OutOfMemory,
    }
}

/// What the logs say of the tables' jobs.
fn logs_at<'a, I: Inputs>(
    alloc: Global,
    inputs: &mut I,
    paths: &[&'a str],
    tables: &Tables,
) -> Result<Log, Fault<'a>>
    ensures step { IsFresh (I.whole inputs.old) (I.left inputs.old)
        → CameTo (ReadsLogs (I.whole inputs.old) (map (λ path. path.now) paths.now)
        (I.failed inputs.old) (I.failed inputs.new)) result }
    ensures works { OnOk result (I.failed inputs.new ≡ I.failed inputs.old) }
    ensures status { IfErr result (IsHonestOf (I.failed inputs.new) (I.reads inputs.new)) }
    ensures turn { AreReadInTurn (map (λ path. path.now) paths.now)
        (I.reads inputs.old) (I.reads inputs.new) }
{
    let (lines, others) = (tables.crontab.lines(), tables.jobs.lines());
    let jobs = jobs_of(alloc, lines, tables.places.as_slice(), others)?;
    let mut log = Log::new(alloc, jobs);
    match read_logs(alloc, inputs, paths, &mut log) {
        Ok(()) => {
            log.close()?;
            Ok(log)
        }
        Err(unread) => Err(fault_of(unread)),
    }
}

/// The factor and the files of `learn`.
#[derive(Drop)]
pub struct Learnable {
    /// What the longest run is multiplied by.
    pub factor: Factor,
    /// The crontab and the anacrontab.
    pub tables: Tables,
    /// What the logs say of the tables' jobs.
    pub log: Log,
}

/// Reads the tables and then the logs, and writes warnings about the tables to standard error.
/// None, before a file is read, where `--factor` is no factor.
pub fn find_learnable<'a, I: Inputs, E: Output>(
    alloc: Global,
    inputs: &mut I,
    err: &mut E,
    words: &LearnWords<'a>,
) -> Result<Option<Learnable>, Fault<'a>>
    ensures value { IsFresh (I.whole inputs.old) (I.left inputs.old)
        → Tells (λ w. Warns (I.whole inputs.old) (asked_learn words.now).table
        (asked_learn words.now).anacrontab (I.failed inputs.old)
        (I.reads inputs.old) (I.reads inputs.new) w
        × CameTo (FindsLearnable (asked_learn words.now) (I.whole inputs.old) w
        (I.failed inputs.old) (I.failed inputs.new)) result)
        (sink (E.contents err.old) (E.failed err.old))
        (sink (E.contents err.new) (E.failed err.new)) }
    ensures status { IfErr result (IsHonestOf (I.failed inputs.new) (I.reads inputs.new)) }
    ensures turn { AreReadInTurn (learned_paths (asked_learn words.now))
        (I.reads inputs.old) (I.reads inputs.new) }
{
    let Some(factor) = Factor::read(words.factor.as_bytes()) else {
        return Ok(None);
    };
    let tables = find_tables(alloc, inputs, err, words.table, words.anacrontab)?;
    let log = logs_at(alloc, inputs, words.logs.as_slice(), &tables)?;
    Ok(Some(Learnable {
        factor,
        tables,
        log,
    }))
}

/// Answers `learn TABLE LOG.. [--anacrontab FILE] [--factor F]`. The only error is out of memory.
pub fn answer_learn(
    alloc: Global,
    factor: &str,
    found: &Option<Learnable>,
) -> Result<Response, AllocError>
    ensures printed { IfOk result (PrintsLearned factor.now found.now) }
    ensures done { IfOk result (λ r. r.status ≢ 6) }
{
    let Some(found) = found else {
        return no_factor(alloc, factor);
    };
    let lines = found.tables.crontab.lines();
    let places = found.tables.places.as_slice();
    let others = found.tables.jobs.lines();
    match learn(alloc, lines, others, &found.log, found.factor)? {
        Some(text) => {
            let told = summary_of(alloc, lines, places, &found.log, found.factor)?;
            Ok(Response::done(text, told))
        }
        None => {
            let fault = b"no longest times could be learned".as_slice();
            Response::fault(alloc, Status::Unknown, b"".as_slice(), fault)
        }
    }
}
