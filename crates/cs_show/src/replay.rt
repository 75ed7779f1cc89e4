//! The subcommand `replay`.
ghost use Rattle.std.specs.Prelude.{◌≡◌, ◌≢◌, IfErr, IfOk, OnOk, Some, false, option_map, true};
ghost use Rattle.cs_args.specs.Asked.{asked_replay};
ghost use Rattle.cs_io.specs.Files.{AreReadInTurn, IsFresh};
ghost use Rattle.cs_files.specs.Asked.{Tells, Warns};
ghost use Rattle.cs_files.specs.Ending.{sink};
ghost use Rattle.cs_files.specs.Reads.{MeansIt};
ghost use Rattle.cs_report.specs.Faults.{Means as MeansScript};
ghost use Rattle.cs_show.specs.Replayed.{FindsScript, IsReplayed, IsReplyTo, IsToldBy};
ghost use Rattle.cs_show.specs.Replayed.{MeansGiven, MeansLog, MeansReply, ReadsPlan, Replies};
ghost use Rattle.cs_show.specs.Replayed.{TellsScript, too_long};
ghost use Rattle.cs_files.specs.Trouble.{CameTo, InScript, IsHonestOf, IsOfContent, trouble};
ghost use Rattle.cs_files.specs.Turn.{replay_paths, some_path};

use crate::replay_text::replay_text;
use crate::verdict::{as_script, verdict};
use cs_anacrontab::Anacrontab;
use cs_args::{ReplayWords, WordFault};
use cs_civil::Bytes;
use cs_crontab::Crontab;
use cs_files::{Fault, Response, Tables, bytes_at, declared_plan_from, find_tables};
use cs_io::{Inputs, Output};
use cs_plan::{Plan, is_possible_max};
use cs_report::{MAX_SCRIPT, NumberedScript, ScriptError, ScriptFault, read_numbered_script};
use cs_retrace::retrace;
use std::alloc::{AllocError, Global};

fn plan_from<'a, I: Inputs>(
    alloc: Global,
    inputs: &mut I,
    request: &ReplayWords<'a>,
    table: Crontab,
    jobs: Anacrontab,
) -> Result<Plan, Fault<'a>>
    ensures step { IsFresh (I.whole inputs.old) (I.left inputs.old)
        → CameTo (ReadsPlan (I.whole inputs.old) (table, jobs) request.now.max
        (asked_replay request.now).declarations
        (I.failed inputs.old) (I.failed inputs.new)) result }
    ensures works { OnOk result (I.failed inputs.new ≡ I.failed inputs.old) }
    ensures whole { I.whole inputs.new ≡ I.whole inputs.old }
    ensures fresh { OnOk result (IsFresh (I.whole inputs.old) (I.left inputs.old)
        → IsFresh (I.whole inputs.new) (I.left inputs.new)) }
    ensures status { IfErr result (IsHonestOf (I.failed inputs.new) (I.reads inputs.new)) }
    ensures turn { AreReadInTurn (some_path (asked_replay request.now).declarations)
        (I.reads inputs.old) (I.reads inputs.new) }
{
    match request.declarations {
        Some(path) => declared_plan_from(alloc, inputs, path, table, jobs),
        None if is_possible_max(request.max) => {
            Ok(Plan::plain(alloc, table, jobs, request.max)?)
        }
        None => Err(Fault::Words(WordFault::BadMax)),
    }
}

fn script_of<'a>(alloc: Global, plan: &Plan, bytes: &[u8]) -> Result<NumberedScript, Fault<'a>>
    ensures value { MeansIt (MeansScript plan.now) InScript bytes.now result }
    ensures status { IfErr result IsOfContent }
{
    match read_numbered_script(alloc, plan, bytes) {
        Ok(script) => Ok(script),
        Err(error) => Err(Fault::Script(error)),
    }
}

/// None if the log, or the script that it gives, is too long.
fn told_by(alloc: Global, plan: &Plan, log: &[u8]) -> Result<Option<Vec<u8>>, AllocError>
    ensures { IfOk result (λ script. IsToldBy log.now (option_map (λ t. t.items) script)) }
{
    if log.len() > MAX_SCRIPT {
        return Ok(None);
    }
    retrace(alloc, plan.offset(), log)
}

fn too_long<'a>() -> Fault<'a>
    ensures value { trouble result ≡ Some (InScript too_long) }
    ensures status { IsOfContent result }
{
    Fault::Script(ScriptError::At {
        line: 0,
        fault: ScriptFault::TooLong,
    })
}

#[tactic(auto, using(crate::proofs::ReplayLemmas::told_means, crate::proofs::ReplayLemmas::none_means))]
fn script_told<'a>(alloc: Global, plan: &Plan, log: &[u8]) -> Result<NumberedScript, Fault<'a>>
    ensures value { MeansIt (MeansLog plan.now) InScript log.now result }
    ensures status { IfErr result IsOfContent }
{
    match told_by(alloc, plan, log)? {
        Some(script) => script_of(alloc, plan, script.as_slice()),
        None => Err(too_long()),
    }
}

fn script_given<'a>(
    alloc: Global,
    plan: &Plan,
    judge: bool,
    log: bool,
    bytes: Vec<u8>,
) -> Result<NumberedScript, Fault<'a>>
    ensures value { MeansIt (MeansGiven plan.now judge log) InScript bytes.items result }
    ensures status { IfErr result IsOfContent }
{
    if log {
        script_told(alloc, plan, bytes.as_slice())
    } else {
        script_of(alloc, plan, as_script(judge, bytes).as_slice())
    }
}

#[tactic(auto, using(crate::proofs::ReplayLemmas::none_tells))]
fn text_told<'a>(alloc: Global, plan: &Plan, log: &[u8]) -> Result<Bytes, Fault<'a>>
    ensures value { MeansIt TellsScript InScript log.now result }
    ensures status { IfErr result IsOfContent }
{
    match told_by(alloc, plan, log)? {
        Some(script) => Ok(Bytes::from_vec(script)),
        None => Err(too_long()),
    }
}

fn show(
    alloc: Global,
    plan: &Plan,
    script: NumberedScript,
    judge: bool,
) -> Result<Response, AllocError>
    ensures value { IfOk result (IsReplayed judge plan.now script) }
    ensures done { IfOk result (λ answer. answer.status ≢ 6) }
{
    let (start, events) = script.into_parts();
    let (mut text, refused) = replay_text(alloc, plan, start.copy(), events.as_slice())?;
    if !judge {
        return Ok(Response::replayed(text, refused, Bytes::new(alloc)));
    }
    let (line, wrong) = verdict(alloc, plan, start, events.as_slice())?;
    text.extend_from_slice(line.as_slice())?;
    Ok(Response::replayed(text, refused || wrong, Bytes::new(alloc)))
}

/// The plan of both tables, and the bytes of the script, or of the log.
#[derive(Drop)]
pub struct Replayable {
    /// The plan.
    pub plan: Plan,
    /// The bytes, or more of them than a script may have where it is longer.
    pub script: Vec<u8>,
}

/// Reads both tables, the declarations and then the script, and writes the tables' warnings to
/// standard error.
pub fn find_script<'a, I: Inputs, E: Output>(
    alloc: Global,
    inputs: &mut I,
    err: &mut E,
    words: &ReplayWords<'a>,
) -> Result<Replayable, Fault<'a>>
    ensures value { IsFresh (I.whole inputs.old) (I.left inputs.old)
        → Tells (λ w. Warns (I.whole inputs.old) (asked_replay words.now).table
        (asked_replay words.now).anacrontab (I.failed inputs.old)
        (I.reads inputs.old) (I.reads inputs.new) w
        × CameTo (FindsScript (I.whole inputs.old) (asked_replay words.now) w
        (I.failed inputs.old) (I.failed inputs.new)) result)
        (sink (E.contents err.old) (E.failed err.old))
        (sink (E.contents err.new) (E.failed err.new)) }
    ensures status { IfErr result (IsHonestOf (I.failed inputs.new) (I.reads inputs.new)) }
    ensures turn { AreReadInTurn (replay_paths (asked_replay words.now))
        (I.reads inputs.old) (I.reads inputs.new) }
{
    let tables = find_tables(alloc, inputs, err, words.table, words.anacrontab)?;
    let Tables { crontab, jobs, .. } = tables;
    let plan = plan_from(alloc, inputs, words, crontab, jobs)?;
    let bytes = bytes_at(alloc, inputs, words.script, MAX_SCRIPT as u32)?;
    Ok(Replayable {
        plan,
        script: bytes,
    })
}

fn replayed<'a>(
    alloc: Global,
    words: &ReplayWords<'a>,
    plan: &Plan,
    bytes: Vec<u8>,
) -> Result<Response, Fault<'a>>
    ensures value { MeansIt (Replies false (asked_replay words.now) plan.now) InScript bytes.items
        result }
    ensures status { IfErr result IsOfContent }
    ensures done { IfOk result (λ answer. answer.status ≢ 6) }
{
    let script = script_given(alloc, plan, words.judge, words.log, bytes)?;
    Ok(show(alloc, plan, script, words.judge)?)
}

fn shown<'a>(
    alloc: Global,
    words: &ReplayWords<'a>,
    plan: &Plan,
    bytes: Vec<u8>,
) -> Result<Response, Fault<'a>>
    ensures value { MeansIt (Replies true (asked_replay words.now) plan.now) InScript bytes.items
        result }
    ensures status { IfErr result IsOfContent }
    ensures done { IfOk result (λ answer. answer.status ≢ 6) }
{
    let script = text_told(alloc, plan, bytes.as_slice())?;
    Ok(Response::done(script.into_vec(), Bytes::new(alloc)))
}

fn reply<'a>(
    alloc: Global,
    words: &ReplayWords<'a>,
    plan: &Plan,
    bytes: Vec<u8>,
) -> Result<Response, Fault<'a>>
    ensures value { MeansIt (MeansReply (asked_replay words.now) plan.now) InScript bytes.items
        result }
    ensures status { IfErr result IsOfContent }
    ensures done { IfOk result (λ answer. answer.status ≢ 6) }
{
    if words.show_script {
        shown(alloc, words, plan, bytes)
    } else {
        replayed(alloc, words, plan, bytes)
    }
}

/// Answers `replay TABLE SCRIPT [--max N] [--anacrontab FILE] [--declarations FILE] [--judge]
/// [--log] [--script]`.
pub fn answer_replay(
    alloc: Global,
    words: &ReplayWords<'_>,
    found: Replayable,
) -> Result<Response, AllocError>
    ensures reply { IfOk result (IsReplyTo (asked_replay words.now) found) }
    ensures done { IfOk result (λ answer. answer.status ≢ 6) }
{
    let Replayable { plan, script } = found;
    match reply(alloc, words, &plan, script) {
        Ok(answer) => Ok(answer),
        Err(fault) => fault.response(alloc, b"".as_slice()),
    }
}
