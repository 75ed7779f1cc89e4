//! The answer to the words of a call.
ghost use Rattle.std.specs.Prelude.{◌≡◌, ◌≢◌, ◌⊎◌, [], IfErr, IfOk, Some, map, option_map, ⊤};
ghost use Rattle.cs_io.specs.Files.{AreReadInTurn, IsFresh};
ghost use Rattle.cs_args.specs.Asked.{asked_diff, asking};
ghost use Rattle.cs_files.specs.Asked.{Tells};
ghost use Rattle.cs_files.specs.Ending.{sink};
ghost use Rattle.cs_findings.specs.Format.{IsIn};
ghost use Rattle.cs_files.specs.Trouble.{CameTo, IsHonestOf, ends, trouble};
ghost use Rattle.cronsafe_aids.specs.Call.{Answers, IfReady, IsHonestFor, IsHonestOn, IsReply};
ghost use Rattle.cronsafe_aids.specs.Call.{Leads, form_for, form_of};
ghost use Rattle.cronsafe_aids.specs.declared.responding.Task.TheVariants.{Ready};
ghost use Rattle.cronsafe_aids.specs.Turn.{both_paths, ReadsAsked, ReadsInTurn, WarnsOf, WarnsOn};

use crate::now::Now;
use cs_advise::{Question as PlanQuestion, answer_advise};
use cs_all::{answer_judge_all, answer_lint_all};
use cs_args::{
    ChartWords, DiffWords, DraftWords, JudgeWords, NextWords, Question, Request, UsageFault,
    parse_words,
};
use cs_chart::{Drawable, answer_chart, find_drawable};
use cs_civil::Bytes;
use cs_diff::answer_diff;
use cs_draft::{Draftable, answer_draft, find_draftable};
use cs_explain::answer_explain;
use cs_files::{Fault, Planned, Response, Status, Tables, find_plan, find_tables};
use cs_findings::{TableStatus, findings_of_fault, in_format, written};
use cs_gather::answer_gather;
use cs_io::{Folders, Inputs, Output};
use cs_learn::{Learnable, answer_learn, find_learnable};
use cs_lint::answer_lint;
use cs_next::answer_next;
use std::alloc::{AllocError, Global};
use std::convert::AsStr;
use std::rt::Files;
use std::thread::Threads;

/// What a call asks, with the content of its files.
#[derive(Drop)]
pub(crate) enum Task<'a> {
    Advise(JudgeWords<'a>, PlanQuestion, Planned),
    Draft(DraftWords<'a>, Draftable),
    /// With the text of the factor.
    Learn(&'a str, Option<Learnable>),
    Chart(ChartWords<'a>, Question, Drawable),
    Explain(Option<&'a str>),
    Next(NextWords<'a>, Tables),
    /// With the plan before and the one after.
    Diff(DiffWords<'a>, Planned, Planned),
    /// Answered while its files were read.
    Ready(Response),
    /// A subcommand of the other program.
    Other,
}

/// Reads the files of both plans of `diff`, in turn, and writes warnings about their tables to
/// standard error.
fn find_both<'a, I: Inputs, E: Output>(
    alloc: Global,
    inputs: &mut I,
    err: &mut E,
    words: &DiffWords<'a>,
) -> Result<(Planned, Planned), Fault<'a>>
    ensures told { IsFresh (I.whole inputs.old) (I.left inputs.old)
        → Tells (λ w. ⊤) (sink (E.contents err.old) (E.failed err.old))
        (sink (E.contents err.new) (E.failed err.new)) }
    ensures status { IfErr result (IsHonestOf (I.failed inputs.new) (I.reads inputs.new)) }
    ensures turn { AreReadInTurn (both_paths (asked_diff words.now))
        (I.reads inputs.old) (I.reads inputs.new) }
{
    let (old, new) = (words.old, words.new);
    let before = find_plan(
        alloc,
        inputs,
        err,
        old.table,
        old.anacrontab,
        old.declarations,
    )?;
    match find_plan(
        alloc,
        inputs,
        err,
        new.table,
        new.anacrontab,
        new.declarations,
    ) {
        Ok(after) => Ok((before, after)),
        Err(fault) => {
            drop(before);
            Err(fault)
        }
    }
}

/// The words of a request whose answer has a form; none if it is text.
fn words_in_form<'a>(request: &Request<'a>) -> Option<JudgeWords<'a>>
    ensures { form_for result ≡ form_of (asking request.now) }
{
    match request {
        Request::Advise(words) => Some(words.judge),
        Request::Room(words) => Some(*words),
        _ => None,
    }
}

/// Reads the files of what a call asks, in turn, and writes warnings about the tables to standard
/// error. What is asked of all tables below folders is answered.
fn find_task<'a, R: Threads + Sync + Files, I: Folders, E: Output>(
    rt: &R,
    alloc: Global,
    request: Request<'a>,
    now: Now<'_>,
    inputs: &mut I,
    err: &mut E,
) -> Result<Task<'a>, Fault<'a>>
    ensures value { IsFresh (I.whole inputs.old) (I.left inputs.old)
        → Tells (λ w. WarnsOf (asking request.entry) (I.whole inputs.old) (I.failed inputs.old)
        (I.reads inputs.old) (I.reads inputs.new) w
        × CameTo (Leads now.entry (asking request.entry) I.tree (I.whole inputs.old) w
        (I.failed inputs.old) (I.failed inputs.new)) result)
        (sink (E.contents err.old) (E.failed err.old))
        (sink (E.contents err.new) (E.failed err.new)) }
    ensures status { IfErr result (IsHonestOf (I.failed inputs.new) (I.reads inputs.new)) }
    ensures ready { IfOk result (IfReady (IsHonestFor (asking request.entry)
        (I.failed inputs.new) (I.reads inputs.new))) }
    ensures turn { ReadsAsked (asking request.entry) (I.reads inputs.old) (I.reads inputs.new) }
{
    match request {
        Request::Advise(words) => {
            let judge = words.judge;
            let (table, jobs, path) = (judge.table, judge.anacrontab, judge.declarations);
            let planned = find_plan(alloc, inputs, err, table, jobs, path)?;
            Ok(Task::Advise(
                judge,
                PlanQuestion::Advice(words.within, words.first),
                planned,
            ))
        }
        Request::Room(words) => {
            let (table, jobs, path) = (words.table, words.anacrontab, words.declarations);
            let planned = find_plan(alloc, inputs, err, table, jobs, path)?;
            Ok(Task::Advise(words, PlanQuestion::Rooms, planned))
        }
        Request::Draft(words) => {
            let found = find_draftable(alloc, inputs, err, &words)?;
            Ok(Task::Draft(words, found))
        }
        Request::Learn(words) => {
            let found = find_learnable(alloc, inputs, err, &words)?;
            Ok(Task::Learn(words.factor, found))
        }
        Request::Chart(words) => {
            let question = Question::new(&words.day)?;
            let found = find_drawable(alloc, inputs, err, &words)?;
            Ok(Task::Chart(words, question, found))
        }
        Request::Gather(words) => Ok(Task::Ready(answer_gather(alloc, &words, inputs)?)),
        Request::Lint(words) => {
            Ok(Task::Ready(answer_lint(alloc, &words, now.instant, inputs)?))
        }
        Request::Explain(name) => Ok(Task::Explain(name)),
        Request::JudgeAll(words) => {
            Ok(Task::Ready(answer_judge_all(rt, alloc, &words, inputs)?))
        }
        Request::LintAll(words) => { Ok(Task::Ready(answer_lint_all(rt, alloc, &words, inputs)?)) }
        Request::Next(words) => {
            let found = find_tables(alloc, inputs, err, words.table, words.anacrontab)?;
            Ok(Task::Next(words, found))
        }
        Request::Diff(words) => {
            let (old, new) = find_both(alloc, inputs, err, &words)?;
            Ok(Task::Diff(words, old, new))
        }
        Request::Day(_words) => Ok(Task::Other),
        Request::Wall(_words) => Ok(Task::Other),
        Request::Replay(_words) => Ok(Task::Other),
        Request::Check(_words) => Ok(Task::Other),
        Request::Run(_words) => Ok(Task::Other),
        Request::Stop(_words) => Ok(Task::Other),
        Request::Reload(_words) => Ok(Task::Other),
        Request::Apply(_words) => Ok(Task::Other),
        Request::Status(_words) => Ok(Task::Other),
        Request::Judge(_words) => Ok(Task::Other),
        Request::Make(_words) => Ok(Task::Other),
    }
}

fn answer<R: Threads + Sync>(
    rt: &R,
    alloc: Global,
    now: Now<'_>,
    task: Task<'_>,
) -> Result<Response, AllocError>
    ensures reply { IfOk result (IsReply now.entry task.entry) }
    ensures done { IfOk result (λ r. (task.entry ≡ Ready r) ⊎ (r.status ≢ 6)) }
{
    match task {
        Task::Advise(words, question, planned) => {
            answer_advise(rt, alloc, &words, planned, question)
        }
        Task::Draft(words, found) => answer_draft(alloc, &words, now.offset, now.zone, &found),
        Task::Learn(factor, found) => answer_learn(alloc, factor, &found),
        Task::Chart(words, question, found) => answer_chart(alloc, &words, question, &found),
        Task::Explain(name) => answer_explain(alloc, name),
        Task::Next(words, found) => answer_next(alloc, &words, now.minute(), &found),
        Task::Diff(words, old, new) => {
            let answer = answer_diff(rt, alloc, &words, now.minute().day(), &old, &new);
            drop(old);
            drop(new);
            answer
        }
        Task::Ready(response) => Ok(response),
        Task::Other => {
            let text = b"cronsafe-aids: the program cronsafe answers this subcommand\n".as_slice();
            Ok(Response::no_call(alloc, Vec::from_slice(alloc, text)?))
        }
    }
}

/// The answer to a fault; in another form than text standard output has the findings of one of a
/// file that was read.
fn answer_fault(
    alloc: Global,
    words: Option<JudgeWords<'_>>,
    fault: &Fault<'_>,
) -> Result<Response, AllocError>
    ensures value { IfOk result (IsIn (form_for words.entry)
        (λ r. option_map (ends []) (trouble fault.now) ≡ Some r)) }
    ensures status { IfOk result (λ r. (option_map (ends []) (trouble fault.now) ≡ Some r)
        ⊎ (r.status ≢ 6)) }
{
    let answer = fault.response(alloc, b"".as_slice())?;
    let Some(words) = words else {
        return Ok(answer);
    };
    if answer.status() != Status::BadInput {
        return Ok(answer);
    }
    let findings = findings_of_fault(alloc, fault, words.table)?;
    let tables = [TableStatus {
        table: words.table,
        status: Status::BadInput.code(),
        verdict: None,
    }];
    let out = written(alloc, words.format, findings.as_slice(), tables.as_slice())?;
    in_format(alloc, answer, words.format, out)
}

/// Answers the words of a call, the first of which is the program's name, and writes warnings to
/// standard error.
pub(crate) fn respond<R: Threads + Sync + Files, S: AsStr, I: Folders, E: Output>(
    rt: &R,
    alloc: Global,
    words: &[S],
    now: Now<'_>,
    inputs: &mut I,
    err: &mut E,
) -> Result<Response, AllocError>
    // If no file of known content has been read so far.
    ensures value { IsFresh (I.whole inputs.old) (I.left inputs.old)
        → Tells (λ w. WarnsOn (map S.text words.now) (I.whole inputs.old) (I.failed inputs.old)
        (I.reads inputs.old) (I.reads inputs.new) w
        × IfOk result (Answers now.entry (map S.text words.now) I.tree
        (I.whole inputs.old) w (I.failed inputs.old) (I.failed inputs.new)))
        (sink (E.contents err.old) (E.failed err.old))
        (sink (E.contents err.new) (E.failed err.new)) }
    ensures status { IfOk result (IsHonestOn (map S.text words.now)
        (I.failed inputs.new) (I.reads inputs.new)) }
    ensures turn { ReadsInTurn (map S.text words.now)
        (I.reads inputs.old) (I.reads inputs.new) }
{
    match parse_words(alloc, words) {
        Ok(request) => {
            let words = words_in_form(&request);
            match find_task(rt, alloc, request, now, inputs, err) {
                Ok(task) => answer(rt, alloc, now, task),
                Err(fault) => answer_fault(alloc, words, &fault),
            }
        }
        Err(UsageFault::Help(text)) => Ok(Response::done(text.into_bytes(), Bytes::new(alloc))),
        Err(UsageFault::Version) => Response::version(alloc),
        Err(UsageFault::NoCall(text)) => Ok(Response::no_call(alloc, text.into_bytes())),
        Err(UsageFault::OutOfMemory) => Err(AllocError),
    }
}
