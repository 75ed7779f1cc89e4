//! The answer to the words of a call.
ghost use Rattle.std.specs.Prelude.{◌≡◌, ◌≢◌, [], IfErr, IfOk, map};
ghost use Rattle.cs_io.specs.Files.{IsFresh};
ghost use Rattle.cs_args.specs.Asked.{Wall, asked_wall, asking};
ghost use Rattle.cs_ruling.specs.Answer.{IfEnds};
ghost use Rattle.cs_files.specs.Asked.{Tells};
ghost use Rattle.cs_files.specs.Ending.{sink};
ghost use Rattle.cs_files.specs.Trouble.{CameTo, IsHonest, IsHonestOf};
ghost use Rattle.cronsafe.specs.Call.{Answers, IsFaultIn, IsReply, Leads, format_of};
ghost use Rattle.cronsafe.specs.Turn.{ReadsAsked, ReadsInTurn, WarnsOf, WarnsOn};

use cs_args::{
    CheckWords, Format, JudgeWords, Question, ReloadWords, ReplayWords, Request, RunWords,
    StatusWords, StopWords, UsageFault, WallWords, parse_words,
};
use cs_civil::Bytes;
use cs_cli::{Wanted, answer_judge, check_in_format, judge_in_format, wanted_of};
use cs_files::{Fault, Planned, Response, Status, Tables, find_plan, find_tables};
use cs_findings::{TableStatus, findings_of_fault, in_format, written};
use cs_io::{Inputs, Output};
use cs_rule::{Clock, RuleFault, read_rule};
use cs_ruling::{Answer, Claimed, answer_run, find_claimed};
use cs_show::{Replayable, answer_day, answer_replay, answer_wall, find_script, refuse_rule};
use std::alloc::{AllocError, Global};
use std::convert::AsStr;
use std::thread::Threads;

/// What a call asks, with what its files hold.
#[derive(Drop)]
pub(crate) enum Task<'a> {
    Day(Question, Tables),
    /// With the clock of a zone.
    Wall(Question, Clock, Tables),
    /// The rule of a zone that can't be used, for this reason.
    BadRule(RuleFault),
    Replay(ReplayWords<'a>, Replayable),
    Check(CheckWords<'a>, Claimed),
    Run(RunWords<'a>, Claimed),
    Judge(JudgeWords<'a>, Planned),
    Make(Wanted, Planned),
    Stop(StopWords<'a>),
    Reload(ReloadWords<'a>),
    Apply {
        certificate: &'a str,
        stamps: &'a str,
        planned: Planned,
    },
    Status(StatusWords<'a>),
    /// A subcommand of the aids.
    Aid,
}

/// Reads the crontab of `day` by the clock of a zone, once the words and the rule hold no fault.
/// Writes its warnings to standard error.
fn find_wall<'a, I: Inputs, E: Output>(
    alloc: Global,
    words: WallWords<'a>,
    inputs: &mut I,
    err: &mut E,
) -> Result<Task<'a>, Fault<'a>>
    ensures value { IsFresh (I.whole inputs.old) (I.left inputs.old)
        → Tells (λ w. WarnsOf (Wall (asked_wall words.entry)) (I.whole inputs.old)
        (I.failed inputs.old) (I.reads inputs.old) (I.reads inputs.new) w
        × CameTo (Leads (Wall (asked_wall words.entry)) (I.whole inputs.old) w
        (I.failed inputs.old) (I.failed inputs.new)) result)
        (sink (E.contents err.old) (E.failed err.old))
        (sink (E.contents err.new) (E.failed err.new)) }
    ensures status { IfErr result (IsHonestOf (I.failed inputs.new) (I.reads inputs.new)) }
    ensures turn { ReadsAsked (Wall (asked_wall words.entry))
        (I.reads inputs.old) (I.reads inputs.new) }
{
    let question = Question::new(&words.day)?;
    match read_rule(words.rule.as_bytes()) {
        Ok(clock) => {
            let tables = find_tables(alloc, inputs, err, words.day.table, None)?;
            Ok(Task::Wall(question, clock, tables))
        }
        Err(fault) => Ok(Task::BadRule(fault)),
    }
}

/// Reads the files of a request, each in its turn, and writes the tables' warnings to standard
/// error.
fn find_task<'a, I: Inputs, E: Output>(
    alloc: Global,
    request: Request<'a>,
    inputs: &mut I,
    err: &mut E,
) -> Result<Task<'a>, Fault<'a>>
    ensures value { IsFresh (I.whole inputs.old) (I.left inputs.old)
        → Tells (λ w. WarnsOf (asking request.entry) (I.whole inputs.old) (I.failed inputs.old)
        (I.reads inputs.old) (I.reads inputs.new) w
        × CameTo (Leads (asking request.entry) (I.whole inputs.old) w
        (I.failed inputs.old) (I.failed inputs.new)) result)
        (sink (E.contents err.old) (E.failed err.old))
        (sink (E.contents err.new) (E.failed err.new)) }
    ensures status { IfErr result (IsHonestOf (I.failed inputs.new) (I.reads inputs.new)) }
    ensures turn { ReadsAsked (asking request.entry) (I.reads inputs.old) (I.reads inputs.new) }
{
    match request {
        Request::Day(words) => {
            let question = Question::new(&words)?;
            let tables = find_tables(alloc, inputs, err, words.table, words.anacrontab)?;
            Ok(Task::Day(question, tables))
        }
        Request::Wall(words) => find_wall(alloc, words, inputs, err),
        Request::Replay(words) => {
            let found = find_script(alloc, inputs, err, &words)?;
            Ok(Task::Replay(words, found))
        }
        Request::Check(words) => {
            let claimed = find_claimed(alloc, inputs, err, &words)?;
            Ok(Task::Check(words, claimed))
        }
        Request::Run(words) => {
            let claimed = find_claimed(alloc, inputs, err, &words.check)?;
            Ok(Task::Run(words, claimed))
        }
        Request::Judge(words) => {
            let (table, jobs, path) = (words.table, words.anacrontab, words.declarations);
            let planned = find_plan(alloc, inputs, err, table, jobs, path)?;
            Ok(Task::Judge(words, planned))
        }
        Request::Make(words) => {
            let judge = words.judge;
            let (table, jobs, path) = (judge.table, judge.anacrontab, judge.declarations);
            let planned = find_plan(alloc, inputs, err, table, jobs, path)?;
            Ok(Task::Make(wanted_of(words.compact), planned))
        }
        Request::Apply(words) => {
            let judge = words.judge;
            let (table, jobs, path) = (judge.table, judge.anacrontab, judge.declarations);
            let planned = find_plan(alloc, inputs, err, table, jobs, path)?;
            Ok(Task::Apply {
                certificate: words.certificate,
                stamps: words.stamps,
                planned,
            })
        }
        Request::Stop(words) => Ok(Task::Stop(words)),
        Request::Reload(words) => Ok(Task::Reload(words)),
        Request::Status(words) => Ok(Task::Status(words)),
        Request::Advise(_words) => Ok(Task::Aid),
        Request::Room(_words) => Ok(Task::Aid),
        Request::Gather(_words) => Ok(Task::Aid),
        Request::Draft(_words) => Ok(Task::Aid),
        Request::Learn(_words) => Ok(Task::Aid),
        Request::Lint(_words) => Ok(Task::Aid),
        Request::Chart(_words) => Ok(Task::Aid),
        Request::Explain(_name) => Ok(Task::Aid),
        Request::Diff(_words) => Ok(Task::Aid),
        Request::Next(_words) => Ok(Task::Aid),
        Request::JudgeAll(_words) => Ok(Task::Aid),
        Request::LintAll(_words) => Ok(Task::Aid),
    }
}

/// Refuses a subcommand that `cronsafe-aids` answers.
fn elsewhere(alloc: Global) -> Result<Response, AllocError>
    ensures { IfOk result (λ r. (r.status ≡ 4) × (r.out ≡ [])) }
{
    let text = b"cronsafe: the program cronsafe-aids answers this subcommand\n".as_slice();
    Ok(Response::no_call(alloc, Vec::from_slice(alloc, text)?))
}

fn answer<'a, R: Threads + Sync>(
    rt: &R,
    alloc: Global,
    task: Task<'a>,
) -> Result<Answer<'a>, AllocError>
    ensures reply { IfOk result (IsReply task.entry) }
    ensures done { IfOk result (IfEnds (λ ending. ending.status ≢ 6)) }
{
    match task {
        Task::Day(question, tables) => Ok(Answer::Ends(answer_day(alloc, question, &tables)?)),
        Task::Wall(question, clock, tables) => {
            Ok(Answer::Ends(answer_wall(alloc, question, &clock, &tables)?))
        }
        Task::BadRule(fault) => Ok(Answer::Ends(refuse_rule(alloc, fault)?)),
        Task::Replay(words, found) => Ok(Answer::Ends(answer_replay(alloc, &words, found)?)),
        Task::Check(words, claimed) => {
            Ok(Answer::Ends(check_in_format(rt, alloc, &words, claimed)?))
        }
        Task::Run(words, claimed) => answer_run(rt, alloc, words, claimed),
        Task::Judge(words, planned) => {
            Ok(Answer::Ends(judge_in_format(rt, alloc, &words, &planned)?))
        }
        Task::Make(wanted, planned) => {
            Ok(Answer::Ends(answer_judge(rt, alloc, &planned, wanted)?))
        }
        Task::Apply {
            certificate,
            stamps,
            planned,
        } => {
            let made = answer_judge(rt, alloc, &planned, wanted_of(true))?;
            Ok(Answer::Applies {
                certificate,
                stamps,
                made,
            })
        }
        Task::Stop(words) => Ok(Answer::Stops(words)),
        Task::Reload(words) => Ok(Answer::Reloads(words)),
        Task::Status(words) => Ok(Answer::Tells(words)),
        Task::Aid => Ok(Answer::Ends(elsewhere(alloc)?)),
    }
}

/// In which format a call is answered, and its files that findings name.
#[derive(Clone, Copy)]
struct Form<'a> {
    format: Format,
    table: &'a str,
    certificate: &'a str,
}

fn form_of<'a>(request: &Request<'a>) -> Form<'a>
    ensures { result.format ≡ format_of (asking request.now) }
{
    match request {
        Request::Judge(words) => Form {
            format: words.format,
            table: words.table,
            certificate: "",
        },
        Request::Check(words) => Form {
            format: words.format,
            table: words.table,
            certificate: words.certificate,
        },
        _ => Form {
            format: Format::Text,
            table: "",
            certificate: "",
        },
    }
}

/// The findings of a fault of what the files hold; empty as text.
fn fault_out(alloc: Global, form: Form<'_>, fault: &Fault<'_>) -> Result<Vec<u8>, AllocError> {
    if matches!(form.format, Format::Text) {
        return Ok(Vec::new(alloc));
    }
    let findings = findings_of_fault(alloc, fault, form.certificate)?;
    let table = TableStatus {
        table: form.table,
        status: Status::BadInput.code(),
        verdict: None,
    };
    written(alloc, form.format, findings.as_slice(), &[table])
}

/// The answer to a fault. Only of a fault of what the files hold are there findings.
fn answer_fault(alloc: Global, form: Form<'_>, fault: &Fault<'_>) -> Result<Response, AllocError>
    ensures { IfOk result (IsFaultIn form.entry.format fault.now) }
{
    let plain = fault.response(alloc, b"".as_slice())?;
    match plain.status() {
        Status::BadInput => {
            let out = fault_out(alloc, form, fault)?;
            in_format(alloc, plain, form.format, out)
        }
        _ => Ok(plain),
    }
}

/// Returns the answer to the words of a call, of which the first is the program's name, once the
/// warnings are written to standard error. The threads of `rt` check a certificate.
pub(crate) fn respond<'a, R: Threads + Sync, S: AsStr, I: Inputs, E: Output>(
    rt: &R,
    alloc: Global,
    words: &'a [S],
    inputs: &mut I,
    err: &mut E,
) -> Result<Answer<'a>, AllocError>
    // Where each path of known bytes stands at its front.
    ensures value { IsFresh (I.whole inputs.old) (I.left inputs.old)
        → Tells (λ w. WarnsOn (map S.text words.now) (I.whole inputs.old) (I.failed inputs.old)
        (I.reads inputs.old) (I.reads inputs.new) w
        × IfOk result (Answers (map S.text words.now)
        (I.whole inputs.old) w (I.failed inputs.old) (I.failed inputs.new)))
        (sink (E.contents err.old) (E.failed err.old))
        (sink (E.contents err.new) (E.failed err.new)) }
    ensures status { IfOk result
        (IfEnds (IsHonest (I.failed inputs.new) (I.reads inputs.new))) }
    ensures turn { ReadsInTurn (map S.text words.now)
        (I.reads inputs.old) (I.reads inputs.new) }
{
    match parse_words(alloc, words) {
        Ok(request) => {
            let form = form_of(&request);
            match find_task(alloc, request, inputs, err) {
                Ok(task) => answer(rt, alloc, task),
                Err(fault) => Ok(Answer::Ends(answer_fault(alloc, form, &fault)?)),
            }
        }
        Err(UsageFault::Help(text)) => {
            Ok(Answer::Ends(Response::done(text.into_bytes(), Bytes::new(alloc))))
        }
        Err(UsageFault::Version) => Ok(Answer::Ends(Response::version(alloc)?)),
        Err(UsageFault::NoCall(text)) => {
            Ok(Answer::Ends(Response::no_call(alloc, text.into_bytes())))
        }
        Err(UsageFault::OutOfMemory) => Err(AllocError),
    }
}
