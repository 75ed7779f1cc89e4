//! The subcommands `room` and `advise`.
ghost use Rattle.std.specs.Prelude.{◌≡◌, ◌≢◌, ◌≤◌, IfOk, IfSome, length};
ghost use Rattle.cs_files.specs.Response.{status_of};
ghost use Rattle.cs_findings.specs.Format.{IsIn};
ghost use Rattle.cs_counterexample.specs.Shown.{IsTellable};
ghost use Rattle.cs_plan.specs.Plan.{as_plan};
ghost use Rattle.cs_judge.specs.Judged.{IsJudgement};
ghost use Rattle.cs_advise.specs.Advice.{IsAdvice};
ghost use Rattle.cs_advise.specs.Answer.{IsAdvised, IsAdvisedOf, IsBrokenText, IsPrinted, IsTold};
ghost use Rattle.cs_advise.specs.Answer.{head_of};

use crate::advice::{Advice, told_changes};
use crate::breach::jobs_of;
use crate::findings::{Said, told_findings};
use crate::places::{changed_places, shown_places};
use crate::rooms::rooms_text;
use crate::search::Search;
use crate::source::Source;
use cs_args::{Format, JudgeWords};
use cs_civil::Bytes;
use cs_cli::{verdict_findings, verdict_word};
use cs_counterexample::{Shown, shown_text};
use cs_files::{Planned, Response, Status};
use cs_findings::{TableStatus, in_format, written};
use cs_judge::{Judged, Outcome, Wanted, answer, judge};
use cs_place::Place;
use cs_plan::Plan;
use cs_report::plan_notes;
use cs_verdict::{Breach, push_broken};
use std::alloc::{AllocError, Global};
use std::thread::Threads;

/// A question about a plan.
#[derive(Clone, Copy)]
pub enum Question {
    /// How long the runs of each job may take.
    Rooms,
    /// Which changes make it safe: the most minutes by which a start is shifted, and how many
    /// changes are enough, if it matters.
    Advice(u64, Option<u64>),
}

#[derive(Drop)]
struct Reply {
    status: Status,
    text: Vec<u8>,
    /// For standard error.
    notes: Vec<u8>,
    /// Of what the lines of the text are.
    said: Said,
}

fn broken_text(
    alloc: Global,
    plan: &Plan,
    question: Question,
    broken: (&Shown, &Breach),
) -> Result<Vec<u8>, AllocError>
    requires { IsTellable (as_plan plan.now) broken.0.now }
    ensures { IfOk result (λ text. IsBrokenText question plan.now broken.entry.0.now text.items) }
{
    let mut text = shown_text(alloc, plan, broken.0)?.into_vec();
    text.extend_from_slice(b"\n")?;
    if let Question::Advice(_, _) = question {
        push_broken(alloc, &mut text, plan, *broken.0, broken.1.minute)?;
    }
    Ok(text)
}

fn advice_on<R: Threads + Sync>(
    rt: &R,
    alloc: Global,
    source: &Source,
    plan: &Plan,
    broken: (&Shown, &Breach),
    within: u64,
    first: Option<u64>,
) -> Result<Advice, AllocError>
    ensures advice { IfOk result
        (λ advice. IsAdvice source.now plan.now advice.changes.items advice.text.items) }
    ensures few { IfOk result
        (λ advice. IfSome first (λ n. length advice.changes.items ≤ n)) }
{
    let most = match first {
        Some(first) => first as usize,
        None => usize::MAX,
    };
    let jobs = jobs_of(alloc, plan, broken.0, broken.1)?;
    let search = Search {
        rt,
        alloc,
        source,
        plan,
        most,
    };
    let mut changes = Vec::new(alloc);
    search.add_changes(&mut changes, jobs.as_slice(), within)?;
    told_changes(rt, alloc, source, plan, changes, most)
}

/// The changes that make the plan safe; or the first breach, where none was found or asked for.
fn told<R: Threads + Sync>(
    rt: &R,
    alloc: Global,
    source: &Source,
    plan: &Plan,
    places: &[Place],
    question: Question,
    broken: (&Shown, &Breach),
) -> Result<Reply, AllocError>
    requires { IsTellable (as_plan plan.now) broken.0.now }
    ensures { IfOk result (λ told. IsTold question source.now plan.now broken.entry.0.now
        (status_of told.status) told.text.items) }
{
    if let Question::Advice(within, first) = question {
        let advice = advice_on(rt, alloc, source, plan, broken, within, first)?;
        if !advice.changes.is_empty() {
            let notes = changed_places(alloc, plan, places, advice.changes.as_slice())?;
            return Ok(Reply {
                status: Status::Done,
                text: advice.text,
                notes,
                said: Said::Changes(advice.changes),
            });
        }
    }
    let notes = shown_places(alloc, plan, places, broken.0)?;
    let text = broken_text(alloc, plan, question, broken)?;
    Ok(Reply {
        status: Status::Refused,
        text,
        notes,
        said: Said::Verdict,
    })
}

fn head_of(question: Question) -> &'static [u8]
    ensures { result.now ≡ head_of question }
{
    match question {
        Question::Rooms => b"",
        Question::Advice(_, _) => b"safe\n",
    }
}

fn printed<R: Threads + Sync>(
    rt: &R,
    alloc: Global,
    source: &Source,
    plan: &Plan,
    places: &[Place],
    question: Question,
    judged: &Judged,
) -> Result<Reply, AllocError>
    requires { IsJudgement plan.now judged.now }
    ensures { IfOk result (λ told. IsPrinted question source.now plan.now judged.now
        (status_of told.status) told.text.items) }
{
    let notes = Vec::new(alloc);
    match judged {
        Judged::Safe(_) => {
            let (text, jobs) = rooms_text(rt, alloc, plan, head_of(question))?;
            Ok(Reply {
                status: Status::Done,
                text,
                notes,
                said: Said::Rooms(jobs),
            })
        }
        Judged::Unsafe(_, shown, breach) => {
            told(rt, alloc, source, plan, places, question, (shown, breach))
        }
        Judged::Unknown(_, _) => {
            let (outcome, text) = answer(alloc, plan, places, Wanted::Verdict, judged)?;
            let status = match outcome {
                Outcome::NoMemory => Status::NoMemory,
                Outcome::Safe | Outcome::Unsafe | Outcome::Unknown => Status::Unknown,
            };
            Ok(Reply {
                status,
                text,
                notes,
                said: Said::Verdict,
            })
        }
    }
}

/// What the reply says, in the form that the words ask for; nothing as text, and if memory ran out.
fn in_form(
    alloc: Global,
    words: &JudgeWords<'_>,
    source: &Source,
    planned: (&Plan, &[Place]),
    judged: &Judged,
    reply: &Reply,
) -> Result<Vec<u8>, AllocError>
    requires { IsJudgement planned.0.now judged.now }
{
    if words.format == Format::Text || reply.status == Status::NoMemory {
        return Ok(Vec::new(alloc));
    }
    let (plan, places) = planned;
    let findings = match &reply.said {
        Said::Verdict => verdict_findings(alloc, words, plan, places, judged)?,
        said => told_findings(alloc, words, source, plan, said, reply.text.as_slice())?,
    };
    let tables = [TableStatus {
        table: words.table,
        status: reply.status.code(),
        verdict: Some(verdict_word(judged)),
    }];
    written(alloc, words.format, findings.as_slice(), tables.as_slice())
}

fn advised_on<R: Threads + Sync>(
    rt: &R,
    alloc: Global,
    words: &JudgeWords<'_>,
    source: &Source,
    planned: (&Plan, &[Place]),
    question: Question,
    judged: &Judged,
) -> Result<Response, AllocError>
    requires { IsJudgement planned.0.now judged.now }
    ensures { IfOk result (IsIn words.now.format
        (IsAdvised question source.now planned.entry.0.now)) }
{
    let (plan, places) = planned;
    let mut notes = plan_notes(alloc, plan)?.into_vec();
    let reply = printed(rt, alloc, source, plan, places, question, judged)?;
    notes.extend_from_slice(reply.notes.as_slice())?;
    let out = in_form(alloc, words, source, planned, judged, &reply)?;
    let plain = Response::told(reply.status, reply.text, Bytes::from_vec(notes));
    in_format(alloc, plain, words.format, out)
}

fn advised<R: Threads + Sync>(
    rt: &R,
    alloc: Global,
    words: &JudgeWords<'_>,
    source: &Source,
    planned: (&Plan, &[Place]),
    question: Question,
) -> Result<Response, AllocError>
    ensures { IfOk result (IsIn words.now.format
        (IsAdvised question source.now planned.entry.0.now)) }
{
    let judged = judge(rt, alloc, planned.0, Wanted::Verdict);
    let answer = advised_on(rt, alloc, words, source, planned, question, &judged);
    drop(judged);
    answer
}

/// Answers `room TABLE DECLS [--anacrontab FILE] [--format FORMAT]` or `advise TABLE DECLS
/// [--anacrontab FILE] [--within MINUTES] [--first N] [--format FORMAT]`. The only error is out of
/// memory.
pub fn answer_advise<R: Threads + Sync>(
    rt: &R,
    alloc: Global,
    words: &JudgeWords<'_>,
    planned: Planned,
    question: Question,
) -> Result<Response, AllocError>
    ensures advised { IfOk result (IsIn words.now.format (IsAdvisedOf question planned)) }
    ensures done { IfOk result (λ r. r.status ≢ 6) }
{
    let Planned {
        plan,
        places,
        table,
        declarations,
    } = planned;
    let source = Source {
        table,
        declarations,
    };
    advised(
        rt,
        alloc,
        words,
        &source,
        (&plan, places.as_slice()),
        question,
    )
}
