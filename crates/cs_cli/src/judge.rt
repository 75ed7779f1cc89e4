//! The subcommands `judge` and `make`.
ghost use Rattle.std.specs.Prelude.{◌≡◌, ◌++◌, ℕ, IfOk, List};
ghost use Rattle.cs_report.specs.Warning.{plan_notes};
ghost use Rattle.cs_cli.specs.Judge.{AreRefusalNotes, IsJudged, outcome_status, wanted_of};
ghost use Rattle.cs_files.specs.Response.{status_of};
ghost use Rattle.cs_findings.specs.Format.{IsIn};
ghost use Rattle.cs_judge.specs.Form.{IsJudgedBy};
ghost use Rattle.cs_judge.specs.Judged.{IfUnsafe, IsJudgement, Shows};
ghost use Rattle.cs_judge.specs.declared.answers.Wanted.TheVariants.{Verdict};

use crate::findings::verdict_findings;
use cs_args::{Format, JudgeWords};
use cs_civil::Bytes;
use cs_files::{Planned, Response, Status};
use cs_findings::{TableStatus, in_format, written};
use cs_judge::{Judged, Outcome, Wanted, answer, judge};
use cs_place::Place;
use cs_plan::Plan;
use cs_report::plan_notes;
use cs_ruling::{fault_takers, push_fault_places};
use std::alloc::{AllocError, Global};
use std::thread::Threads;

fn status_for(outcome: Outcome) -> Status
    ensures { status_of result ≡ outcome_status outcome }
{
    match outcome {
        Outcome::Safe => Status::Done,
        Outcome::Unsafe => Status::Refused,
        Outcome::Unknown => Status::Unknown,
        Outcome::NoMemory => Status::NoMemory,
    }
}

fn refusal_notes(
    alloc: Global,
    plan: &Plan,
    places: &[Place],
    judged: &Judged,
) -> Result<Vec<u8>, AllocError>
    ensures { IfOk result (λ notes. AreRefusalNotes plan.now places.now judged.now notes.items) }
{
    let mut notes = Vec::new(alloc);
    if let Judged::Unknown(_, Some(refusal)) = judged {
        push_fault_places(alloc, &mut notes, plan, places, refusal)?;
        notes.extend_from_slice(fault_takers(alloc, plan, refusal)?.as_slice())?;
    }
    Ok(notes)
}

fn judged_notes(
    alloc: Global,
    plan: &Plan,
    places: &[Place],
    judged: &Judged,
) -> Result<Bytes, AllocError>
    ensures { IfOk result (λ notes. (more : List ℕ)
        × AreRefusalNotes plan.now places.now judged.now more
        × (notes ≡ plan_notes plan.now ++ more)) }
{
    let mut notes = plan_notes(alloc, plan)?.into_vec();
    notes.extend_from_slice(refusal_notes(alloc, plan, places, judged)?.as_slice())?;
    Ok(Bytes::from_vec(notes))
}

/// The answer on a plan that was judged: a verdict, or what `make` prints.
pub fn judged_response(
    alloc: Global,
    plan: &Plan,
    places: &[Place],
    wanted: Wanted,
    judged: &Judged,
) -> Result<Response, AllocError>
    requires known { IsJudgement plan.now judged.now }
    requires form { IsJudgedBy wanted judged.now }
    ensures { IfOk result (IsJudged wanted plan.now places.now) }
{
    let notes = judged_notes(alloc, plan, places, judged)?;
    let (outcome, text) = answer(alloc, plan, places, wanted, judged)?;
    Ok(Response::told(status_for(outcome), text, notes))
}

/// Answers what is asked of a plan: a verdict, or what `make` prints.
pub fn answer_judge<R: Threads + Sync>(
    rt: &R,
    alloc: Global,
    planned: &Planned,
    wanted: Wanted,
) -> Result<Response, AllocError>
    ensures { IfOk result (IsJudged wanted planned.now.plan planned.now.places) }
{
    let (plan, places) = (&planned.plan, planned.places.as_slice());
    let judged = judge(rt, alloc, plan, wanted);
    judged_response(alloc, plan, places, wanted, &judged)
}

/// The word of a verdict.
pub fn verdict_word(judged: &Judged) -> &'static str {
    match judged {
        Judged::Safe(_) => "safe",
        Judged::Unsafe(_, _, _) => "unsafe",
        Judged::Unknown(_, _) => "unknown",
    }
}

/// The findings of a judged plan in the format that is asked for; empty as text, and if memory ran
/// out.
fn judged_out(
    alloc: Global,
    words: &JudgeWords<'_>,
    planned: &Planned,
    judged: &Judged,
    status: Status,
) -> Result<Vec<u8>, AllocError>
    requires { IfUnsafe judged.now (Shows planned.now.plan) }
{
    if matches!(words.format, Format::Text) || matches!(status, Status::NoMemory) {
        return Ok(Vec::new(alloc));
    }
    let (plan, places) = (&planned.plan, planned.places.as_slice());
    let findings = verdict_findings(alloc, words, plan, places, judged)?;
    let table = TableStatus {
        table: words.table,
        status: status.code(),
        verdict: Some(verdict_word(judged)),
    };
    written(alloc, words.format, findings.as_slice(), &[table])
}

/// Answers `judge` in the format that is asked for: the findings are those of the plan that was
/// judged once.
pub fn judge_in_format<R: Threads + Sync>(
    rt: &R,
    alloc: Global,
    words: &JudgeWords<'_>,
    planned: &Planned,
) -> Result<Response, AllocError>
    ensures { IfOk result (IsIn words.now.format
        (IsJudged Verdict planned.now.plan planned.now.places)) }
{
    let (plan, places) = (&planned.plan, planned.places.as_slice());
    let judged = judge(rt, alloc, plan, Wanted::Verdict);
    let plain = judged_response(alloc, plan, places, Wanted::Verdict, &judged)?;
    let out = judged_out(alloc, words, planned, &judged, plain.status())?;
    in_format(alloc, plain, words.format, out)
}

/// Returns what `make` prints of a plan that is safe.
pub fn wanted_of(compact: bool) -> Wanted
    ensures { result ≡ wanted_of compact }
{
    if compact {
        Wanted::Compact
    } else {
        Wanted::Certificate
    }
}
