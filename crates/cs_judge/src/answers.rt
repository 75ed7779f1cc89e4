ghost use Rattle.std.specs.Prelude.{◌≡◌, ◌++◌, ℕ, List, IfOk, IfSome, OnOk};
ghost use Rattle.std.specs.List.{filter_map};
ghost use Rattle.cs_claims.specs.Certificate.{content};
ghost use Rattle.cs_check.specs.Checked.{certificate_in};
ghost use Rattle.cs_judge.specs.Answer.{IsAnswer, IsCertificate, IsMade, IsSafeMade};
ghost use Rattle.cs_judge.specs.Answer.{job_of, outcome_of, refusal_text, story_places, unknown_outcome};
ghost use Rattle.cs_judge.specs.Answer.{IsUnknownText, IsUnsafeText, IsVerdict, unknown_text};
ghost use Rattle.cs_judge.specs.Form.{IsJudgedBy};
ghost use Rattle.cs_judge.specs.Judged.{IfUnsafe, Shows};
ghost use Rattle.cs_theorem.specs.Told.{told};

use crate::judged::Judged;
use cs_cert::write_certificate;
use cs_check::Checked;
use cs_civil::Bytes;
use cs_claims::{Certificate, MAX_CERTIFICATE, least_text};
use cs_counterexample::{Shown, shown_text};
use cs_history::{Event, Script};
use cs_maker::Reason;
use cs_place::{Place, push_places_told};
use cs_plan::Plan;
use cs_report::{fault_text, script_text};
use cs_theorem::CheckFault;
use cs_verdict::{Breach, no_reach, push_comments, story};
use std::alloc::{AllocError, Global};

/// What is asked of a plan.
#[derive(Clone, Copy)]
pub enum Wanted {
    /// Whether it is safe.
    Verdict,
    /// A certificate that it is: version 1 or 2, which lists its windows, if a file can hold that.
    Certificate,
    /// A certificate of version 3, with only what the plan doesn't say.
    Compact,
}

/// The result for a plan.
#[derive(Clone, Copy)]
pub enum Outcome {
    /// The checker accepted a certificate.
    Safe,
    /// A counterexample was found.
    Unsafe,
    /// Neither was found, or no file can hold the certificate.
    Unknown,
    /// Unknown, since memory ran out.
    NoMemory,
}

fn unknown_outcome(reason: Reason) -> Outcome
    ensures { result ≡ unknown_outcome reason }
{
    match reason {
        Reason::NoMemory => Outcome::NoMemory,
        _ => Outcome::Unknown,
    }
}

#[tactic(auto, unfolding(crate::specs::Answer::unknown_text))]
fn unknown_text(alloc: Global, plan: &Plan, reason: Reason) -> Result<Vec<u8>, AllocError>
    ensures { IfOk result (λ text. IsUnknownText reason text.items) }
{
    let comments = match reason {
        Reason::NoReach => no_reach(alloc, plan)?,
        _ => Vec::new(alloc),
    };
    let mut text = Vec::from_slice(alloc, b"unknown: ".as_slice())?;
    text.extend_from_slice(reason.name().as_bytes())?;
    text.extend_from_slice(b"\n")?;
    push_comments(&mut text, comments.as_slice())?;
    Ok(text)
}

fn job_of(event: Event) -> Option<u16>
    ensures { result ≡ job_of event }
{
    match event {
        Event::Begin(job) | Event::Got(job, _) | Event::Catch(job) => Some(job),
        Event::End(run) => Some(run.job),
        Event::Minute(_) | Event::Down | Event::Up(_) => None,
    }
}

fn jobs_in(alloc: Global, events: &[Event]) -> Result<Vec<usize>, AllocError>
    ensures { IfOk result (λ jobs. jobs.items ≡ filter_map job_of events.now) }
{
    let mut jobs = Vec::new(alloc);
    for event in events {
        if let Some(job) = job_of(*event) {
            jobs.push(usize::from(job))?;
        }
    }
    Ok(jobs)
}

#[tactic(auto, unfolding(crate::specs::Answer::story_places))]
fn push_story_places(
    alloc: Global,
    text: &mut Vec<u8>,
    plan: &Plan,
    places: &[Place],
    script: &Script,
) -> Result<(), AllocError>
    ensures { OnOk result
        (text.new.items ≡ text.old.items ++ story_places plan.now places.now script.now) }
{
    let jobs = jobs_in(alloc, script.events.as_slice())?;
    let lines = plan.crontab().lines();
    push_places_told(
        alloc,
        text,
        b"# ".as_slice(),
        places,
        jobs.as_slice(),
        lines,
    )
}

#[tactic(auto, unfolding(crate::specs::Answer::unsafe_text))]
fn unsafe_text(
    alloc: Global,
    plan: &Plan,
    places: &[Place],
    script: &Script,
    shown: &Shown,
    breach: &Breach,
) -> Result<Vec<u8>, AllocError>
    requires { Shows plan.now script.now shown.now }
    ensures { IfOk result
        (λ text. IsUnsafeText plan.now places.now script.now shown.now text.items) }
{
    let story = story(alloc, plan, script, *shown, breach)?;
    let mut text = Vec::from_slice(alloc, shown_text(alloc, plan, shown)?.as_slice())?;
    text.extend_from_slice(b"\n")?;
    push_comments(&mut text, story.as_slice())?;
    push_story_places(alloc, &mut text, plan, places, script)?;
    text.extend_from_slice(script_text(alloc, plan, script)?.as_slice())?;
    Ok(text)
}

fn outcome_of(judged: &Judged) -> Outcome
    ensures { result ≡ outcome_of judged.now }
{
    match judged {
        Judged::Safe(_) => Outcome::Safe,
        Judged::Unsafe(_, _, _) => Outcome::Unsafe,
        Judged::Unknown(reason, _) => unknown_outcome(*reason),
    }
}

#[tactic(auto, unfolding(crate::specs::Answer::refusal_text))]
fn refused_text(
    alloc: Global,
    plan: &Plan,
    reason: Reason,
    refusal: &CheckFault,
) -> Result<Vec<u8>, AllocError>
    ensures { IfOk result (λ text. (comments : List (List ℕ)) × (text.items
        ≡ unknown_text reason comments ++ refusal_text plan.now (told refusal.now))) }
{
    let mut text = unknown_text(alloc, plan, reason)?;
    text.extend_from_slice(fault_text(alloc, plan, refusal)?.as_slice())?;
    text.extend_from_slice(b"\n")?;
    Ok(text)
}

fn verdict_text(
    alloc: Global,
    plan: &Plan,
    places: &[Place],
    judged: &Judged,
) -> Result<Vec<u8>, AllocError>
    requires { IfUnsafe judged.now (Shows plan.now) }
    ensures { IfOk result (λ text. IsVerdict plan.now places.now judged.now text.items) }
{
    match judged {
        Judged::Safe(_) => Vec::from_slice(alloc, b"safe\n".as_slice()),
        Judged::Unsafe(script, shown, breach) => {
            unsafe_text(alloc, plan, places, script, shown, breach)
        }
        Judged::Unknown(reason, None) => unknown_text(alloc, plan, *reason),
        Judged::Unknown(reason, Some(refusal)) => refused_text(alloc, plan, *reason, refusal),
    }
}

fn certificate_line(alloc: Global, certificate: &Certificate) -> Result<Option<Vec<u8>>, AllocError>
    ensures { IfOk result (λ line.
        IfSome line (λ text. IsCertificate (content certificate.now) text.items)) }
{
    if least_text(certificate) >= MAX_CERTIFICATE as u64 {
        return Ok(None);
    }
    let mut text = write_certificate(alloc, certificate)?;
    if text.len() >= MAX_CERTIFICATE {
        return Ok(None);
    }
    text.push(b'\n')?;
    Ok(Some(text))
}

fn safe_made(
    alloc: Global,
    plan: &Plan,
    checked: &Checked,
) -> Result<(Outcome, Vec<u8>), AllocError>
    ensures { IfOk result (λ told.
        IsSafeMade (certificate_in checked.now) told.0 told.1.items) }
{
    match certificate_line(alloc, checked.certificate())? {
        Some(text) => Ok((Outcome::Safe, text)),
        None => Ok((
            Outcome::Unknown,
            unknown_text(alloc, plan, Reason::LeafTooLong)?,
        )),
    }
}

fn made(
    alloc: Global,
    plan: &Plan,
    places: &[Place],
    judged: &Judged,
) -> Result<(Outcome, Vec<u8>), AllocError>
    requires { IfUnsafe judged.now (Shows plan.now) }
    ensures { IfOk result (λ told. IsMade plan.now places.now judged.now told.0 told.1.items) }
{
    match judged {
        Judged::Safe(checked) => safe_made(alloc, plan, checked),
        Judged::Unsafe(script, shown, breach) => {
            Ok((
                Outcome::Unsafe,
                unsafe_text(alloc, plan, places, script, shown, breach)?,
            ))
        }
        Judged::Unknown(reason, _) => {
            Ok((
                unknown_outcome(*reason),
                unknown_text(alloc, plan, *reason)?,
            ))
        }
    }
}

/// Returns the outcome of a judged plan, and what is printed for it. The only error is out of
/// memory.
///
/// A verdict is `safe`; or what a history breaks first, and its script; or `unknown: REASON` and,
/// if the checker refused a certificate, a line for that refusal. Comments between the first line
/// and the script have the story of what is broken, and the place of each line of the crontab that
/// the script names and that has one. Comments follow `unknown: NoReach`. If a certificate is asked
/// for, the accepted one replaces `safe`, and no refusal follows `unknown`; a certificate over 16
/// MiB is `unknown: LeafTooLong`.
pub fn answer(
    alloc: Global,
    plan: &Plan,
    places: &[Place],
    wanted: Wanted,
    judged: &Judged,
) -> Result<(Outcome, Vec<u8>), AllocError>
    requires shown { IfUnsafe judged.now (Shows plan.now) }
    requires form { IsJudgedBy wanted judged.now }
    ensures { IfOk result
        (λ told. IsAnswer wanted plan.now places.now judged.now told.0 told.1.items) }
{
    match wanted {
        Wanted::Verdict => Ok((
            outcome_of(judged),
            verdict_text(alloc, plan, places, judged)?,
        )),
        Wanted::Certificate | Wanted::Compact => made(alloc, plan, places, judged),
    }
}
