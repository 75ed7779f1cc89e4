//! What is told of each path, by the judgement, the check or the lint of its table.
ghost use Rattle.std.specs.Prelude.{◌≡◌, IfOk, IfSome, option_map};
ghost use Rattle.cs_claims.specs.Certificate.{content};
ghost use Rattle.cs_files.specs.Response.{status_of};
ghost use Rattle.cs_files.specs.Trouble.{trouble, trouble_status};
ghost use Rattle.cs_judge.specs.Form.{IsJudgedBy};
ghost use Rattle.cs_judge.specs.Judged.{IsJudgement};
ghost use Rattle.cs_judge.specs.declared.answers.Wanted.TheVariants.{Verdict};
ghost use Rattle.cs_lint.specs.Refused.{Judges};
ghost use Rattle.cs_all.specs.Answer.{IsJudgedAs, IsRuled, IsRuledAs, IsTold};

use crate::below::Found;
use crate::reading::{Content, Read, path_in};
use crate::told::Told;
use cs_args::{AllWords, Format, JudgeWords};
use cs_cert::read_certificate;
use cs_claims::{CertError, CertFault, Certificate};
use cs_cli::{judged_response, refusal_finding, verdict_findings, verdict_word};
use cs_diagnostics::{Level, Told as ToldFinding};
use cs_files::{Fault, Planned, Response, Status};
use cs_findings::{Finding, findings_of_fault};
use cs_judge::{Judged, Wanted, judge};
use cs_lint::{Asked, Linted, Texts, Wanted as WantedNames, lint_texts};
use cs_place::push_shown;
use cs_ruling::answer_check;
use cs_theorem::CheckFault;
use std::alloc::{AllocError, Global};
use std::thread::Threads;

/// Where what is told comes from.
#[derive(Clone, Copy)]
pub(crate) struct Origin<'a> {
    pub(crate) found: &'a Found,
    pub(crate) warnings: &'a [u8],
    pub(crate) format: Format,
}

impl<'a> Origin<'a> {
    fn path(self) -> &'a str {
        self.found.path.as_str()
    }

    fn words(self) -> JudgeWords<'a> {
        JudgeWords {
            table: self.path(),
            declarations: path_in(&self.found.declarations).unwrap_or(""),
            anacrontab: path_in(&self.found.anacrontab),
            format: self.format,
        }
    }

    fn certificate(self) -> &'a str {
        path_in(&self.found.certificate).unwrap_or(self.path())
    }

    /// What is told where nothing is written yet.
    fn told(self, alloc: Global, status: Status, word: &'static str) -> Told<'a>
        ensures { result.status ≡ status }
    {
        Told {
            path: self.path(),
            status,
            word: Some(word),
            verdict: None,
            out: Vec::new(alloc),
            warnings: self.warnings,
            err: Vec::new(alloc),
            findings: Vec::new(alloc),
        }
    }
}

fn judged_told<'a>(
    alloc: Global,
    origin: Origin<'a>,
    planned: &Planned,
    judged: &Judged,
) -> Result<Told<'a>, AllocError>
    requires known { IsJudgement planned.now.plan judged.now }
    requires form { IsJudgedBy Verdict judged.now }
    ensures { IfOk result (λ told. IsJudgedAs planned.now.plan (status_of told.status)) }
{
    let (plan, places) = (&planned.plan, planned.places.as_slice());
    let answer = judged_response(alloc, plan, places, Wanted::Verdict, judged)?;
    let (status, word) = (answer.status(), verdict_word(judged));
    let mut told = origin.told(alloc, status, word);
    told.verdict = Some(word);
    told.err = Vec::from_slice(alloc, answer.err())?;
    match (origin.format, status) {
        (Format::Text, Status::Done) => {}
        (Format::Text, _) => told.out = Vec::from_slice(alloc, answer.out())?,
        (_, Status::NoMemory) => {}
        _ => told.findings = verdict_findings(alloc, &origin.words(), plan, places, judged)?,
    }
    Ok(told)
}

fn plan_told<'a, R: Threads + Sync>(
    rt: &R,
    alloc: Global,
    origin: Origin<'a>,
    planned: &Planned,
) -> Result<Told<'a>, AllocError>
    ensures { IfOk result (λ told. IsJudgedAs planned.now.plan (status_of told.status)) }
{
    let judged = judge(rt, alloc, &planned.plan, Wanted::Verdict);
    let told = judged_told(alloc, origin, planned, &judged);
    drop(judged);
    told
}

fn refusal_told<'a>(
    alloc: Global,
    origin: Origin<'a>,
    planned: &Planned,
    answer: &Response,
    fault: &CheckFault,
) -> Result<Told<'a>, AllocError>
    ensures { IfOk result (λ told. status_of told.status ≡ 1) }
{
    let (plan, places) = (&planned.plan, planned.places.as_slice());
    let mut told = origin.told(alloc, Status::Refused, "refused");
    told.verdict = Some("refused");
    told.err = Vec::from_slice(alloc, answer.err())?;
    if origin.format == Format::Text {
        told.out = Vec::from_slice(alloc, answer.out())?;
    } else {
        told.findings.push(refusal_finding(alloc, &origin.words(), plan, places, fault)?)?;
    }
    Ok(told)
}

fn accepted_told<'a>(
    alloc: Global,
    origin: Origin<'a>,
    answer: &Response,
) -> Result<Told<'a>, AllocError>
    ensures { IfOk result (λ told. status_of told.status ≡ 0) }
{
    let mut told = origin.told(alloc, Status::Done, "safe");
    told.verdict = Some("safe");
    told.err = Vec::from_slice(alloc, answer.err())?;
    Ok(told)
}

fn ruling_told<'a, R: Threads + Sync>(
    rt: &R,
    alloc: Global,
    origin: Origin<'a>,
    planned: &Planned,
    certificate: Certificate,
) -> Result<Told<'a>, AllocError>
    ensures { IfOk result
        (λ told. IsRuled planned.now.plan (content certificate) (status_of told.status)) }
{
    let (answer, fault) = answer_check(rt, alloc, planned, certificate)?;
    match fault {
        Some(fault) => refusal_told(alloc, origin, planned, &answer, &fault),
        None => accepted_told(alloc, origin, &answer),
    }
}

/// The text of the certificate holds this fault.
fn unclaimed_told<'a>(
    alloc: Global,
    origin: Origin<'a>,
    fault: CertFault,
) -> Result<Told<'a>, AllocError>
    ensures { IfOk result (λ told. status_of told.status ≡ 3) }
{
    let mut told = origin.told(alloc, Status::BadInput, "fault");
    let answer = Fault::Certificate(CertError::Fault(fault)).response(alloc, b"".as_slice())?;
    told.err = Vec::from_slice(alloc, answer.err())?;
    told.findings = whole(alloc, origin.certificate(), Level::Error, fault.text())?;
    Ok(told)
}

fn claim_told<'a, R: Threads + Sync>(
    rt: &R,
    alloc: Global,
    origin: Origin<'a>,
    planned: &Planned,
    text: &[u8],
) -> Result<Told<'a>, AllocError>
    ensures { IfOk result
        (λ told. IsRuledAs planned.now.plan text.now (status_of told.status)) }
{
    match read_certificate(alloc, text) {
        Ok(certificate) => ruling_told(rt, alloc, origin, planned, certificate),
        Err(CertError::Fault(fault)) => unclaimed_told(alloc, origin, fault),
        Err(CertError::OutOfMemory) => Err(AllocError),
    }
}

fn lines_told<'a>(
    alloc: Global,
    origin: Origin<'a>,
    request: &AllWords<'_>,
    texts: &Texts,
) -> Result<Told<'a>, AllocError>
    ensures { IfOk result (λ told. Judges (status_of told.status) texts.now.table.items
        (option_map (λ v. v.items) texts.now.jobs)
        (option_map (λ v. v.items) texts.now.declarations)) }
{
    let asked = Asked {
        table: origin.path(),
        declarations: path_in(&origin.found.declarations),
        anacrontab: path_in(&origin.found.anacrontab),
        wanted: WantedNames {
            only: request.only.as_slice(),
            except: request.except.as_slice(),
            faults_only: request.faults_only,
        },
        format: request.format,
    };
    let Linted {
        status,
        text,
        findings,
    } = lint_texts(alloc, asked, texts)?;
    let word = match status {
        Status::BadInput => "fault",
        Status::Refused => "odd",
        _ => "nothing found",
    };
    let mut told = origin.told(alloc, status, word);
    told.out = text;
    told.findings = findings;
    Ok(told)
}

fn fault_told<'a>(
    alloc: Global,
    origin: Origin<'a>,
    fault: &'a Fault<'_>,
) -> Result<Told<'a>, AllocError>
    ensures { IfOk result (λ told. IfSome (trouble fault.now)
        (λ t. status_of told.status ≡ trouble_status t)) }
{
    let answer = fault.response(alloc, b"".as_slice())?;
    let word = match answer.status() {
        Status::DeviceFailed => "can't be read",
        _ => "fault",
    };
    let mut told = origin.told(alloc, answer.status(), word);
    told.err = Vec::from_slice(alloc, answer.err())?;
    told.findings = findings_of_fault(alloc, fault, origin.certificate())?;
    Ok(told)
}

/// A finding in a whole file, whose rule begins the words.
fn whole<'a>(
    alloc: Global,
    path: &'a str,
    level: Level,
    words: &str,
) -> Result<Vec<Finding<'a>>, AllocError> {
    let told = ToldFinding {
        line: 0,
        column: 1,
        end: 1,
        level,
        words: String::from_str(alloc, words)?,
        text: Vec::new(alloc),
    };
    let mut findings = Vec::new(alloc);
    findings.push(Finding::of(alloc, path, &told)?)?;
    Ok(findings)
}

const UNDECLARED: &str = "NoDeclarations: the table has no declarations: add NAME.json beside it";

const STRAY: &str = "NoTable: its table NAME.cron isn't beside it";

const BARE: &str = "NoTable: no table NAME.cron is below this folder";

/// What is told by these words, which name no file.
fn words_told<'a>(
    alloc: Global,
    origin: Origin<'a>,
    status: Status,
    words: &str,
) -> Result<Told<'a>, AllocError>
    ensures { IfOk result (λ told. told.status ≡ status) }
{
    let (front, level) = match status {
        Status::Done => ("warning: ", Level::Warning),
        _ => ("cronsafe: ", Level::Error),
    };
    let mut told = origin.told(alloc, status, "fault");
    told.err.extend_from_slice(front.as_bytes())?;
    push_shown(&mut told.err, origin.path().as_bytes())?;
    told.err.extend_from_slice(b": ")?;
    told.err.extend_from_slice(words.as_bytes())?;
    told.err.push(b'\n')?;
    told.findings = whole(alloc, origin.path(), level, words)?;
    Ok(told)
}

/// The same without a line.
fn aside_told<'a>(
    alloc: Global,
    origin: Origin<'a>,
    status: Status,
    words: &str,
) -> Result<Told<'a>, AllocError>
    ensures { IfOk result (λ told. told.status ≡ status) }
{
    let mut told = words_told(alloc, origin, status, words)?;
    told.word = None;
    Ok(told)
}

/// What is told of a path; `request` is for a lint. The only error is out of memory.
pub(crate) fn told_of<'a, R: Threads + Sync>(
    rt: &R,
    alloc: Global,
    request: &AllWords<'_>,
    read: &'a Read<'_>,
) -> Result<Told<'a>, AllocError>
    ensures { IfOk result (λ told. IsTold read.now.content told.status) }
{
    let origin = Origin {
        found: read.found(),
        warnings: read.warnings.as_slice(),
        format: request.format,
    };
    match &read.content {
        Content::Plan(planned) => plan_told(rt, alloc, origin, planned),
        Content::Claim(planned, text) => { claim_told(rt, alloc, origin, planned, text.as_slice()) }
        Content::Lines(texts) => lines_told(alloc, origin, request, texts),
        Content::Fault(fault) => fault_told(alloc, origin, fault),
        Content::Undeclared => words_told(alloc, origin, Status::BadInput, UNDECLARED),
        Content::Stray => aside_told(alloc, origin, Status::Done, STRAY),
        Content::Bare => aside_told(alloc, origin, Status::BadInput, BARE),
    }
}
