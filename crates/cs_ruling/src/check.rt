//! The subcommand `check`.
ghost use denote.Param.Send.{IsSync};
ghost use Rattle.std.specs.Prelude.{◌≡◌, ◌↔◌, ◌++◌, ℕ, IfErr, IfOk, IsTrue, List, None, OnOk, Some};
ghost use Rattle.std.specs.Prelude.{⊤, option_map};
ghost use Rattle.cs_check.specs.Checked.{Tells as TellsFault, certificate_in, plan_in};
ghost use Rattle.cs_claims.specs.Certificate.{content};
ghost use Rattle.cs_check.specs.Case.{fault_of};
ghost use Rattle.cs_theorem.specs.Told.{told};
ghost use Rattle.cs_report.specs.Warning.{plan_notes};
ghost use Rattle.cs_args.specs.Asked.{asked_check};
ghost use Rattle.cs_io.specs.Files.{AreReadInTurn, IsFresh, IsReadAlone};
ghost use Rattle.cs_ruling.specs.Check.{AreOfTexts, FindsClaimed, IsDigestOf, IsVerdict};
ghost use Rattle.cs_ruling.specs.Check.{ReadsCertificate, answer_of, fault_places, refusal_of};
ghost use Rattle.cs_ruling.specs.Check.{safe_text, said};
ghost use Rattle.cs_ruling.specs.Check.{stale_note};
ghost use Rattle.cs_ruling.specs.Safe.{IsReplyOn, IsSafe};
ghost use Rattle.cs_files.specs.Asked.{Tells, Warns};
ghost use Rattle.cs_files.specs.Ending.{sink};
ghost use Rattle.cs_files.specs.Reads.{MeansIt, without_rest};
ghost use Rattle.cs_files.specs.Response.{done};
ghost use Rattle.cs_files.specs.Trouble.{CameTo, InCertificate, IsHonestOf, IsOfContent};
ghost use Rattle.cs_files.specs.Turn.{check_paths};
ghost use Rattle.cs_cert.specs.Denoted.{certificate_by};
ghost use Rattle.sha2.specs.Sha256.{sha256};

use crate::overload::overload_notes;
use crate::places::{fault_takers, push_fault_places, push_stale_note};
use cs_args::CheckWords;
use cs_cert::read_certificate;
use cs_check::{CheckError, Checked, check, check_parallel};
use cs_civil::Bytes;
use cs_claims::{Certificate, JobReach, MAX_CERTIFICATE};
use cs_classes::{OneThread, SeveralThreads};
use cs_files::{Fault, Planned, Response, bytes_at, find_plan};
use cs_io::{Inputs, Output};
use cs_place::Place;
use cs_plan::Plan;
use cs_report::{fault_text, plan_notes};
use cs_theorem::CheckFault;
use sha2::{Digest, Sha256};
use std::alloc::{AllocError, Global};
use std::thread::Threads;

/// The SHA-256 (FIPS 180-4) of the bytes of each of these files, as they were read.
#[derive(Drop)]
pub struct Digests {
    /// The crontab's.
    pub table: [u8; 32],
    /// The declarations'.
    pub declarations: [u8; 32],
    /// The certificate's.
    pub certificate: [u8; 32],
}

impl Digests {
    /// Whether they are those of these texts.
    pub fn are_of(&self, table: &[u8], declarations: &[u8], certificate: &[u8]) -> bool
        ensures { IsTrue result ↔ AreOfTexts self.now table.now declarations.now certificate.now }
    {
        self.table == Sha256::digest(table)
            && self.declarations == Sha256::digest(declarations)
            && self.certificate == Sha256::digest(certificate)
    }
}

fn certificate_in<'a>(alloc: Global, bytes: &[u8]) -> Result<(Certificate, [u8; 32]), Fault<'a>>
    ensures value { MeansIt (λ bytes c. certificate_by bytes ≡ c) InCertificate bytes.now
        (said (without_rest result)) }
    ensures digest { IfOk result (λ found. found.1 ≡ sha256 bytes.now) }
    ensures status { IfErr result IsOfContent }
{
    match read_certificate(alloc, bytes) {
        Ok(certificate) => Ok((certificate, Sha256::digest(bytes))),
        Err(error) => Err(Fault::Certificate(error)),
    }
}

fn certificate_from<'a, I: Inputs>(
    alloc: Global,
    inputs: &mut I,
    path: &'a str,
) -> Result<(Certificate, [u8; 32]), Fault<'a>>
    ensures step { IsFresh (I.whole inputs.old) (I.left inputs.old)
        → CameTo (ReadsCertificate (I.whole inputs.old) path.now
        (I.failed inputs.old) (I.failed inputs.new)) (said (without_rest result)) }
    ensures digest { IsFresh (I.whole inputs.old) (I.left inputs.old)
        → IfOk result (λ found. IsDigestOf (I.whole inputs.old) path.now (content found.0)
        found.1) }
    ensures works { OnOk result (I.failed inputs.new ≡ I.failed inputs.old) }
    ensures alone { IsReadAlone path.now (I.reads inputs.old) (I.reads inputs.new) }
    ensures status { IfErr result (IsHonestOf (I.failed inputs.new) (I.reads inputs.new)) }
{
    let bytes = bytes_at(alloc, inputs, path, MAX_CERTIFICATE as u32)?;
    certificate_in(alloc, bytes.as_slice())
}

fn refusal_notes(
    alloc: Global,
    plan: &Plan,
    places: &[Place],
    reach: &[JobReach],
    fault: &CheckFault,
) -> Result<Bytes, AllocError>
    ensures { IfOk result (λ notes. (more : List ℕ) × (notes ≡ plan_notes plan.now
        ++ (fault_places plan.now places.now (told fault.now)
        ++ (more ++ stale_note (told fault.now))))) }
{
    let mut more = fault_takers(alloc, plan, fault)?;
    more.extend_from_slice(overload_notes(alloc, plan, reach, fault)?.as_slice())?;
    let mut notes = plan_notes(alloc, plan)?.into_vec();
    push_fault_places(alloc, &mut notes, plan, places, fault)?;
    notes.extend_from_slice(more.as_slice())?;
    push_stale_note(&mut notes, fault)?;
    Ok(Bytes::from_vec(notes))
}

#[tactic(auto, unfolding(crate::specs::Check::verdict_text))]
fn refusal(
    alloc: Global,
    plan: &Plan,
    places: &[Place],
    reach: &[JobReach],
    fault: &CheckFault,
) -> Result<Response, AllocError>
    ensures { IfOk result (IsVerdict plan.now places.now (Some (told fault.now))) }
{
    let mut text = Vec::from_slice(alloc, fault_text(alloc, plan, fault)?.as_slice())?;
    text.extend_from_slice(b"\n")?;
    let notes = refusal_notes(alloc, plan, places, reach, fault)?;
    Ok(Response::refused(text, notes))
}

/// Checks certificates, in one thread or in several.
pub(crate) trait Checker {
    // Holds where it may work.
    ghost can_check: { Self → Type 0 };

    fn check(
        &self,
        alloc: Global,
        plan: &Plan,
        certificate: Certificate,
    ) -> Result<Checked, CheckError>
        requires { can_check self.now }
        ensures value { IfOk result (λ checked.
            (plan_in checked ≡ plan.now) × (certificate_in checked ≡ content certificate)) }
        ensures ok { IfOk result (λ checked. fault_of plan.now (content certificate) ≡ None) }
        ensures fault { IfErr result (TellsFault (fault_of plan.now (content certificate))) };
}

impl Checker for OneThread {
    ghost can_check = { λ _. ⊤ };

    fn check(
        &self,
        alloc: Global,
        plan: &Plan,
        certificate: Certificate,
    ) -> Result<Checked, CheckError> {
        check(alloc, plan, certificate)
    }
}

impl<R: Threads + Sync> Checker for SeveralThreads<'_, R> {
    ghost can_check = { λ _. IsSync R.row };

    fn check(
        &self,
        alloc: Global,
        plan: &Plan,
        certificate: Certificate,
    ) -> Result<Checked, CheckError> {
        check_parallel(self.0, alloc, plan, certificate)
    }
}

/// The answer to a certificate that is refused, and the first rule that isn't met.
pub type Refused = (Response, CheckFault);

/// What the checker rules: the plan and the certificate that it accepts, or the answer to the first
/// rule that isn't met, with that rule.
#[tactic(auto, unfolding(crate::specs::Check::verdict_text))]
fn ruling_on<C: Checker>(
    checker: &C,
    alloc: Global,
    plan: &Plan,
    places: &[Place],
    certificate: Certificate,
) -> Result<Result<Checked, Refused>, AllocError>
    requires { C.can_check checker.now }
    ensures answer { IfOk result (λ found. IsVerdict plan.now places.now
        (fault_of plan.now (content certificate)) (answer_of found)) }
    ensures same { IfOk result (λ found. IfOk found (λ checked.
        (plan_in checked ≡ plan.now) × (certificate_in checked ≡ content certificate))) }
    ensures safe { IfOk result (λ found. IfOk found IsSafe) }
    ensures refused { IfOk result (λ found. IfErr found (λ refused. refused.0.status ≡ 1)) }
    ensures fault { IfOk result
        (λ found. refusal_of found ≡ fault_of plan.now (content certificate)) }
{
    let Ok(reach) = Vec::from_slice(alloc, certificate.reach()) else {
        drop(certificate);
        return Err(AllocError);
    };
    match checker.check(alloc, plan, certificate) {
        Ok(checked) => {
            checked.is_safe();
            Ok(Ok(checked))
        }
        Err(CheckError::Fault(fault)) => {
            let answer = refusal(alloc, plan, places, reach.as_slice(), &fault)?;
            Ok(Err((answer, fault)))
        }
        Err(CheckError::OutOfMemory) => Err(AllocError),
    }
}

/// The same of a plan that nobody needs any more.
pub(crate) fn ruling<C: Checker>(
    checker: &C,
    alloc: Global,
    plan: Plan,
    places: &[Place],
    certificate: Certificate,
) -> Result<Result<Checked, Refused>, AllocError>
    requires { C.can_check checker.now }
    ensures answer { IfOk result (λ found. IsVerdict plan places.now
        (fault_of plan (content certificate)) (answer_of found)) }
    ensures same { IfOk result (λ found. IfOk found
        (λ checked. (plan_in checked ≡ plan) × (certificate_in checked ≡ content certificate))) }
    ensures safe { IfOk result (λ found. IfOk found IsSafe) }
    ensures refused { IfOk result (λ found. IfErr found (λ refused. refused.0.status ≡ 1)) }
{
    let found = ruling_on(checker, alloc, &plan, places, certificate);
    drop(plan);
    found
}

/// What the files of `check` hold.
#[derive(Drop)]
pub struct Claimed {
    /// The plan.
    pub planned: Planned,
    /// The certificate that is claimed for it.
    pub certificate: Certificate,
    /// The SHA-256 of the files.
    pub digests: Digests,
}

/// Reads both tables, the declarations and then the certificate, and writes the tables' warnings to
/// standard error.
pub fn find_claimed<'a, I: Inputs, E: Output>(
    alloc: Global,
    inputs: &mut I,
    err: &mut E,
    words: &CheckWords<'a>,
) -> Result<Claimed, Fault<'a>>
    ensures value { IsFresh (I.whole inputs.old) (I.left inputs.old)
        → Tells (λ w. Warns (I.whole inputs.old) (asked_check words.now).table
        (asked_check words.now).anacrontab (I.failed inputs.old)
        (I.reads inputs.old) (I.reads inputs.new) w
        × CameTo (FindsClaimed (I.whole inputs.old) (asked_check words.now) w
        (I.failed inputs.old) (I.failed inputs.new)) result)
        (sink (E.contents err.old) (E.failed err.old))
        (sink (E.contents err.new) (E.failed err.new)) }
    ensures status { IfErr result (IsHonestOf (I.failed inputs.new) (I.reads inputs.new)) }
    ensures turn { AreReadInTurn (check_paths (asked_check words.now))
        (I.reads inputs.old) (I.reads inputs.new) }
{
    let (table, jobs, path) = (words.table, words.anacrontab, words.declarations);
    let planned = find_plan(alloc, inputs, err, table, jobs, path)?;
    let (certificate, digest) = certificate_from(alloc, inputs, words.certificate)?;
    let digests = Digests {
        table: Sha256::digest(planned.table.as_slice()),
        declarations: Sha256::digest(planned.declarations.as_slice()),
        certificate: digest,
    };
    Ok(Claimed {
        planned,
        certificate,
        digests,
    })
}

#[tactic(auto, unfolding(crate::specs::Check::safe_text))]
fn acceptance(alloc: Global, plan: &Plan) -> Result<Response, AllocError>
    ensures { IfOk result (λ answer. answer ≡ done safe_text (plan_notes plan.now)) }
{
    let text = Vec::from_slice(alloc, b"safe\n".as_slice())?;
    Ok(Response::done(text, plan_notes(alloc, plan)?))
}

/// Answers `check TABLE DECLS CERT [--anacrontab FILE]`, for a plan with these places and the
/// certificate that is claimed for it; and gives the first rule that isn't met.
pub fn answer_check<R: Threads + Sync>(
    rt: &R,
    alloc: Global,
    planned: &Planned,
    certificate: Certificate,
) -> Result<(Response, Option<CheckFault>), AllocError>
    ensures answer { IfOk result (λ found. (digests : Digests) → IsReplyOn
        (record { planned = planned.now; certificate = certificate; digests = digests }) found.0) }
    ensures fault { IfOk result (λ found. option_map told found.1
        ≡ fault_of planned.now.plan (content certificate)) }
{
    let ruled = ruling_on(
        &SeveralThreads(rt),
        alloc,
        &planned.plan,
        planned.places.as_slice(),
        certificate,
    )?;
    match ruled {
        Ok(checked) => {
            let accepted = acceptance(alloc, checked.plan());
            drop(checked);
            let answer = accepted?;
            Ok((answer, None))
        }
        Err(refused) => {
            let (answer, fault) = refused;
            Ok((answer, Some(fault)))
        }
    }
}
