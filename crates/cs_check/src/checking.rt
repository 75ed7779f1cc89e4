ghost use Rattle.std.specs.Prelude.{◌≡◌, [], IfErr, IfOk, IsTrue, None, OnOk};
ghost use Rattle.cs_claims.specs.Certificate.{content};
ghost use Rattle.cs_classes.specs.Said.{said};
ghost use Rattle.cs_check.specs.Case.{IsAcceptedWith, IsFit, claim_fault, fault_of, length_for, reach_for};
ghost use Rattle.cs_check.specs.Checked.{IsBroken, IsCalmThroughout, IsHeadline, IsLengthFor};
ghost use Rattle.cs_check.specs.Checked.{StayInWindows, Tells, certificate_in, plan_in};
ghost use Rattle.cs_check.specs.Stretches.{AreGood, AreStretches, IsCase};
ghost use Rattle.cs_plan.specs.Plan.{as_plan};

use crate::case::{Case, case_of};
use crate::checked::Checked;
use crate::due::basis_of;
use crate::fault::CheckError;
use crate::order::later_fault;
use crate::reaches::have_reaches;
use crate::stretches::in_use;
use crate::workers::CheckWorkers;
use cs_claims::Certificate;
use cs_classes::{Claim, OneThread, SeveralThreads, UsedStretch, claim_by, work_out};
use cs_plan::Plan;
use cs_wait::Backlog;
use std::alloc::Global;
use std::thread::Threads;

/// Lemma. All numbers of a plan and a certificate are in range.
pub(crate) fn look_at(plan: &Plan, certificate: &Certificate)
    ensures { IsFit plan.now (content certificate.now).reach }
{
    let _jobs = plan.jobs();
    let _reach = certificate.reach();
}

fn answer(
    alloc: Global,
    case: &Case<'_>,
    stretches: &[UsedStretch<'_>],
    good: bool,
) -> Result<(), CheckError>
    requires case { IsCase case.now }
    requires stretches { AreStretches case.now stretches.now }
    requires good { IsTrue good → AreGood case.now stretches.now }
    ensures ok { OnOk result (claim_fault case.now.plan.now (said case.now.claim.now) ≡ None) }
    ensures fault { IfErr result (Tells (claim_fault case.now.plan.now (said case.now.claim.now))) }
{
    if good {
        if have_reaches(case) {
            return Ok(());
        }
    }
    match later_fault(alloc, case, stretches)? {
        None => Ok(()),
        Some(fault) => Err(CheckError::Fault(fault)),
    }
}

fn judge_claim<W: CheckWorkers>(
    workers: &W,
    alloc: Global,
    plan: &Plan,
    claim: &Claim<'_>,
    none: &Backlog,
) -> Result<(), CheckError>
    requires ready { W.can_work workers.now }
    requires fit { IsFit plan.now (said claim.now).reach }
    requires none { none.now ≡ [] }
    ensures ok { OnOk result (claim_fault plan.now (said claim.now) ≡ None) }
    ensures fault { IfErr result (Tells (claim_fault plan.now (said claim.now))) }
{
    let basis = basis_of(workers, alloc, plan, claim, none)?;
    let class_days = workers.class_days(alloc, &basis)?;
    let case = case_of(alloc, basis, class_days)?;
    let stretches = in_use(alloc, &case)?;
    let good = workers.are_good(alloc, &case, stretches.as_slice())?;
    answer(alloc, &case, stretches.as_slice(), good)
}

fn judge<W: CheckWorkers>(
    workers: &W,
    alloc: Global,
    plan: &Plan,
    certificate: &Certificate,
    none: &Backlog,
) -> Result<(), CheckError>
    requires ready { W.can_work workers.now }
    requires fit { IsFit plan.now (content certificate.now).reach }
    requires none { none.now ≡ [] }
    ensures ok { OnOk result (fault_of plan.now (content certificate.now) ≡ None) }
    ensures fault { IfErr result (Tells (fault_of plan.now (content certificate.now))) }
{
    let worked = work_out(workers, alloc, plan, certificate)?;
    judge_claim(
        workers,
        alloc,
        plan,
        &claim_by(plan, certificate, &worked),
        none,
    )
}

/// Accepts a plan with a certificate if the eight rules of this profile hold, with stretches of as
/// few days as the windows allow. The error is else the first fault, of the rule with the smallest
/// number and at its first place, or `OutOfMemory` if memory runs out.
///
/// An accepted plan is safe: no legal history in which each run ends within its declared time has
/// two runs of an exclusive group at once (unless both hold its lock shared), exceeds the declared
/// capacity, or skips a due minute of a skip job. Who made the certificate doesn't matter.
#[tactic(auto, using(crate::proofs::Headline::broken))]
pub fn check(alloc: Global, plan: &Plan, certificate: Certificate) -> Result<Checked, CheckError>
    ensures value { IfOk result (λ checked.
        (plan_in checked ≡ plan.now) × (certificate_in checked ≡ content certificate)) }
    ensures ok { IfOk result (λ checked. fault_of plan.now (content certificate) ≡ None) }
    ensures fault { IfErr result (Tells (fault_of plan.now (content certificate))) }
    ensures rules { IfOk result (λ checked. IsAcceptedWith plan.now (content certificate)) }
    ensures broken { IfErr result (IsBroken plan.now (content certificate)) }
    ensures length { IsLengthFor plan.now (content certificate)
        (length_for plan.now (content certificate)) }
    ensures calm { IfOk result (λ checked.
        IsCalmThroughout (as_plan plan.now) (reach_for plan.now (content certificate))) }
    ensures windows { IfOk result (λ checked.
        StayInWindows (as_plan plan.now) (reach_for plan.now (content certificate))) }
    ensures headline { IfOk result (λ checked. IsHeadline (as_plan plan.now)) }
{
    look_at(plan, &certificate);
    let none = Backlog::none(alloc);
    judge(&OneThread, alloc, plan, &certificate, &none)?;
    let plan = plan.copy(alloc)?;
    Ok(Checked { plan, certificate })
}

/// Like [`check`], with as many threads as the machine has processors. The answer is the same.
#[tactic(auto, using(crate::proofs::Headline::broken))]
pub fn check_parallel<R: Threads + Sync>(
    rt: &R,
    alloc: Global,
    plan: &Plan,
    certificate: Certificate,
) -> Result<Checked, CheckError>
    ensures value { IfOk result (λ checked.
        (plan_in checked ≡ plan.now) × (certificate_in checked ≡ content certificate)) }
    ensures ok { IfOk result (λ checked. fault_of plan.now (content certificate) ≡ None) }
    ensures fault { IfErr result (Tells (fault_of plan.now (content certificate))) }
    ensures rules { IfOk result (λ checked. IsAcceptedWith plan.now (content certificate)) }
    ensures broken { IfErr result (IsBroken plan.now (content certificate)) }
    ensures length { IsLengthFor plan.now (content certificate)
        (length_for plan.now (content certificate)) }
    ensures calm { IfOk result (λ checked.
        IsCalmThroughout (as_plan plan.now) (reach_for plan.now (content certificate))) }
    ensures windows { IfOk result (λ checked.
        StayInWindows (as_plan plan.now) (reach_for plan.now (content certificate))) }
    ensures headline { IfOk result (λ checked. IsHeadline (as_plan plan.now)) }
{
    look_at(plan, &certificate);
    let none = Backlog::none(alloc);
    judge(&SeveralThreads(rt), alloc, plan, &certificate, &none)?;
    let plan = plan.copy(alloc)?;
    Ok(Checked { plan, certificate })
}
