ghost use Rattle.std.specs.Prelude.{IfErr, IfOk, IfSome};
ghost use Rattle.cs_claims.specs.Certificate.{content};
ghost use Rattle.cs_check.specs.Checked.{certificate_in};
ghost use Rattle.cs_report.specs.ScriptText.{is_nameable};
ghost use Rattle.cs_judge.specs.Form.{IsJudgedBy};
ghost use Rattle.cs_judge.specs.Judged.{IsCompact, IsJudgement, IsRefusal, Shows};
ghost use Rattle.cs_judge.specs.declared.judged.Judged.TheVariants.{Safe};

use crate::answers::Wanted;
use crate::judged::Judged;
use cs_check::{CheckError, Checked, check_parallel};
use cs_claims::Certificate;
use cs_counterexample::{NotShown, Shown, prove_unsafe};
use cs_history::Script;
use cs_maker::{Maker, Reason};
use cs_plan::Plan;
use cs_report::is_nameable;
use cs_theorem::CheckFault;
use cs_verdict::{Breach, first_breach};
use std::alloc::{AllocError, Global};
use std::thread::Threads;

/// The plan checked with the maker's certificate, or why the checker refuses that. Neither if there
/// is none.
pub(crate) fn check<R: Threads + Sync>(
    rt: &R,
    alloc: Global,
    plan: &Plan,
    made: Option<Certificate>,
) -> Result<Result<Checked, Option<CheckFault>>, AllocError>
    ensures known { IfOk result (λ found.
        IfOk found (λ checked. IsJudgement plan.now (Safe checked))) }
    ensures form { IfSome made (λ certificate. IsCompact (content certificate))
        → IfOk result (λ found. IfOk found (λ checked. IsCompact (certificate_in checked))) }
    ensures refused { IfSome made (λ certificate. IsCompact (content certificate))
        → IfOk result (λ found. IfErr found (λ refusal. IfSome refusal (IsRefusal plan.now))) }
{
    let Some(certificate) = made else {
        return Ok(Err(None));
    };
    match check_parallel(rt, alloc, plan, certificate) {
        Ok(checked) => Ok(Ok(checked)),
        Err(CheckError::Fault(fault)) => Ok(Err(Some(fault))),
        Err(CheckError::OutOfMemory) => Err(AllocError),
    }
}

/// A certificate that lists windows replaces the compact one if it is wanted and accepted too.
fn accept<R: Threads + Sync>(
    rt: &R,
    alloc: Global,
    plan: &Plan,
    maker: &Maker<'_>,
    wanted: Wanted,
    compact: Checked,
) -> Result<Judged, AllocError>
    requires known { IsJudgement plan.now (Safe compact) }
    requires form { IsCompact (certificate_in compact) }
    ensures known { IfOk result (IsJudgement plan.now) }
    ensures form { IfOk result (IsJudgedBy wanted) }
{
    match wanted {
        Wanted::Verdict | Wanted::Compact => Ok(Judged::Safe(compact)),
        Wanted::Certificate => match check(rt, alloc, plan, maker.listed(alloc)?)? {
            Ok(listed) => Ok(Judged::Safe(listed)),
            Err(_) => Ok(Judged::Safe(compact)),
        },
    }
}

fn show(alloc: Global, plan: &Plan, script: &Script) -> Result<Option<(Shown, Breach)>, AllocError>
    ensures { IfOk result
        (λ found. IfSome found (λ it. Shows plan.now script.now it.0)) }
{
    if !is_nameable(plan, script) {
        return Ok(None);
    }
    let shown = match prove_unsafe(alloc, plan, script) {
        Ok(shown) => shown,
        Err(NotShown::OutOfMemory) => return Err(AllocError),
        Err(_) => return Ok(None),
    };
    let breach = first_breach(alloc, plan, script)?;
    Ok(Some((shown, breach)))
}

/// What it breaks first and what runs then come with the script. The reason is why there is none
/// that shows the plan unsafe.
fn refute(
    alloc: Global,
    plan: &Plan,
    maker: &Maker<'_>,
) -> Result<Result<(Script, Shown, Breach), Reason>, AllocError>
    ensures { IfOk result (λ found. IfOk found (λ it. Shows plan.now it.0 it.1)) }
{
    let script = match maker.counterexample(alloc)? {
        Ok(script) => script,
        Err(reason) => return Ok(Err(reason)),
    };
    match show(alloc, plan, &script)? {
        Some((shown, breach)) => Ok(Ok((script, shown, breach))),
        None => Ok(Err(Reason::NotChecked)),
    }
}

fn decide<R: Threads + Sync>(
    rt: &R,
    alloc: Global,
    plan: &Plan,
    wanted: Wanted,
) -> Result<Judged, AllocError>
    ensures known { IfOk result (IsJudgement plan.now) }
    ensures form { IfOk result (IsJudgedBy wanted) }
{
    let maker = Maker::of(alloc, plan)?;
    match check(rt, alloc, plan, maker.compact(alloc)?)? {
        Ok(compact) => accept(rt, alloc, plan, &maker, wanted, compact),
        Err(refusal) => match refute(alloc, plan, &maker)? {
            Ok((script, shown, breach)) => Ok(Judged::Unsafe(script, shown, breach)),
            Err(reason) => Ok(Judged::Unknown(reason, refusal)),
        },
    }
}

/// Judges a plan by the maker's answers, which aren't trusted: a certificate is checked, with as
/// many threads as the machine has processors, and a script is tried. A compact certificate comes
/// first, so that a safe plan costs little more than a check.
///
/// `Safe`: every legal history in which each run ends within its declared time is safe. `Unsafe`
/// shows one that isn't. `Unknown` has the maker's reason, `NotChecked` if its answer wasn't
/// confirmed, or `NoMemory` if memory ran out; and the checker's refusal if there was a
/// certificate. The certificate is of version 3, unless one that lists windows is wanted and a file
/// can hold it.
pub fn judge<R: Threads + Sync>(rt: &R, alloc: Global, plan: &Plan, wanted: Wanted) -> Judged
    // a `Safe` plan was accepted by the checker: every legal history in time is safe, and each
    // minute from 1970-01-04 on is calm; an `Unsafe` one is shown unsafe by a script that can be
    // written; the refusal of an `Unknown` one is the checker's, of a certificate of version 3
    ensures known { IsJudgement plan.now result }

    // and a `Safe` plan was accepted with a certificate of version 3, unless a list is wanted
    ensures form { IsJudgedBy wanted result }
{
    match decide(rt, alloc, plan, wanted) {
        Ok(judged) => judged,
        Err(AllocError) => Judged::Unknown(Reason::NoMemory, None),
    }
}
