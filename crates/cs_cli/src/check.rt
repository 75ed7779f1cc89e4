//! The subcommand `check`, in a format.
ghost use Rattle.std.specs.Prelude.{IfOk};
ghost use Rattle.cs_findings.specs.Format.{IsIn};
ghost use Rattle.cs_ruling.specs.Safe.{IsReplyOn};
ghost use Rattle.cs_ruling.specs.declared.check.Digests.{Digests};

use crate::findings::Source;
use cs_args::{CheckWords, Format};
use cs_claims::Certificate;
use cs_files::{Planned, Response, Status};
use cs_findings::{Finding, TableStatus, in_format, written};
use cs_ruling::{Claimed, answer_check};
use cs_theorem::CheckFault;
use std::alloc::{AllocError, Global};
use std::thread::Threads;

/// What is found of a plan whose certificate was checked: the fault, if it is refused.
fn check_findings<'a, 'p>(
    alloc: Global,
    words: &CheckWords<'a>,
    planned: &'p Planned,
    fault: &Option<CheckFault>,
) -> Result<Vec<Finding<'a>>, AllocError> {
    let mut findings = Vec::new(alloc);
    if let Some(fault) = fault {
        let source = Source {
            table: words.table,
            anacrontab: words.anacrontab,
            plan: &planned.plan,
            places: planned.places.as_slice(),
        };
        findings.push(source.refusal(alloc, fault)?)?;
    }
    Ok(findings)
}

/// The finding of what is refused, if anything is, in the format that is asked for; empty as text.
fn checked_out(
    alloc: Global,
    words: &CheckWords<'_>,
    planned: &Planned,
    fault: &Option<CheckFault>,
    status: Status,
) -> Result<Vec<u8>, AllocError> {
    if matches!(words.format, Format::Text) {
        return Ok(Vec::new(alloc));
    }
    let findings = check_findings(alloc, words, planned, fault)?;
    let verdict = match fault {
        Some(_) => "refused",
        None => "safe",
    };
    let table = TableStatus {
        table: words.table,
        status: status.code(),
        verdict: Some(verdict),
    };
    written(alloc, words.format, findings.as_slice(), &[table])
}

fn check_planned<R: Threads + Sync>(
    rt: &R,
    alloc: Global,
    words: &CheckWords<'_>,
    planned: &Planned,
    certificate: Certificate,
) -> Result<Response, AllocError>
    ensures { IfOk result (λ answer. (digests : Digests) → IsIn words.now.format (IsReplyOn
        (record { planned = planned.now; certificate = certificate; digests = digests })) answer) }
{
    let found = answer_check(rt, alloc, planned, certificate)?;
    let (plain, fault) = found;
    let out = checked_out(alloc, words, planned, &fault, plain.status())?;
    in_format(alloc, plain, words.format, out)
}

/// Answers `check` in the format that is asked for: the finding is the fault that is printed as
/// text.
pub fn check_in_format<R: Threads + Sync>(
    rt: &R,
    alloc: Global,
    words: &CheckWords<'_>,
    claimed: Claimed,
) -> Result<Response, AllocError>
    ensures { IfOk result (IsIn words.now.format (IsReplyOn claimed)) }
{
    let Claimed {
        planned,
        certificate,
        ..
    } = claimed;
    let answer = check_planned(rt, alloc, words, &planned, certificate);
    drop(planned);
    answer
}
