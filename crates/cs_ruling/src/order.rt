//! The subcommand `run`, up to where something is run.
ghost use Rattle.std.specs.Prelude.{◌≡◌, ◌++◌, IfOk, decimal};
ghost use Rattle.cs_args.specs.Asked.{asked_run};
ghost use Rattle.cs_ruling.specs.Answer.{IsRuled, Refuses, bad_crontab};

use crate::answer::{Answer, Order};
use crate::check::{Checker, Claimed, ruling};
use cs_args::RunWords;
use cs_civil::push_number;
use cs_classes::{OneThread, SeveralThreads};
use cs_files::{Planned, Response, Status};
use cs_owner::{Unowned, read_owners};
use cs_report::plan_notes;
use std::alloc::{AllocError, Global};
use std::thread::Threads;

fn bad_crontab(alloc: Global, front: &str, line: u32) -> Result<Response, AllocError>
    ensures { IfOk result (λ r. r ≡ bad_crontab (front.now ++ decimal line)) }
{
    let mut text = Vec::from_slice(alloc, front.as_bytes())?;
    push_number(alloc, &mut text, u128::from(line))?;
    Response::fault(alloc, Status::BadInput, b"".as_slice(), text.as_slice())
}

/// The answer where a command of a gathered crontab has no owner.
fn refuse_unowned(alloc: Global, fault: Unowned) -> Result<Response, AllocError>
    ensures { IfOk result (Refuses fault) }
{
    match fault {
        Unowned::NoPlace(line) => bad_crontab(
            alloc,
            "crontab: NoPlace: no comment names the user of line ",
            line,
        ),
        Unowned::Unfit(line) => bad_crontab(
            alloc,
            "crontab: UnfitSetting: the comment has no whole setting, on line ",
            line,
        ),
        Unowned::NoMemory => Err(AllocError),
    }
}

fn answer_by<'a, C: Checker>(
    checker: &C,
    alloc: Global,
    words: RunWords<'a>,
    claimed: Claimed,
) -> Result<Answer<'a>, AllocError>
    requires { C.can_check checker.now }
    ensures { IfOk result (IsRuled (asked_run words.entry) claimed) }
{
    let Claimed {
        planned,
        certificate,
        digests,
    } = claimed;
    let Planned {
        plan,
        places,
        table,
        declarations,
    } = planned;
    let listed = places.as_slice();
    let ruled = ruling(checker, alloc, plan, listed, certificate)?;
    let checked = match ruled {
        Ok(checked) => checked,
        Err(refused) => {
            let (answer, fault) = refused;
            drop(fault);
            return Ok(Answer::Ends(answer));
        }
    };
    let text = table.as_slice();
    let crontab = checked.plan().crontab();
    let owners = match read_owners(alloc, text, crontab, listed) {
        Ok(owners) => owners,
        Err(fault) => {
            drop(checked);
            return Ok(Answer::Ends(refuse_unowned(alloc, fault)?));
        }
    };
    let warnings = match plan_notes(alloc, checked.plan()) {
        Ok(warnings) => warnings,
        Err(AllocError) => {
            drop(checked);
            return Err(AllocError);
        }
    };
    Ok(Answer::Runs(Order {
        checked,
        owners,
        warnings,
        declarations,
        words,
        digests,
    }))
}

/// Answers `run`: like `check` if that doesn't answer `safe`, with a fault if a command of a
/// gathered crontab has no owner, else with what to run.
pub fn answer_run<'a, R: Threads + Sync>(
    rt: &R,
    alloc: Global,
    words: RunWords<'a>,
    claimed: Claimed,
) -> Result<Answer<'a>, AllocError>
    ensures { IfOk result (IsRuled (asked_run words.entry) claimed) }
{
    answer_by(&SeveralThreads(rt), alloc, words, claimed)
}

/// The same, checked by one thread.
pub fn answer_run_alone<'a>(
    alloc: Global,
    words: RunWords<'a>,
    claimed: Claimed,
) -> Result<Answer<'a>, AllocError>
    ensures { IfOk result (IsRuled (asked_run words.entry) claimed) }
{
    answer_by(&OneThread, alloc, words, claimed)
}
