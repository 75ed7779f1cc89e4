//! Where the lines that a refusal names come from, and other notes on it.
ghost use Rattle.std.specs.Prelude.{◌≡◌, ◌++◌, IfOk, OnOk};
ghost use Rattle.cs_theorem.specs.Told.{told};
ghost use Rattle.cs_ruling.specs.Check.{fault_places, jobs_of, stale_note, stale_text};

use cs_place::{Place, push_places_told};
use cs_plan::Plan;
use cs_theorem::CheckFault;
use cs_verdict::taker_notes;
use std::alloc::{AllocError, Global};

/// The jobs that a fault names, by number, in its order.
pub fn jobs_of(alloc: Global, fault: &CheckFault) -> Result<Vec<usize>, AllocError>
    ensures { IfOk result (λ jobs. jobs.items ≡ jobs_of (told fault.now)) }
{
    match fault {
        CheckFault::ReachTooShort { job } => Vec::from_slice(alloc, &[*job]),
        CheckFault::WindowMissing { window, .. } => Vec::from_slice(
            alloc,
            &[usize::from(window.job)],
        ),
        CheckFault::Collision { one, other, .. } => {
            Vec::from_slice(alloc, &[usize::from(one.job), usize::from(other.job)])
        }
        CheckFault::SkipBlocked { skip, other, .. } => {
            Vec::from_slice(alloc, &[usize::from(skip.job), usize::from(other.job)])
        }
        CheckFault::ClassNotDue(_)
        | CheckFault::MissingPair(_)
        | CheckFault::BacklogRises { .. }
        | CheckFault::OverCapacity { .. } => Ok(Vec::new(alloc)),
    }
}

/// A note for each job that takes the lock of a group whose bound rises.
pub fn fault_takers(alloc: Global, plan: &Plan, fault: &CheckFault) -> Result<Vec<u8>, AllocError> {
    match fault {
        CheckFault::BacklogRises { group, at } => taker_notes(alloc, plan, *group, *at),
        _ => Ok(Vec::new(alloc)),
    }
}

/// Adds a note for each line that the fault names and that has a place.
pub fn push_fault_places(
    alloc: Global,
    text: &mut Vec<u8>,
    plan: &Plan,
    places: &[Place],
    fault: &CheckFault,
) -> Result<(), AllocError>
    ensures { OnOk result
        (text.new.items ≡ text.old.items ++ fault_places plan.now places.now (told fault.now)) }
{
    let jobs = jobs_of(alloc, fault)?;
    let lines = plan.crontab().lines();
    push_places_told(
        alloc,
        text,
        b"note: ".as_slice(),
        places,
        jobs.as_slice(),
        lines,
    )
}

#[tactic(auto, unfolding(crate::specs::Check::stale_text))]
fn push_stale(text: &mut Vec<u8>) -> Result<(), AllocError>
    ensures { OnOk result (text.new.items ≡ text.old.items ++ stale_text) }
{
    text.extend_from_slice(
        b"note: the tables or declarations may have changed since the certificate was made: ",
    )?;
    text.extend_from_slice(b"cronsafe make TABLE DECLS makes a new one\n")
}

/// Adds that the certificate may be of other files, if its fault suggests that.
pub(crate) fn push_stale_note(text: &mut Vec<u8>, fault: &CheckFault) -> Result<(), AllocError>
    ensures { OnOk result (text.new.items ≡ text.old.items ++ stale_note (told fault.now)) }
{
    match fault {
        CheckFault::ClassNotDue(_)
        | CheckFault::MissingPair(_)
        | CheckFault::WindowMissing { .. } => push_stale(text),
        CheckFault::BacklogRises { .. }
        | CheckFault::ReachTooShort { .. }
        | CheckFault::Collision { .. }
        | CheckFault::OverCapacity { .. }
        | CheckFault::SkipBlocked { .. } => Ok(()),
    }
}
