//! What may run at a minute at which the windows of a plan weigh too much.

use cs_civil::{Minute, four_days, push_number};
use cs_claims::JobReach;
use cs_classes::occupied;
use cs_plan::{Job, Plan};
use cs_report::push_window;
use cs_theorem::CheckFault;
use cs_windows::{Window, touches, windows_on};
use std::alloc::{AllocError, Global};

/// The windows that hold a minute, by the reaches of a certificate, in order of start.
fn windows_at(
    alloc: Global,
    plan: &Plan,
    reach: &[JobReach],
    at: Minute,
) -> Result<Vec<Window>, AllocError> {
    let occupied = occupied(alloc, plan, reach)?;
    let minute = at.minute_of_day();
    let mut windows = windows_on(alloc, occupied.as_slice(), four_days(at.day()).as_slice())?;
    windows.retain(|window| touches(window, minute, minute + 1));
    Ok(windows)
}

/// Adds the note on a job, if one of these windows is its own.
fn push_note(
    alloc: Global,
    text: &mut Vec<u8>,
    plan: &Plan,
    at: Minute,
    number: usize,
    job: Job,
    windows: &[Window],
) -> Result<(), AllocError> {
    let mut own = Vec::new(alloc);
    for window in windows {
        if usize::from(window.job) == number {
            own.push(*window)?;
        }
    }
    let [first, others @ ..] = own.as_slice() else {
        return Ok(());
    };
    text.extend_from_slice(b"note: ")?;
    push_window(alloc, text, plan, at, first)?;
    if !others.is_empty() {
        text.extend_from_slice(b" (first of ")?;
        push_number(alloc, text, own.len() as u128)?;
        text.extend_from_slice(b" runs)")?;
    }
    text.extend_from_slice(b" may run then: weight ")?;
    push_number(alloc, text, u128::from(job.weight()))?;
    text.extend_from_slice(b"\n")
}

/// A note for each job that may run at the minute of an overload, by the reaches of the
/// certificate. None for other faults.
pub(crate) fn overload_notes(
    alloc: Global,
    plan: &Plan,
    reach: &[JobReach],
    fault: &CheckFault,
) -> Result<Vec<u8>, AllocError> {
    let mut text = Vec::new(alloc);
    let CheckFault::OverCapacity { at, .. } = fault else {
        return Ok(text);
    };
    let windows = windows_at(alloc, plan, reach, *at)?;
    for (number, job) in plan.jobs().iter().enumerate() {
        push_note(
            alloc,
            &mut text,
            plan,
            *at,
            number,
            *job,
            windows.as_slice(),
        )?;
    }
    Ok(text)
}
