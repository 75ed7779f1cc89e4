//! The line of a change.
ghost use Rattle.std.specs.Prelude.{◌≡◌, ◌++◌, IfOk, OnOk, map};
ghost use Rattle.cs_advise.specs.Advice.{EndsIn, IsLine, seen};

use crate::change::{Change, Member, Start};
use crate::label::push_label;
use cs_check::Checked;
use cs_history::Mode;
use cs_judge::reach_in;
use cs_plan::Plan;
use std::alloc::{AllocError, Global};

fn unit(minutes: u16) -> &'static str {
    if minutes == 1 { "minute" } else { "minutes" }
}

/// The words on a mode: how cron keeps it, and what becomes of a run.
fn about(mode: Mode) -> &'static str {
    match mode {
        Mode::Plain => ", mode none, so that its runs take no lock: ",
        Mode::Skip => {
            ", mode skip, which cron keeps only by flock -n in the command, so that no run may \
            find the lock held: "
        }
        Mode::Try => {
            ", mode try, which cron keeps only by flock -n in the command, so that a run that \
            finds the lock held is skipped: "
        }
        Mode::Wait =>
            ", mode wait, which cron keeps only by flock in the command, so that a run may start up to ",
        Mode::Shared => {
            ", mode shared, which cron keeps only by flock -s in the command, so that a run may \
            start late, and beside others that share the lock: "
        }
    }
}

/// The words on another value; for mode wait, how late a run may start and end, by the reach of the
/// job.
fn words_on(
    alloc: Global,
    plan: &Plan,
    checked: &Checked,
    member: &Member,
) -> Result<Vec<u8>, AllocError> {
    let mut text = Vec::new(alloc);
    if let Member::Max(job, _) | Member::Mode(job, _) = member {
        push_label(alloc, &mut text, plan, *job)?;
    }
    let words = match member {
        Member::Max(job, max) => {
            let old = plan.job_at(*job).max();
            format!(in alloc; ", max {max} in place of {old}: ")?
        }
        Member::Mode(job, Mode::Wait) => {
            let reach = reach_in(checked, *job);
            let late = reach.saturating_sub(plan.job_at(*job).max());
            let (about, late_unit, unit) = (about(Mode::Wait), unit(late), unit(reach));
            format!(in alloc;
                "{about}{late} {late_unit} late and end up to {reach} {unit} after its due minute: "
            )?
        }
        Member::Mode(_, mode) => String::from_str(alloc, about(*mode))?,
        Member::Capacity(capacity) => {
            let old = plan.capacity();
            format!(in alloc; "capacity {capacity} in place of {old}: ")?
        }
        Member::Hours(hours) => {
            let (from, to, old) = (hours.from(), hours.to(), plan.hours());
            let (old_from, old_to) = (old.from(), old.to());
            format!(in alloc;
                "hours {from} to {to} in place of {old_from} to {old_to}, if anacron \
                itself keeps to them (START_HOURS_RANGE, which Debian's anacron doesn't know): "
            )?
        }
    };
    text.extend_from_slice(words.as_bytes())?;
    Ok(text)
}

fn push_seen(text: &mut Vec<u8>, line: &[u8]) -> Result<(), AllocError>
    ensures { OnOk result (text.new.items ≡ text.old.items ++ map seen line.now) }
{
    for byte in line {
        text.push(if (*byte < 32 && *byte != 9) || *byte == 127 {
            b'?'
        } else {
            *byte
        })?;
    }
    Ok(())
}

fn start_line(
    alloc: Global,
    front: &[u8],
    plan: &Plan,
    start: &Start,
) -> Result<Vec<u8>, AllocError>
    ensures { IfOk result (λ line. EndsIn line.items (map seen start.now.line)) }
{
    let minutes = start.shift.minutes;
    let way = if start.shift.is_later {
        "later"
    } else {
        "earlier"
    };
    let unit = unit(minutes);
    let words = format!(in alloc; ", {minutes} {unit} {way}: ")?;
    let mut line = Vec::from_slice(alloc, front)?;
    push_label(alloc, &mut line, plan, start.job)?;
    line.extend_from_slice(words.as_bytes())?;
    push_seen(&mut line, start.line.as_slice())?;
    line.push(b'\n')?;
    Ok(line)
}

/// The line of a change, or the two lines, for a plan that was judged safe with it.
pub(crate) fn change_line(
    alloc: Global,
    plan: &Plan,
    checked: &Checked,
    change: &Change,
    pasted: &[u8],
) -> Result<Vec<u8>, AllocError>
    ensures { IfOk result (λ line. IsLine change.now pasted.now line.items) }
{
    match change {
        Change::Start(start) => start_line(alloc, b"", plan, start),
        Change::Both(one, other) => {
            let mut lines = start_line(alloc, b"both:\n", plan, one)?;
            lines.extend_from_slice(start_line(alloc, b"", plan, other)?.as_slice())?;
            Ok(lines)
        }
        Change::Member(member) => {
            let mut line = words_on(alloc, plan, checked, member)?;
            line.extend_from_slice(pasted)?;
            line.push(b'\n')?;
            Ok(line)
        }
    }
}
