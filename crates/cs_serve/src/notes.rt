//! What a daemon says of the jobs of its plan.
ghost use Rattle.std.specs.Prelude.{◌≡◌, ◌<◌, ◌++◌, IfOk, OnOk, drop, length, option_and_then};
ghost use Rattle.std.specs.Prelude.{slice_get};
ghost use Rattle.cs_check.specs.Checked.{plan_in};
ghost use Rattle.cs_plan.specs.Plan.{as_plan};
ghost use Rattle.cs_serve.specs.Notes.{AreNotes, IsNote, command_of, may_meet, peer, peers};
ghost use Rattle.cs_serve.specs.Notes.{other_clock, schedule_in, user_of};

use crate::names::name_of;
use cs_civil::Bytes;
use cs_crontab::When;
use cs_decl::{CronEntry, read_declarations};
use cs_jobs::{push_job_front, push_job_name};
use cs_machine::JobNote;
use cs_owner::Owner;
use cs_plan::{Job, Plan};
use cs_ruling::Order;
use cs_schedule::Schedule;
use std::alloc::{AllocError, Global};

fn may_meet(plan: &Plan, late: usize, other: usize) -> bool
    requires first { late < length plan.now.jobs }
    requires second { other < length plan.now.jobs }
    ensures { result ≡ may_meet (as_plan plan.now) late other }
{
    let (one, peer) = (&plan.jobs()[late], &plan.jobs()[other]);
    plan.is_exclusive(one.group())
        && peer.group() == one.group()
        && (late < plan.crons() || other < plan.crons())
        && !(one.mode().takes_lock() && peer.mode().takes_lock())
}

fn push_peer(
    alloc: Global,
    text: &mut Vec<u8>,
    plan: &Plan,
    late: usize,
    other: usize,
) -> Result<(), AllocError>
    requires first { late < length plan.now.jobs }
    requires second { other < length plan.now.jobs }
    ensures { OnOk result (text.new.items ≡ text.old.items ++ peer plan.now late other) }
{
    if !may_meet(plan, late, other) {
        return Ok(());
    }
    text.extend_from_slice(b", ")?;
    push_job_name(alloc, text, plan, other)
}

/// What follows the first comma and its blank; nothing of an empty text.
fn behind_comma(text: &[u8]) -> &[u8]
    ensures { result.now ≡ drop 2 text.now }
{
    match text.split_at_checked(2) {
        Some((_, names)) => names,
        None => b"".as_slice(),
    }
}

#[tactic(auto, using(crate::proofs::Peers::more))]
fn peers(alloc: Global, plan: &Plan, late: usize) -> Result<Bytes, AllocError>
    requires { late < length plan.now.jobs }
    ensures { IfOk result (λ text. text ≡ peers plan.now late) }
{
    let mut text = Vec::new(alloc);
    for other in 0..plan.jobs().len() {
        push_peer(alloc, &mut text, plan, late, other)?;
    }
    Bytes::from_slice(alloc, behind_comma(text.as_slice()))
}

fn schedule_of(plan: &Plan, number: usize) -> Option<Schedule>
    ensures { result ≡ option_and_then schedule_in (slice_get plan.now.crontab.lines number) }
{
    match plan.crontab().lines().get(number)?.when() {
        When::At(schedule) => Some(schedule.copy()),
        When::Reboot => None,
    }
}

fn other_clock(plan: &Plan) -> &[u8]
    ensures { result.now ≡ other_clock plan.now }
{
    match plan.clocks() {
        Some(clocks) => clocks.other.as_slice(),
        None => b"".as_slice(),
    }
}

fn command_of(plan: &Plan, number: usize) -> &[u8]
    ensures { result.now ≡ command_of plan.now number }
{
    if let Some(line) = plan.crontab().lines().get(number) {
        return line.command();
    }
    match plan
        .anacrontab()
        .lines()
        .get(number - plan.crontab().lines().len())
    {
        Some(job) => job.command(),
        None => b"".as_slice(),
    }
}

fn user_of(alloc: Global, owners: &[Owner], number: usize) -> Result<Option<Bytes>, AllocError>
    ensures { IfOk result (λ user. user ≡ user_of owners.now number) }
{
    match owners.get(number) {
        Some(owner) => Ok(Some(Bytes::from_slice(alloc, owner.user.as_slice())?)),
        None => Ok(None),
    }
}

fn note(
    alloc: Global,
    plan: &Plan,
    owners: &[Owner],
    entries: &[CronEntry],
    number: usize,
) -> Result<JobNote, AllocError>
    requires { number < length plan.now.jobs }
    ensures { IfOk result (IsNote plan.now owners.now number) }
{
    let mut front = Vec::new(alloc);
    push_job_front(alloc, &mut front, plan, number)?;
    Ok(JobNote {
        front: Bytes::from_vec(front),
        max: u64::from(plan.jobs()[number].max()),
        when: schedule_of(plan, number),
        zone: *plan.zone(),
        other_clock: Bytes::from_slice(alloc, other_clock(plan))?,
        peers: peers(alloc, plan, number)?,
        name: Bytes::from_slice(alloc, name_of(plan, entries, number))?,
        command: Bytes::from_slice(alloc, command_of(plan, number))?,
        user: user_of(alloc, owners, number)?,
    })
}

fn notes_by(
    alloc: Global,
    plan: &Plan,
    owners: &[Owner],
    entries: &[CronEntry],
) -> Result<Vec<JobNote>, AllocError>
    ensures { IfOk result (λ notes. AreNotes plan.now owners.now notes.items) }
{
    let mut notes = Vec::new(alloc);
    for number in 0..plan.jobs().len() {
        notes.push(note(alloc, plan, owners, entries, number)?)?;
    }
    Ok(notes)
}

/// Of an order, whose declarations were read before: so only memory can run out.
pub(crate) fn notes_of(alloc: Global, order: &Order<'_>) -> Result<Vec<JobNote>, AllocError>
    ensures { IfOk result
        (λ notes. AreNotes (plan_in order.now.checked) order.now.owners notes.items) }
{
    let Ok(declarations) = read_declarations(alloc, order.declarations.as_slice()) else {
        return Err(AllocError);
    };
    let (plan, owners) = (order.checked.plan(), order.owners.as_slice());
    let entries = declarations.entries().cron.as_slice();
    let notes = notes_by(alloc, plan, owners, entries);
    drop(declarations);
    notes
}
