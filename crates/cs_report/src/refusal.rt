ghost use Rattle.std.specs.Prelude.{◌≡◌, ◌++◌, IfOk, OnOk, flat_map};
ghost use Rattle.cs_theorem.specs.Told.{told};
ghost use Rattle.cs_report.specs.Refused.{at_text, both_text, catch_up_name, collision_text, fault_text, from_name, group_name, kind_text, kinds_text, overload_text, place_text, rise_text, rule_text, start_of, then_text, unlisted_text, window_name, window_text};

use cs_civil::{
    Bytes, DayKind, FIRST_MINUTE, LAST_MINUTE, MINUTES_OF_DAY, Minute, date_text, push_number,
};
use cs_plan::{Plan, identifier_of, push_command_name, push_due_name};
use cs_theorem::CheckFault;
use cs_windows::Window;
use std::alloc::{AllocError, Global};

#[tactic(auto, unfolding(crate::specs::Refused::kind_text))]
fn push_kind(alloc: Global, text: &mut Vec<u8>, kind: DayKind) -> Result<(), AllocError>
    ensures { OnOk result (text.new.items ≡ text.old.items ++ kind_text kind) }
{
    text.extend_from_slice(b"month ")?;
    push_number(alloc, text, u128::from(kind.month()))?;
    text.extend_from_slice(b" day ")?;
    push_number(alloc, text, u128::from(kind.dom()))?;
    text.extend_from_slice(b" weekday ")?;
    push_number(alloc, text, u128::from(kind.dow()))
}

fn push_following(alloc: Global, text: &mut Vec<u8>, kinds: &[DayKind]) -> Result<(), AllocError>
    ensures { OnOk result (text.new.items ≡ text.old.items ++ flat_map then_text kinds.now) }
{
    for kind in kinds {
        text.extend_from_slice(b" then ")?;
        push_kind(alloc, text, *kind)?;
    }
    Ok(())
}

#[tactic(auto, unfolding(crate::specs::Refused::kinds_text))]
fn push_kinds(alloc: Global, text: &mut Vec<u8>, kinds: &[DayKind]) -> Result<(), AllocError>
    ensures { OnOk result (text.new.items ≡ text.old.items ++ kinds_text kinds.now) }
{
    match kinds {
        [first, following @ ..] => {
            push_kind(alloc, text, *first)?;
            push_following(alloc, text, following)
        }
        [] => Ok(()),
    }
}

#[tactic(auto, unfolding(crate::specs::Refused::at_text))]
fn push_at(text: &mut Vec<u8>, at: Minute) -> Result<(), AllocError>
    ensures { OnOk result (text.new.items ≡ text.old.items ++ at_text at) }
{
    text.extend_from_slice(b" at ")?;
    text.extend_from_slice(&date_text(at))
}

#[tactic(auto, unfolding(crate::specs::Refused::from_name))]
fn push_from(text: &mut Vec<u8>, plan: &Plan, job: usize) -> Result<(), AllocError>
    ensures { OnOk result (text.new.items ≡ text.old.items ++ from_name plan.now job) }
{
    text.extend_from_slice(b" of ")?;
    text.extend_from_slice(identifier_of(plan, job))?;
    text.extend_from_slice(b" from ")
}

#[tactic(auto, unfolding(crate::specs::Refused::catch_up_name))]
fn push_catch_up(text: &mut Vec<u8>, plan: &Plan, job: usize) -> Result<(), AllocError>
    ensures { OnOk result (text.new.items ≡ text.old.items ++ catch_up_name plan.now job) }
{
    text.extend_from_slice(b"catch-up")?;
    push_from(text, plan, job)
}

fn push_window_name(
    alloc: Global,
    text: &mut Vec<u8>,
    plan: &Plan,
    job: usize,
) -> Result<(), AllocError>
    ensures { OnOk result (text.new.items ≡ text.old.items ++ window_name plan.now job) }
{
    if job < plan.crons() {
        push_due_name(alloc, text, plan, job)
    } else {
        push_catch_up(text, plan, job)
    }
}

fn start_of(at: Minute, window: &Window) -> Minute
    ensures { result ≡ start_of at window.now }
{
    let day = u64::from(MINUTES_OF_DAY);
    let start = day * at.day().number() + u64::from(window.from);
    let start = start.saturating_sub(day * u64::from(window.day_back));
    Minute::new(start.max(FIRST_MINUTE).min(LAST_MINUTE)).unwrap()
}

/// Adds a window: its job and its first minute.
#[tactic(auto, unfolding(crate::specs::Refused::window_text))]
pub fn push_window(
    alloc: Global,
    text: &mut Vec<u8>,
    plan: &Plan,
    at: Minute,
    window: &Window,
) -> Result<(), AllocError>
    ensures { OnOk result (text.new.items ≡ text.old.items ++ window_text plan.now at window.now) }
{
    push_window_name(alloc, text, plan, usize::from(window.job))?;
    text.extend_from_slice(&date_text(start_of(at, window)))
}

#[tactic(auto, unfolding(crate::specs::Refused::both_text))]
fn push_both(
    alloc: Global,
    text: &mut Vec<u8>,
    plan: &Plan,
    at: Minute,
    one: &Window,
    other: &Window,
) -> Result<(), AllocError>
    ensures { OnOk result (text.new.items
        ≡ text.old.items ++ both_text plan.now at one.now other.now) }
{
    push_window(alloc, text, plan, at, one)?;
    text.extend_from_slice(b" and ")?;
    push_window(alloc, text, plan, at, other)
}

/// Nothing if there is no such group.
fn group_name(plan: &Plan, group: usize) -> &[u8]
    ensures { result.now ≡ group_name plan.now group }
{
    match plan.groups().get(group) {
        Some(group) => group.name(),
        None => b"",
    }
}

#[tactic(auto, unfolding(crate::specs::Refused::rise_text))]
fn push_rise(text: &mut Vec<u8>, plan: &Plan, group: usize, at: Minute) -> Result<(), AllocError>
    ensures { OnOk result (text.new.items ≡ text.old.items ++ rise_text plan.now group at) }
{
    let name = group_name(plan, group);
    text.extend_from_slice(b"group ")?;
    text.extend_from_slice(name)?;
    push_at(text, at)
}

#[tactic(auto, unfolding(crate::specs::Refused::unlisted_text))]
fn push_unlisted(
    alloc: Global,
    text: &mut Vec<u8>,
    plan: &Plan,
    window: &Window,
    at: Minute,
) -> Result<(), AllocError>
    ensures { OnOk result (text.new.items
        ≡ text.old.items ++ unlisted_text plan.now window.now at) }
{
    push_window(alloc, text, plan, at, window)?;
    push_at(text, at)
}

#[tactic(auto, unfolding(crate::specs::Refused::collision_text))]
fn push_collision(
    alloc: Global,
    text: &mut Vec<u8>,
    plan: &Plan,
    at: Minute,
    one: &Window,
    other: &Window,
) -> Result<(), AllocError>
    ensures { OnOk result (text.new.items
        ≡ text.old.items ++ collision_text plan.now at one.now other.now) }
{
    push_both(alloc, text, plan, at, one, other)?;
    text.extend_from_slice(b" meet")?;
    push_at(text, at)
}

#[tactic(auto, unfolding(crate::specs::Refused::overload_text))]
fn push_overload(
    alloc: Global,
    text: &mut Vec<u8>,
    plan: &Plan,
    at: Minute,
    load: u128,
) -> Result<(), AllocError>
    ensures { OnOk result (text.new.items ≡ text.old.items ++ overload_text plan.now at load) }
{
    push_number(alloc, text, load)?;
    text.extend_from_slice(b" of ")?;
    push_number(alloc, text, u128::from(plan.capacity()))?;
    push_at(text, at)
}

fn rule_text(fault: &CheckFault) -> &'static str
    ensures { result.now ≡ rule_text (told fault.now) }
{
    match fault {
        CheckFault::ClassNotDue(_) => "refused 1 ClassNotDue: ",
        CheckFault::MissingPair(_) => "refused 2 MissingPair: ",
        CheckFault::BacklogRises { group: _, at: _ } => "refused 3 BacklogRises: ",
        CheckFault::ReachTooShort { job: _ } => "refused 4 ReachTooShort: ",
        CheckFault::WindowMissing { window: _, at: _ } => "refused 5 WindowMissing: ",
        CheckFault::Collision {
            at: _,
            one: _,
            other: _,
        } => "refused 6 Collision: ",
        CheckFault::OverCapacity { at: _, load: _ } => "refused 7 OverCapacity: ",
        CheckFault::SkipBlocked {
            at: _,
            skip: _,
            other: _,
        } => "refused 8 SkipBlocked: ",
    }
}

fn push_place(
    alloc: Global,
    text: &mut Vec<u8>,
    plan: &Plan,
    fault: &CheckFault,
) -> Result<(), AllocError>
    ensures { OnOk result (text.new.items
        ≡ text.old.items ++ place_text plan.now (told fault.now)) }
{
    match fault {
        CheckFault::ClassNotDue(kind) => push_kind(alloc, text, *kind),
        CheckFault::MissingPair(kinds) => push_kinds(alloc, text, kinds.as_slice()),
        CheckFault::BacklogRises { group, at } => push_rise(text, plan, *group, *at),
        CheckFault::ReachTooShort { job } => push_command_name(alloc, text, plan, *job),
        CheckFault::WindowMissing { window, at } => push_unlisted(alloc, text, plan, window, *at),
        CheckFault::Collision { at, one, other } => {
            push_collision(alloc, text, plan, *at, one, other)
        }
        CheckFault::OverCapacity { at, load } => push_overload(alloc, text, plan, *at, *load),
        CheckFault::SkipBlocked { at, skip, other } => {
            push_both(alloc, text, plan, *at, skip, other)
        }
    }
}

/// Formats why a certificate is refused, in one line without a newline: the rule by number and
/// name, then the place.
///
/// A window is `line N due DT` or `catch-up of ID from DT`, and DT is `YYYY-MM-DD HH:MM`.
#[tactic(auto, unfolding(crate::specs::Refused::fault_text))]
pub fn fault_text(alloc: Global, plan: &Plan, fault: &CheckFault) -> Result<Bytes, AllocError>
    ensures { IfOk result (λ text. text ≡ fault_text plan.now (told fault.now)) }
{
    let mut text = Vec::new(alloc);
    text.extend_from_slice(rule_text(fault).as_bytes())?;
    push_place(alloc, &mut text, plan, fault)?;
    Ok(Bytes::from_vec(text))
}
