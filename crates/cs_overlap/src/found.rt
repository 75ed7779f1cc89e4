//! Finds the first fault in the windows of one stretch. Sums say up to which minute there is none;
//! from there on each minute is looked at as the rules say.
ghost use Rattle.std.specs.Prelude.{◌≡◌, ◌≤◌, ◌<◌, ◌&&◌, ◌==◌, IfOk, Some, false, find, not, true};
ghost use Rattle.std.specs.List.{AllByRecursion};
ghost use Rattle.cs_history.specs.Plan.{is_skip, takes};
ghost use Rattle.cs_theorem.specs.Faults.{first_of, first_pair, missing_in};
ghost use Rattle.cs_windows.specs.Entries.{lists};
ghost use Rattle.cs_windows.specs.Tree.{SplitsInside, tree_of};
ghost use Rattle.cs_theorem.specs.Windows.{holders};
ghost use Rattle.cs_overlap.specs.Roles.{role_at};
ghost use Rattle.cs_overlap.specs.Sums.{AreGrouped, is_of};
ghost use Rattle.cs_overlap.specs.Found.{blocked_at, blocked_by, blocked_of, clash_in, collision_at, collision_of, collision_by, missing_at, overload_at, overload_by, role_blocks};

use crate::load::load;
use crate::role::{Role, clash, role_of, share_group};
use crate::sums::{is_of, kept_until};
use cs_civil::MINUTES_OF_DAY;
use cs_windows::{Entry, MinuteTree, Window, lists, touches};
use std::alloc::{AllocError, Global};

fn holders(alloc: Global, windows: &[Window], minute: u16) -> Result<Vec<Window>, AllocError>
    requires { minute < 1440 }
    ensures { IfOk result (λ held. held.items ≡ holders minute windows.now) }
{
    let mut held = Vec::new(alloc);
    for window in windows {
        if touches(window, minute, minute + 1) {
            held.push(*window)?;
        }
    }
    Ok(held)
}

fn clash_in(roles: &[Role], group: usize, one: &Window, other: &Window) -> bool
    ensures { result ≡ clash_in roles.now group one.now other.now }
{
    is_of(roles, group, one) && clash(role_of(roles, one), role_of(roles, other))
}

fn rival_of(roles: &[Role], group: usize, one: &Window, others: &[Window]) -> Option<Window>
    ensures { result ≡ find (clash_in roles.now group one.now) others.now }
{
    if !is_of(roles, group, one) {
        return None;
    }
    if !role_of(roles, one).is_exclusive {
        return None;
    }
    for other in others {
        if clash_in(roles, group, one, other) {
            return Some(*other);
        }
    }
    None
}

fn first_clash(roles: &[Role], group: usize, held: &[Window]) -> Option<(Window, Window)>
    ensures { result ≡ first_pair (clash_in roles.now group) held.now }
{
    for (place, one) in held.iter().enumerate() {
        if let Some(other) = rival_of(roles, group, one, &held[place + 1..]) {
            return Some((*one, other));
        }
    }
    None
}

fn any_plain_of(roles: &[Role], group: usize, windows: &[Window]) -> bool
    ensures { result ≡ false → AllByRecursion (λ w. is_of roles.now group w ≡ true
        → takes (role_at roles.now w.job).mode ≡ true) windows.now }
{
    for window in windows {
        if is_of(roles, group, window) && !role_of(roles, window).mode.takes_lock() {
            return true;
        }
    }
    false
}

fn collision_of(
    roles: &[Role],
    group: usize,
    held: &[Window],
    minute: u16,
) -> Option<(u16, Window, Window)>
    ensures { result ≡ collision_of roles.now minute held.now group }
{
    if !any_plain_of(roles, group, held) {
        return None;
    }
    let (one, other) = first_clash(roles, group, held)?;
    Some((minute, one, other))
}

fn collision_at(
    alloc: Global,
    roles: &[Role],
    groups: usize,
    windows: &[Window],
    minute: u16,
) -> Result<Option<(u16, Window, Window)>, AllocError>
    requires { minute < 1440 }
    ensures { IfOk result (λ found. found ≡ collision_at roles.now groups windows.now minute) }
{
    let held = holders(alloc, windows, minute)?;
    for group in 0..groups {
        if let Some(found) = collision_of(roles, group, held.as_slice(), minute) {
            return Ok(Some(found));
        }
    }
    Ok(None)
}

pub(crate) fn collision(
    alloc: Global,
    roles: &[Role],
    groups: usize,
    capacity: u8,
    windows: &[Window],
) -> Result<Option<(u16, Window, Window)>, AllocError>
    requires grouped { AreGrouped roles.now groups }
    ensures { IfOk result (λ found. found ≡ collision_by roles.now groups windows.now) }
{
    let kept = kept_until(alloc, roles, groups, capacity, windows)?;
    for minute in kept.apart..MINUTES_OF_DAY {
        if let Some(found) = collision_at(alloc, roles, groups, windows, minute)? {
            return Ok(Some(found));
        }
    }
    Ok(None)
}

fn overload_at(
    alloc: Global,
    roles: &[Role],
    groups: usize,
    capacity: u8,
    windows: &[Window],
    minute: u16,
) -> Result<Option<(u16, u128)>, AllocError>
    requires few { groups ≤ 64 }
    requires day { minute < 1440 }
    ensures { IfOk result (λ found.
        found ≡ overload_at roles.now groups capacity windows.now minute) }
{
    let held = holders(alloc, windows, minute)?;
    let weight = load(roles, groups, held.as_slice());
    if weight <= u128::from(capacity) {
        return Ok(None);
    }
    Ok(Some((minute, weight)))
}

pub(crate) fn overload(
    alloc: Global,
    roles: &[Role],
    groups: usize,
    capacity: u8,
    windows: &[Window],
) -> Result<Option<(u16, u128)>, AllocError>
    requires few { groups ≤ 64 }
    requires grouped { AreGrouped roles.now groups }
    ensures { IfOk result (λ found. found ≡ overload_by roles.now groups capacity windows.now) }
{
    let kept = kept_until(alloc, roles, groups, capacity, windows)?;
    for minute in kept.within..MINUTES_OF_DAY {
        if let Some(found) = overload_at(alloc, roles, groups, capacity, windows, minute)? {
            return Ok(Some(found));
        }
    }
    Ok(None)
}

fn is_due_skip(roles: &[Role], minute: u16, window: &Window) -> bool
    ensures { result ≡ (is_skip (role_at roles.now window.now.job).mode
        && ((window.now.day_back == 0) && (window.now.from == minute))) }
{
    role_of(roles, window).mode.is_skip() && (window.day_back == 0 && window.from == minute)
}

fn blocks(roles: &[Role], minute: u16, skip: &Window, other: &Window) -> bool
    ensures { result ≡ role_blocks roles.now minute skip.now other.now }
{
    let holder = role_of(roles, other);
    let is_same = skip.job == other.job
        && skip.day_back == other.day_back
        && skip.from == other.from;
    is_due_skip(roles, minute, skip)
        && (!is_same && holder.mode.takes_lock() && share_group(role_of(roles, skip), holder))
}

fn blocker_of(roles: &[Role], minute: u16, skip: &Window, held: &[Window]) -> Option<Window>
    ensures { result ≡ find (role_blocks roles.now minute skip.now) held.now }
{
    for other in held {
        if blocks(roles, minute, skip, other) {
            return Some(*other);
        }
    }
    None
}

fn blocked_by(
    roles: &[Role],
    minute: u16,
    skip: &Window,
    held: &[Window],
) -> Option<(u16, Window, Window)>
    ensures { result ≡ blocked_of roles.now minute held.now skip.now }
{
    if !is_due_skip(roles, minute, skip) {
        return None;
    }
    let other = blocker_of(roles, minute, skip, held)?;
    Some((minute, *skip, other))
}

fn first_blocked(roles: &[Role], minute: u16, held: &[Window]) -> Option<(u16, Window, Window)>
    ensures { result ≡ first_of (blocked_of roles.now minute held.now) held.now }
{
    for skip in held {
        if let Some(found) = blocked_by(roles, minute, skip, held) {
            return Some(found);
        }
    }
    None
}

fn blocked_at(
    alloc: Global,
    roles: &[Role],
    windows: &[Window],
    minute: u16,
) -> Result<Option<(u16, Window, Window)>, AllocError>
    requires { minute < 1440 }
    ensures { IfOk result (λ found. found ≡ blocked_at roles.now windows.now minute) }
{
    let held = holders(alloc, windows, minute)?;
    Ok(first_blocked(roles, minute, held.as_slice()))
}

pub(crate) fn blocked(
    alloc: Global,
    roles: &[Role],
    groups: usize,
    capacity: u8,
    windows: &[Window],
) -> Result<Option<(u16, Window, Window)>, AllocError>
    requires grouped { AreGrouped roles.now groups }
    ensures { IfOk result (λ found. found ≡ blocked_by roles.now windows.now) }
{
    let kept = kept_until(alloc, roles, groups, capacity, windows)?;
    for minute in kept.free..MINUTES_OF_DAY {
        if let Some(found) = blocked_at(alloc, roles, windows, minute)? {
            return Ok(Some(found));
        }
    }
    Ok(None)
}

fn unlisted(entries: &[Entry], held: &[Window]) -> Option<Window>
    ensures { result ≡ find (λ w. not (lists entries.now w)) held.now }
{
    for window in held {
        if !lists(entries, window) {
            return Some(*window);
        }
    }
    None
}

fn missing_at(
    alloc: Global,
    tree: &MinuteTree,
    windows: &[Window],
    minute: u16,
) -> Result<Option<(u16, Window)>, AllocError>
    requires day { minute < 1440 }
    requires splits { SplitsInside (tree_of tree.now) 0 1440 }
    ensures { IfOk result (λ found. found ≡ missing_at (tree_of tree.now) windows.now minute) }
{
    let held = holders(alloc, windows, minute)?;
    match unlisted(tree.leaf_at(minute).entries, held.as_slice()) {
        Some(window) => Ok(Some((minute, window))),
        None => Ok(None),
    }
}

/// Returns the first minute of the day, and the first window that holds it, that the minute's leaf
/// doesn't list.
pub fn missing(
    alloc: Global,
    tree: &MinuteTree,
    windows: &[Window],
) -> Result<Option<(u16, Window)>, AllocError>
    requires { SplitsInside (tree_of tree.now) 0 1440 }
    ensures { IfOk result (λ found. found ≡ missing_in (Some (tree_of tree.now)) windows.now) }
{
    for minute in 0..MINUTES_OF_DAY {
        if let Some(found) = missing_at(alloc, tree, windows, minute)? {
            return Ok(Some(found));
        }
    }
    Ok(None)
}
