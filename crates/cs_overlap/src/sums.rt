//! How long the windows of one stretch keep each rule, by sums over the minutes of the last day.
ghost use Rattle.std.specs.Prelude.{ℕ, ◌≡◌, ◌≤◌, ◌⊎◌, IfOk, IsTrue, false, filter, slice_index, true};
ghost use Rattle.std.specs.List.{AllByRecursion};
ghost use Rattle.cs_history.specs.Plan.{is_skip};
ghost use Rattle.cs_overlap.specs.Roles.{role_at};
ghost use Rattle.cs_overlap.specs.Sums.{AreApartBy, AreFreeBy, AreGrouped, AreWithinBy, IsAdded, IsCaught, IsDay, IsGreaterAdded, IsLone, IsSum, Locks, NoneClash, NotExclusive, Until, amount_in, has_group_or_catches, is_of};
ghost use Rattle.cs_overlap.specs.declared.table.Amount.TheVariants.{OwnWeight};

use crate::quiet::Quiet;
use crate::role::{Role, role_of};
use crate::split::own_and_others;
use crate::table::{Amount, MINUTES, greatest, sums};
use cs_civil::MINUTES_OF_DAY;
use cs_windows::Window;
use std::alloc::{AllocError, Global};

fn windows_of(
    alloc: Global,
    roles: &[Role],
    group: usize,
    windows: &[Window],
) -> Result<Vec<Window>, AllocError>
    ensures { IfOk result (λ found. found.items ≡ filter (is_of roles.now group) windows.now) }
{
    let mut found = Vec::new(alloc);
    for window in windows {
        if is_of(roles, group, window) {
            found.push(*window)?;
        }
    }
    Ok(found)
}

pub(crate) fn is_of(roles: &[Role], group: usize, window: &Window) -> bool
    ensures { result ≡ is_of roles.now group window.now }
{
    match role_of(roles, window).group {
        Some(number) => usize::from(number) == group,
        None => false,
    }
}

/// Checks whether windows may clash: some job's group is exclusive, and some job with a group takes
/// no lock.
fn may_clash(roles: &[Role], windows: &[Window]) -> bool
    ensures { result ≡ false → AllByRecursion (NotExclusive roles.now) windows.now
        ⊎ AllByRecursion (Locks roles.now) windows.now }
{
    let mut any_exclusive = false;
    let mut any_plain = false;
    for window in windows {
        let role = role_of(roles, window);
        any_exclusive = any_exclusive || role.is_exclusive;
        any_plain = any_plain || (role.group.is_some() && !role.mode.takes_lock());
    }
    any_exclusive && any_plain
}

fn first_clash(runs: &[u16], plain: &[u16], cron: &[u16]) -> u16
    requires { IsDay runs.now × IsDay plain.now × IsDay cron.now }
    ensures range { result ≤ 1440 }
    ensures none { NoneClash result runs.now plain.now cron.now }
{
    for minute in 0..MINUTES {
        if runs[minute] > 1 && plain[minute] > 0 && cron[minute] > 0 {
            return minute as u16;
        }
    }
    MINUTES_OF_DAY
}

/// A minute before which no two windows clash. It may be less than it could be where they are of
/// several groups.
fn apart_until(roles: &[Role], windows: &[Window]) -> u16
    ensures range { result ≤ 1440 }
    ensures apart { AreApartBy result roles.now windows.now }
{
    if !may_clash(roles, windows) {
        return MINUTES_OF_DAY;
    }
    let runs = sums(roles, Amount::Run, windows);
    let plain = sums(roles, Amount::PlainRun, windows);
    let cron = sums(roles, Amount::CronRun, windows);
    first_clash(&runs, &plain, &cron)
}

/// The minute at which this window begins, if it is a skip job's that is due on the last day while
/// several runs take a lock; else the end of the day.
fn lone_until(roles: &[Role], takers: &[u16], window: &Window) -> u16
    requires { IsDay takers.now }
    ensures range { result ≤ 1440 }
    ensures lone { IsLone result roles.now takers.now window.now }
{
    if !role_of(roles, window).mode.is_skip() || window.day_back > 0 {
        return MINUTES_OF_DAY;
    }
    match takers.get(usize::from(window.from)) {
        Some(number) => {
            if *number > 1 {
                window.from
            } else {
                MINUTES_OF_DAY
            }
        }
        None => MINUTES_OF_DAY,
    }
}

fn all_lone_until(roles: &[Role], takers: &[u16], windows: &[Window]) -> u16
    requires { IsDay takers.now }
    ensures range { result ≤ 1440 }
    ensures lone { AllByRecursion (IsLone result roles.now takers.now) windows.now }
{
    let mut end = MINUTES_OF_DAY;
    for window in windows {
        end = end.min(lone_until(roles, takers, window));
    }
    end
}

fn any_skips(roles: &[Role], windows: &[Window]) -> bool
    ensures { result ≡ false
        → AllByRecursion (λ w. is_skip (role_at roles.now w.job).mode ≡ false) windows.now }
{
    for window in windows {
        if role_of(roles, window).mode.is_skip() {
            return true;
        }
    }
    false
}

/// A minute before which no window keeps the lock from a skip job. It may be less than it could be
/// where they are of several groups.
fn free_until(roles: &[Role], windows: &[Window]) -> u16
    ensures range { result ≤ 1440 }
    ensures free { AreFreeBy result roles.now windows.now }
{
    if !any_skips(roles, windows) {
        return MINUTES_OF_DAY;
    }
    let takers = sums(roles, Amount::LockRun, windows);
    all_lone_until(roles, &takers, windows)
}

/// Numbers that don't fit in 16 bits stay at the greatest.
fn add_greater(load: &mut [u16], one: &[u16], other: &[u16])
    requires { IsDay load.old × IsDay one.now × IsDay other.now }
    ensures each { IsGreaterAdded one.now other.now load.old load.new }
    ensures day { IsDay load.new }
{
    for minute in 0..MINUTES {
        load[minute] = load[minute].saturating_add(one[minute].max(other[minute]));
    }
}

fn first_over(load: &[u16], capacity: u8) -> u16
    requires { IsDay load.now }
    ensures range { result ≤ 1440 }
    ensures within { Until result (λ m. slice_index load.now m ≤ capacity) }
{
    for minute in 0..MINUTES {
        if load[minute] > u16::from(capacity) {
            return minute as u16;
        }
    }
    MINUTES_OF_DAY
}

fn add_catch_up(table: &mut [u16], roles: &[Role], windows: &[Window], others: &[Window])
    requires day { IsDay table.old }
    requires others { others.now ≡ filter (has_group_or_catches roles.now) windows.now }
    ensures day { IsDay table.new }
    ensures each { IsCaught roles.now windows.now table.old table.new }
{
    let catch_up = greatest(roles, Amount::CatchWeight, others);
    add_greater(table, &catch_up, &catch_up);
}

fn add_group(load: &mut [u16], roles: &[Role], windows: &[Window], is_asked: bool)
    requires { IsDay load.old }
    ensures each { is_asked ≡ true → IsAdded roles.now windows.now load.old load.new }
    ensures day { IsDay load.new }
{
    if !is_asked || windows.is_empty() {
        return;
    }
    let alone = greatest(roles, Amount::AloneWeight, windows);
    let shared = sums(roles, Amount::SharedWeight, windows);
    add_greater(load, &alone, &shared);
}

/// For each rule, a minute of the last day before which the windows of a stretch keep it: its
/// finder begins there.
#[derive(Clone, Copy)]
pub(crate) struct KeptUntil {
    pub(crate) apart: u16,
    pub(crate) within: u16,
    pub(crate) free: u16,
}

/// Looks at all groups at once, as if each window that takes a lock weighed beside all others.
/// Nearly always this shows that the whole day keeps each rule.
fn quick_until(
    roles: &[Role],
    capacity: u8,
    most: &mut [u16],
    windows: &[Window],
    others: &[Window],
) -> KeptUntil
    requires most { IsDay most.old × IsSum (amount_in roles.now OwnWeight) windows.now most.old }
    requires others { others.now ≡ filter (has_group_or_catches roles.now) windows.now }
    ensures range { (result.apart ≤ 1440) × (result.within ≤ 1440) × (result.free ≤ 1440) }
    ensures apart { AreApartBy result.apart roles.now others.now }
    ensures within { (n : ℕ) → AreWithinBy result.within roles.now n capacity windows.now }
    ensures free { AreFreeBy result.free roles.now others.now }
{
    add_catch_up(most, roles, windows, others);
    KeptUntil {
        apart: apart_until(roles, others),
        within: first_over(most, capacity),
        free: free_until(roles, others),
    }
}

/// The groups are looked at one by one only where all at once don't show that the day is kept.
pub(crate) fn kept_until(
    alloc: Global,
    roles: &[Role],
    groups: usize,
    capacity: u8,
    windows: &[Window],
) -> Result<KeptUntil, AllocError>
    requires grouped { AreGrouped roles.now groups }
    ensures range { IfOk result (λ kept.
        (kept.apart ≤ 1440) × (kept.within ≤ 1440) × (kept.free ≤ 1440)) }
    ensures apart { IfOk result (λ kept. AreApartBy kept.apart roles.now windows.now) }
    ensures within { IfOk result (λ kept.
        AreWithinBy kept.within roles.now groups capacity windows.now) }
    ensures free { IfOk result (λ kept. AreFreeBy kept.free roles.now windows.now) }
{
    let (mut most, others) = own_and_others(alloc, roles, windows)?;
    let others = others.as_slice();
    let quick = quick_until(roles, capacity, &mut most, windows, others);
    if quick.apart.min(quick.within).min(quick.free) == MINUTES_OF_DAY {
        return Ok(quick);
    }
    let is_asked = quick.within < MINUTES_OF_DAY;
    let mut load = sums(roles, Amount::FreeWeight, windows);
    add_catch_up(&mut load, roles, windows, others);
    let mut apart = MINUTES_OF_DAY;
    let mut free = MINUTES_OF_DAY;
    for group in 0..groups {
        let found = windows_of(alloc, roles, group, others)?;
        let found = found.as_slice();
        add_group(&mut load, roles, found, is_asked);
        apart = apart.min(apart_until(roles, found));
        free = free.min(free_until(roles, found));
    }
    Ok(KeptUntil {
        apart,
        within: quick.within.max(first_over(&load, capacity)),
        free,
    })
}

pub(crate) fn quiet_by_sums(
    alloc: Global,
    roles: &[Role],
    groups: usize,
    capacity: u8,
    windows: &[Window],
) -> Result<Quiet, AllocError>
    requires grouped { AreGrouped roles.now groups }
    ensures apart { IfOk result (λ quiet. IsTrue quiet.is_apart
        → AreApartBy 1440 roles.now windows.now) }
    ensures within { IfOk result (λ quiet. IsTrue quiet.is_within
        → AreWithinBy 1440 roles.now groups capacity windows.now) }
    ensures free { IfOk result (λ quiet. IsTrue quiet.is_free
        → AreFreeBy 1440 roles.now windows.now) }
{
    let kept = kept_until(alloc, roles, groups, capacity, windows)?;
    Ok(Quiet {
        is_apart: kept.apart == MINUTES_OF_DAY,
        is_within: kept.within == MINUTES_OF_DAY,
        is_free: kept.free == MINUTES_OF_DAY,
    })
}
