//! Tables over the minutes of the last day: sums or maxima over the windows that hold a minute.
ghost use Rattle.std.specs.Prelude.{◌≡◌, ◌+◌, ◌*◌, ◌<◌, ◌≤◌, ◌⊎◌, ℕ, if◌then◌else◌, length, max, slice_index};
ghost use Rattle.cs_overlap.specs.Sums.{AreAtMost, EachMinute, HoldsFrom, IsChanged, IsDay, IsGreatest, IsRaisedAt, IsReached, IsRunning, IsSum, amount_in, amount_of, capped, up_to};

use crate::quiet::day_start;
use crate::role::{Role, role_of};
use cs_civil::MINUTES_OF_DAY;
use cs_windows::Window;

pub(crate) const MINUTES: usize = MINUTES_OF_DAY as usize;

/// A place for each minute of a day, and one for its end.
pub(crate) const PLACES: usize = MINUTES + 1;

/// The most windows that are counted by where they begin and end: their amounts, each at most 255,
/// sum to less than 2^32.
pub(crate) const MOST_TALLIED: usize = 16_777_216;

/// What is added for a run: its weight, or one.
#[derive(Clone, Copy)]
pub(crate) enum Amount {
    /// The weight of a cron job's run that takes no lock.
    FreeWeight,
    /// The weight of a catch-up run.
    CatchWeight,
    /// The weight of a run that holds its lock alone.
    AloneWeight,
    /// The weight of a run that shares its lock.
    SharedWeight,
    /// The weight of a cron job's run, and of a catch-up run that takes a lock.
    OwnWeight,
    /// One for each run.
    Run,
    /// One for a run that takes no lock.
    PlainRun,
    /// One for a run of a cron job.
    CronRun,
    /// One for a run that takes a lock.
    LockRun,
}

fn counted(is_counted: bool, number: u8) -> u8
    ensures { result ≡ (if is_counted then number else 0) }
{
    if is_counted { number } else { 0 }
}

pub(crate) fn amount_of(amount: Amount, role: Role) -> u8
    ensures { result ≡ amount_of amount role }
{
    match amount {
        Amount::FreeWeight => counted(role.is_cron && !role.mode.takes_lock(), role.weight),
        Amount::CatchWeight => counted(!role.is_cron, role.weight),
        Amount::AloneWeight => counted(role.mode.takes_lock() && !role.mode.shares(), role.weight),
        Amount::SharedWeight => counted(role.mode.takes_lock() && role.mode.shares(), role.weight),
        Amount::OwnWeight => counted(role.is_cron || role.mode.takes_lock(), role.weight),
        Amount::Run => 1,
        Amount::PlainRun => counted(!role.mode.takes_lock(), 1),
        Amount::CronRun => counted(role.is_cron, 1),
        Amount::LockRun => counted(role.mode.takes_lock(), 1),
    }
}

/// The minutes of the last day that a window holds: from the first on, below the second. Most
/// windows begin on that day, and then no day is subtracted.
pub(crate) fn minutes_held(window: &Window) -> (usize, usize)
    ensures range { (result.0 ≤ result.1) × (result.1 ≤ 1440) }
    ensures held { HoldsFrom window.now result.0 result.1 }
{
    let from = u32::from(window.from);
    if window.day_back == 0 {
        let end = (from + u32::from(window.reach)).min(u32::from(MINUTES_OF_DAY));
        return (from.min(end) as usize, end as usize);
    }
    let day = day_start(window);
    let end = (from + u32::from(window.reach))
        .saturating_sub(day)
        .min(u32::from(MINUTES_OF_DAY));
    let first = from.saturating_sub(day).min(end);
    (first as usize, end as usize)
}

fn add(table: &mut [u16], window: &Window, number: u8)
    requires { IsDay table.old }
    ensures { IsChanged window.now (λ n. capped (n + number)) table.old table.new }
{
    if number == 0 {
        return;
    }
    let (first, end) = minutes_held(window);
    for minute in first..end {
        table[minute] = table[minute].saturating_add(u16::from(number));
    }
}

fn first_unknown(first: usize, since: usize, until: usize) -> usize
    ensures from { first ≤ result }
    ensures known { (m : ℕ) → first ≤ m → m < result → (since ≤ m) × (m < until) }
{
    if since <= first {
        first.max(until)
    } else {
        first
    }
}

/// Raises each minute from `first` on, below `end`, to the number, if it is less. Those from
/// `since` on, below `until`, have it already, and are passed over.
fn raise(table: &mut [u16], first: usize, end: usize, number: u8, since: usize, until: usize)
    requires day { IsDay table.old }
    requires inside { end ≤ 1440 }
    requires known { IsReached number since until table.old }
    ensures long { length table.new ≡ length table.old }
    ensures held { (m : ℕ) → first ≤ m → m < end
        → slice_index table.new m ≡ max (slice_index table.old m) number }
    ensures other { (m : ℕ) → (first ≤ m → m < end → ⊥)
        → slice_index table.new m ≡ slice_index table.old m }
{
    let start = first_unknown(first, since, until);
    for minute in start..end {
        table[minute] = table[minute].max(u16::from(number));
    }
}

/// Notes that a table has the number from `first` on, below `end`: joined with the minutes noted
/// before if they meet, else in their place.
fn note(since: &mut [usize], until: &mut [usize], number: u8, first: usize, end: usize)
    requires long { (length since.old ≡ 256) × (length until.old ≡ 256) }
    ensures long { (length since.new ≡ 256) × (length until.new ≡ 256) }
    ensures noted { (k m : ℕ) → slice_index since.new k ≤ m → m < slice_index until.new k
        → ((slice_index since.old k ≤ m) × (m < slice_index until.old k))
        ⊎ ((k ≡ number) × (first ≤ m) × (m < end)) }
{
    let place = usize::from(number);
    if since[place] <= first && first <= until[place] {
        until[place] = until[place].max(end);
    } else {
        since[place] = first;
        until[place] = end;
    }
}

/// The same as [`sums`], for more than [`MOST_TALLIED`] windows.
fn sums_by_minute(roles: &[Role], amount: Amount, windows: &[Window]) -> [u16; MINUTES]
    ensures day { IsDay result }
    ensures each { IsSum (amount_in roles.now amount) windows.now result }
{
    let mut table = [0u16; MINUTES];
    for window in windows {
        add(
            &mut table,
            window,
            amount_of(amount, role_of(roles, window)),
        );
    }
    table
}

/// At each minute of the last day, the greatest of this amount among the windows that hold it. If
/// the windows are in order of start, each minute is looked at once for each amount.
pub(crate) fn greatest(roles: &[Role], amount: Amount, windows: &[Window]) -> [u16; MINUTES]
    ensures day { IsDay result }
    ensures each { IsGreatest (amount_in roles.now amount) windows.now result }
{
    let mut table = [0u16; MINUTES];
    let mut since = [0usize; 256];
    let mut until = [0usize; 256];
    for window in windows {
        let number = amount_of(amount, role_of(roles, window));
        let (first, end) = minutes_held(window);
        let place = usize::from(number);
        raise(&mut table, first, end, number, since[place], until[place]);
        note(&mut since, &mut until, number, first, end);
    }
    table
}

pub(crate) fn raise_at(table: &mut [u32], place: usize, number: u8)
    requires long { length table.old ≡ 1441 }
    requires inside { place ≤ 1440 }
    requires room { slice_index table.old place + 255 < 4294967296 }
    ensures raised { IsRaisedAt place number table.old table.new }
    ensures bound { (most : ℕ) → AreAtMost most table.old → AreAtMost (most + 255) table.new }
{
    table[place] += u32::from(number);
}

pub(crate) fn running(begun: &[u32], ended: &[u32]) -> [u16; MINUTES]
    requires long { (length begun.now ≡ 1441) × (length ended.now ≡ 1441) }
    requires order { EachMinute (λ m. up_to ended.now (m + 1) ≤ up_to begun.now (m + 1)) }
    ensures day { IsDay result }
    ensures each { IsRunning begun.now ended.now result }
{
    let mut table = [0u16; MINUTES];
    let mut open = 0u64;
    for minute in 0..MINUTES {
        open = open + u64::from(begun[minute]) - u64::from(ended[minute]);
        table[minute] = open.min(u64::from(u16::MAX)) as u16;
    }
    table
}

/// At each minute of the last day, the sum of this amount over the windows that hold it, at most
/// 65,535. Each amount is added where the window begins and taken off where it ends, so that the
/// cost doesn't grow with the minutes that windows hold.
pub(crate) fn sums(roles: &[Role], amount: Amount, windows: &[Window]) -> [u16; MINUTES]
    ensures day { IsDay result }
    ensures each { IsSum (amount_in roles.now amount) windows.now result }
{
    if windows.len() > MOST_TALLIED {
        return sums_by_minute(roles, amount, windows);
    }
    let mut begun = [0u32; PLACES];
    let mut ended = [0u32; PLACES];
    for window in windows {
        let number = amount_of(amount, role_of(roles, window));
        let (first, end) = minutes_held(window);
        raise_at(&mut begun, first, number);
        raise_at(&mut ended, end, number);
    }
    running(&begun, &ended)
}
