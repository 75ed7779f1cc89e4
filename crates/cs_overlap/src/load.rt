ghost use Rattle.std.specs.Prelude.{◌≡◌, ℕ, ◌+◌, ◌*◌, ◌^◌, ◌<◌, ◌≤◌, ◌↔◌, IsTrue, max, length, slice_index};
ghost use Rattle.cs_history.specs.Lists.{total, greatest, below};
ghost use Rattle.cs_overlap.specs.Roles.{free_weight, alone_weight, shared_weight, catch_weight, load_by};

use crate::role::{Role, role_of};
use cs_windows::Window;

const GROUPS: usize = 64;

fn free_weight(roles: &[Role], window: &Window) -> u8
    ensures { result ≡ free_weight roles.now window.now }
{
    let role = role_of(roles, window);
    if role.is_cron && !role.mode.takes_lock() {
        role.weight
    } else {
        0
    }
}

fn catch_weight(roles: &[Role], window: &Window) -> u8
    ensures { result ≡ catch_weight roles.now window.now }
{
    let role = role_of(roles, window);
    if role.is_cron { 0 } else { role.weight }
}

fn free_load(roles: &[Role], windows: &[Window]) -> u128
    ensures sum { result ≡ total (free_weight roles.now) windows.now }
    ensures small { result < 2 ^ 100 }
{
    let mut sum = 0u128;
    for window in windows {
        sum += u128::from(free_weight(roles, window));
    }
    sum
}

fn catch_load(roles: &[Role], windows: &[Window]) -> u8
    ensures { result ≡ greatest (catch_weight roles.now) windows.now }
{
    let mut most = 0u8;
    for window in windows {
        most = most.max(catch_weight(roles, window));
    }
    most
}

/// The greatest weight of the windows of each group that hold its lock alone.
fn alone_loads(roles: &[Role], windows: &[Window]) -> [u8; GROUPS]
    ensures long { length result ≡ 64 }
    ensures each { (g : ℕ) → g < 64
        → slice_index result g ≡ greatest (alone_weight roles.now g) windows.now }
{
    let mut table = [0u8; GROUPS];
    for window in windows {
        let role = role_of(roles, window);
        if role.mode.takes_lock() && !role.mode.shares() {
            if let Some(g) = role.group {
                if g < 64 && table[usize::from(g)] < role.weight {
                    table[usize::from(g)] = role.weight;
                }
            }
        }
    }
    table
}

/// The sum of the weights of the windows of each group that share its lock.
fn shared_loads(roles: &[Role], windows: &[Window]) -> [u128; GROUPS]
    ensures long { length result ≡ 64 }
    ensures each { (g : ℕ) → g < 64
        → slice_index result g ≡ total (shared_weight roles.now g) windows.now }
    ensures small { (g : ℕ) → g < 64 → slice_index result g < 2 ^ 100 }
{
    let mut table = [0u128; GROUPS];
    for window in windows {
        let role = role_of(roles, window);
        if role.mode.takes_lock() && role.mode.shares() {
            if let Some(g) = role.group {
                if g < 64 {
                    table[usize::from(g)] += u128::from(role.weight);
                }
            }
        }
    }
    table
}

fn group_load(alone: &[u8; GROUPS], shared: &[u128; GROUPS], groups: usize) -> u128
    requires few { groups ≤ 64 }
    requires long { (length alone.now ≡ 64) × (length shared.now ≡ 64) }
    requires small { (g : ℕ) → g < 64 → slice_index shared.now g < 2 ^ 100 }
    ensures sum { result
        ≡ total (λ g. max (slice_index alone.now g) (slice_index shared.now g)) (below groups) }
    ensures small { result < 2 ^ 110 }
{
    let mut sum = 0u128;
    for group in 0..groups {
        sum += u128::from(alone[group]).max(shared[group]);
    }
    sum
}

/// The load of the windows: each without a lock; of each group the heaviest that holds its lock
/// alone or the sum of those that share it, whichever is more; and the heaviest of catch-up.
pub(crate) fn load(roles: &[Role], groups: usize, windows: &[Window]) -> u128
    requires few { groups ≤ 64 }
    ensures { result ≡ load_by roles.now groups windows.now }
{
    let alone = alone_loads(roles, windows);
    let shared = shared_loads(roles, windows);
    free_load(roles, windows)
        + group_load(&alone, &shared, groups)
        + u128::from(catch_load(roles, windows))
}
