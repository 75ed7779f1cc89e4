//! One pass over all windows of a stretch: what each may weigh, and the few to look at again.
ghost use Rattle.std.specs.Prelude.{◌≡◌, ◌++◌, IfOk, [], ◌∷◌, filter, if◌then◌else◌, map};
ghost use Rattle.cs_overlap.specs.Split.{share_at, share_in};
ghost use Rattle.cs_overlap.specs.Sums.{IsDay, IsSum, amount_in, has_group_or_catches};
ghost use Rattle.cs_overlap.specs.declared.table.Amount.TheVariants.{OwnWeight};

use crate::role::{Role, role_of};
use crate::table::{
    Amount, MINUTES, MOST_TALLIED, PLACES, amount_of, minutes_held, raise_at, running, sums,
};
use cs_windows::Window;
use std::alloc::{AllocError, Global};

#[derive(Clone, Copy)]
struct Share {
    /// The weight of each, but 0 for catch-up that takes no lock.
    weight: u8,
    /// Whether each is kept, since the job has a group or is catch-up.
    is_kept: bool,
}

fn share_in(role: Role) -> Share
    ensures { result ≡ share_in role }
{
    Share {
        weight: amount_of(Amount::OwnWeight, role),
        is_kept: !role.is_cron || role.group.is_some(),
    }
}

fn shares(alloc: Global, roles: &[Role]) -> Result<Vec<Share>, AllocError>
    ensures { IfOk result (λ found. found.items ≡ map share_in roles.now) }
{
    let mut found = Vec::new(alloc);
    for role in roles {
        found.push(share_in(*role))?;
    }
    Ok(found)
}

fn share_at(shares: &[Share], window: &Window) -> Share
    ensures { result ≡ share_at shares.now window.now.job }
{
    match shares.get(usize::from(window.job)) {
        Some(share) => *share,
        None => Share {
            weight: 0,
            is_kept: true,
        },
    }
}

fn has_group_or_catches(roles: &[Role], window: &Window) -> bool
    ensures { result ≡ has_group_or_catches roles.now window.now }
{
    let role = role_of(roles, window);
    !role.is_cron || role.group.is_some()
}

fn grouped_or_catch_up(
    alloc: Global,
    roles: &[Role],
    windows: &[Window],
) -> Result<Vec<Window>, AllocError>
    ensures { IfOk result (λ found.
        found.items ≡ filter (has_group_or_catches roles.now) windows.now) }
{
    let mut found = Vec::new(alloc);
    for window in windows {
        if has_group_or_catches(roles, window) {
            found.push(*window)?;
        }
    }
    Ok(found)
}

fn keep(others: &mut Vec<Window>, is_kept: bool, window: &Window) -> Result<(), AllocError>
    ensures { IfOk result (λ _.
        others.new.items ≡ others.old.items ++ (if is_kept then window.now ∷ [] else [])) }
{
    if is_kept {
        others.push(*window)?;
    }
    Ok(())
}

/// The weight at each minute of all windows but those of catch-up that takes no lock; and in order
/// the windows of catch-up and of jobs with a group, usually a few of all. Each weight is added
/// where the window begins and taken off where it ends, so that the cost doesn't grow with the
/// minutes that windows hold.
pub(crate) fn own_and_others(
    alloc: Global,
    roles: &[Role],
    windows: &[Window],
) -> Result<([u16; MINUTES], Vec<Window>), AllocError>
    ensures day { IfOk result (λ found. IsDay found.0) }
    ensures each { IfOk result (λ found.
        IsSum (amount_in roles.now OwnWeight) windows.now found.0) }
    ensures others { IfOk result (λ found.
        found.1.items ≡ filter (has_group_or_catches roles.now) windows.now) }
{
    if windows.len() > MOST_TALLIED {
        let others = grouped_or_catch_up(alloc, roles, windows)?;
        return Ok((sums(roles, Amount::OwnWeight, windows), others));
    }
    let shares = shares(alloc, roles)?;
    let mut others = Vec::new(alloc);
    let mut begun = [0u32; PLACES];
    let mut ended = [0u32; PLACES];
    for window in windows {
        let share = share_at(shares.as_slice(), window);
        let (first, end) = minutes_held(window);
        raise_at(&mut begun, first, share.weight);
        raise_at(&mut ended, end, share.weight);
        keep(&mut others, share.is_kept, window)?;
    }
    Ok((running(&begun, &ended), others))
}
