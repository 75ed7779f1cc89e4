//! How long the runs of a job may take while the plan stays safe.
ghost use Rattle.std.specs.Prelude.{◌≡◌, ◌≤◌, ◌<◌, ◌+◌, IfOk, length, true};
ghost use Rattle.cs_advise.specs.Changed.{with_max};
ghost use Rattle.cs_plan.specs.declared.limits.TheConstants.{MAX_MINUTES};
ghost use Rattle.cs_judge.specs.Called.{IsCalledSafe};
ghost use Rattle.cs_advise.specs.Room.{IsRoom};

use crate::gap::gap_of;
use crate::longer::with_max;
use cs_judge::is_called_safe;
use cs_maker::{Maker, Outlook};
use cs_plan::{MAX_MINUTES, Plan};
use std::alloc::{AllocError, Global};
use std::thread::Threads;

/// So many tries leave one longest time: each but the first halves what is left.
const HALVINGS: u8 = 14;

/// How many longest times more are tried that other windows suggest.
const SUGGESTED: u8 = 16;

/// What a job of a safe plan has to spare, in minutes.
#[derive(Clone, Copy)]
pub struct Room {
    /// The number of the job in its plan.
    pub job: u16,
    /// The declared longest time.
    pub max: u16,
    /// The greatest longest time that was judged safe, all else as declared.
    pub most: u16,
    /// The smallest gap between declared windows of the job and of others of its group; none
    /// without another one, for anacron jobs, and if the plan's zone has summer time.
    pub gap: Option<i32>,
}

fn is_safe_with<R: Threads + Sync>(
    rt: &R,
    alloc: Global,
    plan: &Plan,
    job: u16,
    max: u16,
) -> Result<bool, AllocError>
    requires there { job < length plan.now.jobs }
    requires in_range { (1 ≤ max) × (max ≤ MAX_MINUTES) }
    ensures { IfOk result (λ safe. safe ≡ true → IsCalledSafe (with_max plan.now job max)) }
{
    let changed = with_max(alloc, plan, job, max)?;
    is_called_safe(rt, alloc, &changed)
}

/// The greatest longest time with which the maker has a certificate, whether or not its windows
/// break a rule: with a longer one jobs may have to wait too long. By halving.
fn certified(alloc: Global, plan: &Plan, job: u16, max: u16) -> Result<u16, AllocError>
    requires there { job < length plan.now.jobs }
    requires in_range { (1 ≤ max) × (max ≤ MAX_MINUTES) }
    ensures { IfOk result (λ most. (max ≤ most) × (most ≤ MAX_MINUTES)) }
{
    let mut low = max;
    let mut high = MAX_MINUTES;
    let mut next = MAX_MINUTES;
    for _ in 0..HALVINGS {
        if low == high {
            break;
        }
        let changed = with_max(alloc, plan, job, next)?;
        if Maker::of(alloc, &changed)?.compact(alloc)?.is_some() {
            low = next;
        } else {
            high = next - 1;
        }
        next = high - (high - low) / 2;
    }
    Ok(low)
}

/// The greatest longest time with which no window should break a rule, by the maker, which isn't
/// relied on. Where windows break one, the greatest time comes next with which those of the job
/// don't; else what is left is halved.
fn hoped(alloc: Global, plan: &Plan, job: u16, max: u16) -> Result<u16, AllocError>
    requires there { job < length plan.now.jobs }
    requires in_range { (1 ≤ max) × (max ≤ MAX_MINUTES) }
    ensures { IfOk result (λ most. (max ≤ most) × (most ≤ MAX_MINUTES)) }
{
    let mut low = max;
    let mut high = certified(alloc, plan, job, max)?;
    let mut next = high;
    for tried in 0..SUGGESTED + HALVINGS {
        if low == high {
            break;
        }
        let changed = with_max(alloc, plan, job, next)?;
        let outlook = Maker::of(alloc, &changed)?.outlook(alloc, job)?;
        match outlook {
            Outlook::Safe => {
                low = next;
                next = high - (high - low) / 2;
            }
            Outlook::Broken(Some(most)) if tried < SUGGESTED => {
                high = most.min(next - 1).max(low);
                next = high;
            }
            Outlook::Broken(_) | Outlook::Unbounded => {
                high = next - 1;
                next = high - (high - low) / 2;
            }
        }
    }
    Ok(low)
}

/// The greatest time is judged at once for a job without a group, since most such jobs have it. Else
/// what the maker hopes is judged; without hope there is only what is declared.
#[tactic(auto, using(crate::proofs::Own::safe_with_own))]
pub(crate) fn room_of<R: Threads + Sync>(
    rt: &R,
    alloc: Global,
    plan: &Plan,
    job: u16,
) -> Result<Room, AllocError>
    requires there { job < length plan.now.jobs }
    requires safe { IsCalledSafe plan.now }
    ensures job { IfOk result (λ room. room.job ≡ job) }
    ensures room { IfOk result (IsRoom plan.now) }
{
    let max = plan.job_at(job).max();
    let is_free = plan.job_at(job).group().is_none();
    let most = if is_free && is_safe_with(rt, alloc, plan, job, MAX_MINUTES)? {
        MAX_MINUTES
    } else {
        let hoped = hoped(alloc, plan, job, max)?;
        if max < hoped && is_safe_with(rt, alloc, plan, job, hoped)? {
            hoped
        } else {
            max
        }
    };
    let gap = gap_of(plan, job);
    Ok(Room {
        job,
        max,
        most,
        gap,
    })
}
