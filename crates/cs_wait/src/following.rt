ghost use Rattle.std.specs.Prelude.{◌≡◌, ◌+◌, ◌-◌, ◌<◌, ◌≤◌, ℕ, IfOk, min, slice_index};
ghost use Rattle.cs_wait.specs.Bounds.{at, following};

use crate::arrivals::{Arrivals, next_arrival};
use crate::backlog::{Backlog, MAX_BACKLOG, Piece};
use cs_civil::MINUTES_OF_DAY;
use std::alloc::{AllocError, Global};

impl Backlog {
    /// Returns the backlog that is `first` at minute 0 and follows the arrivals, both in minutes of
    /// runs: each bound is the one before plus the arrivals there, less one, from 0 to
    /// [`MAX_BACKLOG`]. It has a piece only where the bound isn't one less than a minute before.
    /// The only error is out of memory.
    pub fn following(alloc: Global, first: u32, arrivals: &Arrivals) -> Result<Backlog, AllocError>
        requires { first ≤ MAX_BACKLOG }
        ensures value { IfOk result (λ b. b ≡ following first arrivals.now) }
        ensures begins { IfOk result (λ b. at b 0 ≡ first) }
        ensures follows { IfOk result (λ b. (t : ℕ) → t + 1 < 1440
            → at b (t + 1) ≡ min MAX_BACKLOG (at b t + slice_index arrivals.now t - 1)) }
    {
        let sums = arrivals.by_minute();
        let mut list = Vec::new(alloc);
        let mut bound = first;
        let mut shown = 0;
        let mut minute = 0;
        while minute < MINUTES_OF_DAY {
            if bound != shown {
                list.push(Piece {
                    minute,
                    value: bound,
                })?;
            }
            let step = next_arrival(sums, minute, MINUTES_OF_DAY - 1);
            bound = bound.saturating_sub(u32::from(step - minute));
            shown = bound.saturating_sub(1);
            bound = bound_after(bound, sums[usize::from(step)]);
            minute = step + 1;
        }
        Ok(Backlog::of_pieces(list))
    }
}

fn bound_after(bound: u32, arrives: u32) -> u32
    ensures { result ≡ min MAX_BACKLOG (bound + arrives - 1) }
{
    let left = bound.saturating_add(arrives).saturating_sub(1);
    left.min(MAX_BACKLOG)
}
