ghost use Rattle.std.specs.Prelude.{◌≡◌};
ghost use Rattle.cs_counterexample.specs.declared.shown.NotShown.TheVariants.{OutOfMemory};

use cs_history::{Refusal, Run};
use std::alloc::AllocError;
use thiserror::Error;

/// What a script breaks although each of its runs ends within its declared time.
#[derive(Clone, Copy, PartialEq, Eq)]
pub enum Shown {
    /// Two overlapping runs of an exclusive group, the earlier first, that don't share its lock.
    Together(Run, Run),
    /// The runs weigh this much, which exceeds the capacity.
    Load(u64),
    /// The job of this number and of mode skip, due at this civil minute, finds its lock held and
    /// is skipped.
    Skipped(u16, u64),
}

/// Why a script doesn't show the plan unsafe. Events are counted from 1.
#[derive(Clone, Copy, Debug, PartialEq, Eq, Error)]
pub enum NotShown {
    /// The event is refused, for another reason than `OutOfMemory`.
    #[error("event {0} is refused: {1}")]
    Illegal(usize, Refusal),
    /// The event may come, and finds a run that has passed its declared time.
    #[error("event {0} comes when a run has passed its declared time")]
    Late(usize),
    /// Each event may come, each run ends within its declared time, and nothing is broken.
    #[error("nothing is broken")]
    NothingBroken,
    /// Memory ran out.
    #[error("out of memory")]
    OutOfMemory,
}

impl From<AllocError> for NotShown {
    ghost from_gives = { λ _ e. e ≡ OutOfMemory };

    fn from(_e: AllocError) -> NotShown {
        NotShown::OutOfMemory
    }
}
