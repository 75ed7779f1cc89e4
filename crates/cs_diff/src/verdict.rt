//! The verdict on a plan.
ghost use Rattle.std.specs.Prelude.{◌≡◌, IfOk};
ghost use Rattle.cs_diff.specs.Verdict.{IsVerdict, is_worse, rank};

use cs_judge::{Judged, Wanted, judge};
use cs_maker::Reason;
use cs_plan::Plan;
use std::alloc::{AllocError, Global};
use std::thread::Threads;

/// What is known of a plan, from good to bad.
#[derive(Clone, Copy)]
pub(crate) enum Verdict {
    Safe,
    Unknown,
    Unsafe,
}

impl Verdict {
    pub(crate) fn text(self) -> &'static str {
        match self {
            Verdict::Safe => "safe",
            Verdict::Unknown => "unknown",
            Verdict::Unsafe => "unsafe",
        }
    }

    fn rank(self) -> u8
        ensures { result ≡ rank self }
    {
        match self {
            Verdict::Safe => 0,
            Verdict::Unknown => 1,
            Verdict::Unsafe => 2,
        }
    }

    /// Whether another verdict is worse.
    pub(crate) fn is_better_than(self, other: Verdict) -> bool
        ensures { result ≡ is_worse self other }
    {
        self.rank() < other.rank()
    }
}

/// Judges a plan.
#[tactic(auto, using(crate::proofs::Verdicts::judged_so))]
pub(crate) fn verdict_on<R: Threads + Sync>(
    rt: &R,
    alloc: Global,
    plan: &Plan,
) -> Result<Verdict, AllocError>
    ensures { IfOk result (IsVerdict plan.now) }
{
    let judged = judge(rt, alloc, plan, Wanted::Verdict);
    let verdict = match &judged {
        Judged::Safe(_) => Ok(Verdict::Safe),
        Judged::Unsafe(_, _, _) => Ok(Verdict::Unsafe),
        Judged::Unknown(Reason::NoMemory, _) => Err(AllocError),
        Judged::Unknown(_, _) => Ok(Verdict::Unknown),
    };
    drop(judged);
    verdict
}
