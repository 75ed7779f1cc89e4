ghost use Rattle.std.specs.Prelude.{◌≡◌};

use crate::counts::Counts;
use crate::missed::due_after;
use crate::run_log::RunLog;
use cs_civil::Minute;

/// What a daemon has counted so far, from plan to plan.
#[derive(Clone, Copy)]
pub struct Tally {
    counts: Counts,
    missed: u64,
    stamp_fault_at: Option<u64>,
}

impl Tally {
    /// That of a daemon that begins.
    pub const NONE: Tally = Tally {
        counts: Counts::NONE,
        missed: 0,
        stamp_fault_at: None,
    };
}

impl<'r, R, W> RunLog<'r, R, W> {
    /// Returns what was counted so far.
    pub fn tally(&self) -> Tally
        ensures counts { result.counts ≡ self.now.state.counts }
        ensures missed { result.missed ≡ self.now.state.missed }
        ensures stamp { result.stamp_fault_at ≡ self.now.state.stamp_fault_at }
    {
        Tally {
            counts: self.state.counts,
            missed: self.state.missed,
            stamp_fault_at: self.state.stamp_fault_at,
        }
    }

    /// Goes on from the count of an earlier plan.
    pub fn count_on(&mut self, tally: Tally)
        ensures counts { self.new.state.counts ≡ tally.counts }
        ensures missed { self.new.state.missed ≡ tally.missed }
        ensures stamp { self.new.state.stamp_fault_at ≡ tally.stamp_fault_at }
        ensures left { (self.new.out ≡ self.old.out) × (self.new.setup ≡ self.old.setup)
            × (self.new.calls ≡ self.old.calls) × (self.new.is_timed ≡ self.old.is_timed) }
    {
        self.state.counts = tally.counts;
        self.state.missed = tally.missed;
        self.state.stamp_fault_at = tally.stamp_fault_at;
    }

    /// Counts as missed the runs of the crontab that are due after `latest`, up to and with `now`.
    pub fn miss(&mut self, latest: Minute, now: Minute)
        ensures left { (self.new.out ≡ self.old.out) × (self.new.setup ≡ self.old.setup)
            × (self.new.calls ≡ self.old.calls) × (self.new.is_timed ≡ self.old.is_timed) }
    {
        let missed = due_after(self.setup.jobs, latest, now);
        self.state.missed = self.state.missed.saturating_add(missed);
    }
}
