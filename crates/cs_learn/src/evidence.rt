use crate::duration::passed;
use crate::tally::Tally;
use cs_retrace::Moment;
use std::alloc::{AllocError, Global};
use std::collections::BTreeMap;

/// A run that has ended, or whose end no line of the logs gives.
#[derive(Clone, Copy)]
pub struct Ran {
    /// When it began.
    pub began: Moment,
    /// How many seconds it took, or may have taken.
    pub seconds: u64,
    /// Whether a line gives its end.
    pub has_ended: bool,
}

/// What the logs say of a job's runs.
#[derive(Drop)]
pub struct Evidence {
    /// How many runs took so many seconds; 259,201 stands for more than three days.
    counts: BTreeMap<u64, u64>,
    /// How many runs have ended.
    pub count: u64,
    /// The longest run that has ended; the first of several.
    pub longest: Option<Ran>,
    /// How many starts have no end.
    pub unended: u64,
    /// The start without an end that is longest ago; the first of several.
    pub longest_open: Option<Ran>,
}

impl Evidence {
    /// Nothing is known yet. Doesn't allocate.
    pub(crate) fn new(alloc: Global) -> Evidence {
        Evidence {
            counts: BTreeMap::new(alloc),
            count: 0,
            longest: None,
            unended: 0,
            longest_open: None,
        }
    }

    /// Adds a run.
    pub(crate) fn add(&mut self, run: Ran) -> Result<(), AllocError> {
        if !run.has_ended {
            self.unended = self.unended.saturating_add(1);
            self.longest_open = longer(self.longest_open, run);
            return Ok(());
        }
        let seconds = run.seconds.min(259_201);
        let before = self.counts.get(&seconds).copied().unwrap_or(0);
        self.counts.insert(seconds, before.saturating_add(1))?;
        self.count = self.count.saturating_add(1);
        self.longest = longer(self.longest, run);
        Ok(())
    }

    /// The median of the runs in seconds: at least half of them took at most so long, and fewer
    /// than half took less. 259,201 stands for more than three days.
    pub(crate) fn median(&self) -> Option<u64> {
        let mut seen = 0u64;
        for (seconds, count) in &self.counts {
            seen = seen.saturating_add(*count);
            if self.count <= seen.saturating_mul(2) {
                return Some(*seconds);
            }
        }
        None
    }

    /// How many runs took longer than so many minutes, at most 4,320.
    pub(crate) fn longer_than(&self, minutes: u16) -> u64 {
        let mut longer = 0u64;
        for (seconds, count) in &self.counts {
            if *seconds > 60 * u64::from(minutes) {
                longer = longer.saturating_add(*count);
            }
        }
        longer
    }
}

/// The longer of two runs; the first if both took as long.
fn longer(longest: Option<Ran>, run: Ran) -> Option<Ran> {
    match longest {
        Some(other) if other.seconds >= run.seconds => longest,
        _ => Some(run),
    }
}

/// A run that has ended, and is counted; none if the clock doesn't tell how long it took.
pub(crate) fn ended(began: Moment, at: Moment, tally: &mut Tally) -> Option<Ran> {
    let Some(seconds) = passed(began, at) else {
        tally.unclear = tally.unclear.saturating_add(1);
        return None;
    };
    tally.runs = tally.runs.saturating_add(1);
    Some(Ran {
        began,
        seconds,
        has_ended: true,
    })
}

/// A run without an end: it may have taken all the time up to a later moment. If the clock doesn't
/// give that time, it is more than any job may take.
pub(crate) fn without_end(began: Moment, later: Moment) -> Ran {
    Ran {
        began,
        seconds: passed(began, later).unwrap_or(u64::MAX),
        has_ended: false,
    }
}
