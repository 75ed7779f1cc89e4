//! When runs have the lock of a group at the latest, over some successive days.
use crate::gains::MINUTES_OF_DAY;
use crate::queue::{Queue, QueuedRun, line_up};
use std::alloc::{AllocError, Global};

/// What comes after a run in a queue.
#[derive(Clone, Copy)]
struct Behind {
    /// When the next run is due.
    due: u32,
    /// When that run has had the lock, if it is of mode try and gets it.
    tried: Option<u32>,
    /// When a run that waits for all that can be before it has the lock, if the queue up to here
    /// has that run in it, and is longer by it.
    last: u32,
    /// The same, if the queue up to here isn't longer by it, because a run of mode try has had the
    /// lock since it was due.
    last_tried: u32,
}

impl Behind {
    /// What comes after the run before this one. The run that waits keeps the lock for `work`
    /// minutes.
    fn before(self, run: QueuedRun, work: u32) -> Behind {
        let free = run.free.saturating_sub(work);
        let goes_on = match self.tried {
            Some(tried) if tried >= run.free => self.last_tried,
            _ => self.last,
        };
        Behind {
            due: run.due,
            tried: run.tried(),
            last: if self.due > free { free } else { goes_on },
            last_tried: if self.due > run.free {
                run.free
            } else {
                self.last_tried
            },
        }
    }
}

/// Lets each run that keeps the lock for `work` minutes wait for all that can be before it: while
/// another is due by the minute at which the others have had the lock, it waits.
fn put_last(runs: &mut [QueuedRun], work: u32) {
    let mut behind = Behind {
        due: u32::MAX,
        tried: None,
        last: 0,
        last_tried: 0,
    };
    for run in runs.iter_mut().rev() {
        behind = behind.before(*run, work);
        if run.work == work {
            run.start = behind.last;
        }
    }
}

/// The runs on successive days of these profiles, with the latest minute at which each that waits
/// has the lock. The lock is free for the first of them from minute `free` of the first day on.
pub(crate) fn latest_starts(
    alloc: Global,
    queue: &Queue,
    profiles: &[u16],
    free: u32,
) -> Result<Vec<QueuedRun>, AllocError> {
    let mut runs = Vec::new(alloc);
    let mut first: u32 = 0;
    for profile in profiles {
        for run in queue.runs_of(*profile) {
            let mut run = *run;
            run.due = run.due.saturating_add(first);
            runs.push(run)?;
        }
        first = first.saturating_add(MINUTES_OF_DAY);
    }
    let _ = line_up(runs.as_mut_slice(), free);
    for work in queue.works.as_slice() {
        put_last(runs.as_mut_slice(), *work);
    }
    Ok(runs)
}
