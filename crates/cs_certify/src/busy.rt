use crate::gains::Arrival;
use std::alloc::{AllocError, Global};

/// A time in which a lock may be held without a gap, in minutes of the day on which it begins.
#[derive(Clone, Copy)]
pub(crate) struct BusyTime {
    pub(crate) from: u32,
    /// The minute in which all that waited has had the lock; past the end of the day if more is
    /// left then.
    pub(crate) until: u32,
}

/// The busy times of a day at whose start `carry` minutes of runs were left, in order. The first
/// begins with the day, and is empty if nothing was left.
pub(crate) fn busy_times(
    alloc: Global,
    arrivals: &[Arrival],
    carry: u32,
) -> Result<Vec<BusyTime>, AllocError> {
    let mut times = Vec::new(alloc);
    let mut busy = BusyTime {
        from: 0,
        until: carry,
    };
    for arrival in arrivals {
        if busy.until <= arrival.minute {
            times.push(busy)?;
            busy.from = arrival.minute;
        }
        busy.until = arrival.free_after(busy.until);
    }
    times.push(busy)?;
    Ok(times)
}
