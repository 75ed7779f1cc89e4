/// How a run holds the lock of its group, or waits for it (`flock(1)`).
#[derive(Clone, Copy, PartialEq, Eq)]
pub enum Hold {
    /// The run takes no lock.
    Nothing,
    /// `flock` and `flock -n`: the run takes the lock of this group exclusively.
    Alone(u8),
    /// `flock -s`: the run shares the lock of this group.
    Shared(u8),
}
