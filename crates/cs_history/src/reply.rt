use crate::run::Run;

/// The reply to an accepted event.
#[derive(Clone, Copy, PartialEq, Eq)]
pub enum Reply {
    /// The clock was moved on.
    Clock,
    /// This run has started.
    Started(Run),
    /// The job waits for the lock of its group.
    Waiting,
    /// The job found the lock held and was skipped.
    Skipped,
    /// The run has ended: `true` if within its declared time.
    Ended(bool),
    /// The daemon went down.
    Went,
    /// The daemon came up.
    Came,
}
