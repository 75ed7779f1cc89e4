use crate::run::Run;

/// An event that may come next. Minutes are civil minutes; one out of range is refused when tried.
#[derive(Clone, Copy, PartialEq, Eq)]
pub enum Event {
    /// The clock reaches this minute.
    Minute(u64),
    /// cron begins this job, which is due now: its run starts, waits for the lock, or is skipped.
    Begin(u16),
    /// The waiting run of this job, due at this minute, gets the lock and starts.
    Got(u16, u64),
    /// anacron starts this job.
    Catch(u16),
    /// This run ends.
    End(Run),
    /// The daemon goes down. Running runs go on.
    Down,
    /// The daemon comes up in this minute.
    Up(u64),
}
