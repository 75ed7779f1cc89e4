use cs_civil::{Bytes, Hours};
use cs_history::Mode;

#[derive(Clone, Copy)]
pub(crate) struct Shift {
    pub(crate) is_later: bool,
    pub(crate) minutes: u16,
}

/// A cron job's line whose command starts later or earlier.
#[derive(Drop)]
pub(crate) struct Start {
    pub(crate) job: u16,
    pub(crate) shift: Shift,
    /// The new text of the line.
    pub(crate) line: Bytes,
}

/// Another value of one member of declarations.
#[derive(Drop)]
pub(crate) enum Member {
    /// The longest time of a job in minutes.
    Max(u16, u16),
    /// How a cron job treats the lock of its group.
    Mode(u16, Mode),
    /// The most that running jobs may weigh together.
    Capacity(u8),
    /// The catch-up hours of anacron jobs.
    Hours(Hours),
}

#[derive(Drop)]
pub(crate) enum Change {
    Start(Start),
    /// Two cron jobs start at other times.
    Both(Start, Start),
    Member(Member),
}
