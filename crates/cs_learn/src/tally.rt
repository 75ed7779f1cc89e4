/// Counts of the lines of a log. A count stops at `u64::MAX`.
#[derive(Clone, Copy)]
pub struct Tally {
    /// Runs that began.
    pub begun: u64,
    /// Runs that ended, and whose beginning is in the logs.
    pub runs: u64,
    /// Runs that began without an end.
    pub unended: u64,
    /// Runs that ended without a beginning.
    pub no_beginning: u64,
    /// Runs that ended, by a clock that went back or doesn't tell how long they took.
    pub unclear: u64,
    /// Lines that are too long to be read.
    pub too_long: u64,
}

impl Tally {
    pub(crate) fn new() -> Tally {
        Tally {
            begun: 0,
            runs: 0,
            unended: 0,
            no_beginning: 0,
            unclear: 0,
            too_long: 0,
        }
    }

    /// Whether there are beginnings and no ends, as in the log of Debian's cron at its default log
    /// level (cron(8)).
    pub(crate) fn has_no_ends(&self) -> bool {
        self.begun > 0 && self.runs == 0 && self.no_beginning == 0 && self.unclear == 0
    }
}
