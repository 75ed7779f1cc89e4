/// How many lines of a log report each of these, at most 2^64 - 1.
#[derive(Clone, Copy)]
pub(crate) struct Counts {
    pub(crate) skipped: u64,
    pub(crate) overruns: u64,
    pub(crate) not_started: u64,
    /// Gaps in the clock's minutes.
    pub(crate) outages: u64,
    pub(crate) stamps_not_written: u64,
    pub(crate) limits: u64,
}

fn counted(count: u64, words: &[u8], front: &[u8]) -> u64 {
    if words.starts_with(front) {
        count.saturating_add(1)
    } else {
        count
    }
}

impl Counts {
    pub(crate) const NONE: Counts = Counts {
        skipped: 0,
        overruns: 0,
        not_started: 0,
        outages: 0,
        stamps_not_written: 0,
        limits: 0,
    };

    /// Counts a line, of the daemon or left by a runner.
    pub(crate) fn with(self, words: &[u8]) -> Counts {
        Counts {
            skipped: counted(self.skipped, words, b"skipped "),
            overruns: counted(self.overruns, words, b"overrun "),
            not_started: counted(self.not_started, words, b"not started "),
            outages: counted(self.outages, words, b"outage "),
            stamps_not_written: counted(self.stamps_not_written, words, b"stamp not written "),
            limits: if words.ends_with(b" was ended at its limit") {
                self.limits.saturating_add(1)
            } else {
                self.limits
            },
        }
    }
}
