/// A run's name.
#[derive(Clone, Copy, PartialEq, Eq, Hash)]
pub struct Run {
    /// Its job, counted from 0, those of the crontab first.
    pub job: u16,
    /// The civil minute in which the job was due (`cron(8)`), or an anacron job's run started.
    pub at: u64,
}

/// A running run.
#[derive(Clone, Copy, PartialEq, Eq)]
pub struct Going {
    /// Its name.
    pub run: Run,
    /// The civil minute in which it started.
    pub since: u64,
}
