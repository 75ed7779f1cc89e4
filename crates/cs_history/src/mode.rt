ghost use Rattle.std.specs.Prelude.{◌≡◌};
ghost use Rattle.cs_history.specs.Plan.{is_skip, shares_in, takes, waits_in};

/// How a job treats the lock of its group, as `flock(1)` before its command does.
#[derive(Clone, Copy, Debug, PartialEq, Eq)]
pub enum Mode {
    /// The job takes no lock.
    Plain,
    /// `flock -n`: the run is skipped if the lock is held, which breaks the plan.
    Skip,
    /// `flock -n`: the run is skipped if the lock is held, which breaks nothing.
    Try,
    /// `flock`: the run waits until nobody holds the lock.
    Wait,
    /// `flock -s`: the run waits until all that hold the lock share it.
    Shared,
}

impl Mode {
    /// Whether a run takes the lock.
    pub fn takes_lock(self) -> bool
        ensures { result ≡ takes self }
    {
        match self {
            Mode::Plain => false,
            Mode::Skip | Mode::Try | Mode::Wait | Mode::Shared => true,
        }
    }

    /// Whether a run waits for a lock that is held.
    pub fn waits(self) -> bool
        ensures { result ≡ waits_in self }
    {
        match self {
            Mode::Plain | Mode::Skip | Mode::Try => false,
            Mode::Wait | Mode::Shared => true,
        }
    }

    /// Whether a run shares the lock.
    pub fn shares(self) -> bool
        ensures { result ≡ shares_in self }
    {
        match self {
            Mode::Plain | Mode::Skip | Mode::Try | Mode::Wait => false,
            Mode::Shared => true,
        }
    }

    /// Whether a run that finds the lock held breaks the plan by being skipped.
    pub fn is_skip(self) -> bool
        ensures { result ≡ is_skip self }
    {
        match self {
            Mode::Skip => true,
            Mode::Plain | Mode::Try | Mode::Wait | Mode::Shared => false,
        }
    }
}
