ghost use Rattle.std.specs.Prelude.{◌≡◌};
ghost use Rattle.cs_windows.specs.Reach.{reach_of};

/// How long a run of a job that waits for a lock may go on: one due in minute d holds no minute
/// from d + reach on. A certificate lists a reach for each job that may have to wait.
#[derive(Clone, Copy, PartialEq, Eq)]
pub struct JobReach {
    /// The job's number in its plan, below 320.
    pub job: u16,
    /// In minutes, from 1.
    pub reach: u16,
}

/// Returns the first reach that is listed for a job.
pub fn reach_of(reaches: &[JobReach], job: usize) -> Option<u16>
    ensures { result ≡ reach_of reaches.now job }
{
    for listed in reaches {
        if usize::from(listed.job) == job {
            return Some(listed.reach);
        }
    }
    None
}
