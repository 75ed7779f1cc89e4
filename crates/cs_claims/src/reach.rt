ghost use Rattle.std.specs.Prelude.{◌≡◌, ◌&&◌, nat_lt, nat_le};
ghost use Rattle.std.specs.List.{list_all};
ghost use Rattle.cs_daytree.specs.Rising.{each_next};
ghost use Rattle.cs_claims.specs.Rules.{reach_fits};

use crate::limits::MAX_JOBS;
use cs_windows::JobReach;

fn jobs_rise(reach: &[JobReach]) -> bool
    ensures { result ≡ each_next (λ a b. nat_lt a.job b.job) reach.now }
{
    reach.is_sorted_by(|one, next| one.job < next.job)
}

fn are_reaches(reach: &[JobReach], most: u16) -> bool
    ensures { result ≡ list_all (λ r.
        nat_lt r.job MAX_JOBS && nat_lt 0 r.reach && nat_le r.reach most) reach.now }
{
    reach.iter().all(|of_job| of_job.job < MAX_JOBS && 0 < of_job.reach && of_job.reach <= most)
}

pub(crate) fn reach_fits(reach: &[JobReach], most: u16) -> bool
    ensures { result ≡ reach_fits most reach.now }
{
    jobs_rise(reach) && are_reaches(reach, most)
}
