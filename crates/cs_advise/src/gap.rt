//! The gaps between the windows of a job and those of the others of its group. A window begins at a
//! due minute, and is as long as the longest time of its job.

use cs_crontab::When;
use cs_plan::{MAX_MINUTES, Plan};
use cs_schedule::least_distance;

/// The least number of minutes from the end of a window of the first to one of the second that
/// begins no sooner than it, below 0 where they meet; [`MAX_MINUTES`](cs_plan::MAX_MINUTES) stands
/// for more too.
fn gap_after(plan: &Plan, first: u16, second: u16) -> i32 {
    let lines = plan.crontab().lines();
    let max = plan.job_at(first).max();
    let (Some(one), Some(other)) = (
        lines.get(usize::from(first)),
        lines.get(usize::from(second)),
    ) else {
        return i32::from(MAX_MINUTES);
    };
    let (When::At(one), When::At(other)) = (one.when(), other.when()) else {
        return i32::from(MAX_MINUTES);
    };
    match least_distance(one, other, 0, max + MAX_MINUTES - 1) {
        Some(minutes) => i32::from(minutes) - i32::from(max),
        None => i32::from(MAX_MINUTES),
    }
}

/// The smallest gap between windows of the job and of other commands of its group; none without
/// another one, and none with summer time, which moves windows on the days on which it begins and
/// ends.
pub(crate) fn gap_of(plan: &Plan, job: u16) -> Option<i32> {
    if plan.zone().saving() != 0 {
        return None;
    }
    let group = plan.job_at(job).group()?;
    let crons = plan.crontab().lines().len() as u16;
    let mut least = None;
    for other in 0..crons {
        if job < crons && other != job && plan.job_at(other).group() == Some(group) {
            let gap = gap_after(plan, job, other).min(gap_after(plan, other, job));
            least = match least {
                Some(less) => Some(gap.min(less)),
                None => Some(gap),
            };
        }
    }
    least
}
