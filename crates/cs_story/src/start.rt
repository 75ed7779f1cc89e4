ghost use Rattle.std.specs.Prelude.{◌≡◌};

use crate::plot::Plot;
use crate::wanted::MINUTES_OF_DAY;
use arrayvec::ArrayVec;
use cs_civil::{Day, Minute};
use cs_history::Start;
use cs_plan::Plan;

/// The start at this minute. If a run is to catch up, the daemon is down, since a pass begins when
/// it comes up. Of the anacron jobs only that one is due then, by a stamp of the day on which the
/// daemon last comes up before.
pub(crate) fn start_at(plan: &Plan, plot: &Plot<'_>, minute: Minute) -> Start
    ensures { result.now ≡ minute }
{
    let catch_up = plot.catch_up();
    let mut day = None;
    for stay in plot.stays.as_slice() {
        if let Some(run) = catch_up {
            if stay.up <= run.start {
                day = Day::new(stay.up / MINUTES_OF_DAY);
            }
        }
    }
    let mut stamps: ArrayVec<Option<Day>, 64> = ArrayVec::new();
    for job in plan.crons()..plan.jobs().len() {
        let own = match catch_up {
            Some(run) if job != usize::from(run.job) => day,
            _ => None,
        };
        let _ = stamps.try_push(own);
    }
    Start::new(minute, catch_up.is_none(), stamps)
}
