//! Runs that have used up their declared time.
ghost use Rattle.std.specs.Prelude.{◌≡◌, ◌++◌};
ghost use Rattle.cs_plan.specs.Plan.{as_plan};
ghost use Rattle.cs_daemon.specs.Late.{becomes_late, is_late, late_lines};

use crate::notices::Notices;
use cs_civil::Minute;
use cs_core::Core;
use cs_history::Going;
use cs_jobs::LogLine;

fn is_late(core: &Core, going: Going, minute: Minute) -> bool
    ensures { result ≡ is_late (as_plan core.now.plan) minute going }
{
    let most = u64::from(core.plan().job_at(going.run.job).max());
    minute.number() >= going.since && minute.number() - going.since >= most
}

fn becomes_late(core: &Core, going: Going, last: Minute, minute: Minute) -> bool
    ensures { result ≡ becomes_late (as_plan core.now.plan) last minute going }
{
    !is_late(core, going, last) && is_late(core, going, minute)
}

/// Returns how many became late.
pub(crate) fn note_overruns(core: &Core, notices: &mut Notices, last: Minute, minute: Minute) -> u64
    ensures { notices.new.lost ≡ 0 → notices.new.lines.items ≡ notices.old.lines.items
        ++ late_lines (as_plan core.now.plan) last minute core.now.state.running }
{
    let mut late: u64 = 0;
    for going in core.running().iter() {
        if becomes_late(core, going, last, minute) {
            notices.add(LogLine::Overrun(going.run));
            late = late.saturating_add(1);
        }
    }
    late
}
