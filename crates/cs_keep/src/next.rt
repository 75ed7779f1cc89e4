//! The first choice of a kind, without a list of all choices: so a minute without choices costs the
//! same however many runs wait.
ghost use Rattle.std.specs.Prelude.{◌≡◌, IsTrue, None, true};
ghost use Rattle.cs_plan.specs.Plan.{as_plan};
ghost use Rattle.cs_history.specs.Step.{is_settled};
ghost use Rattle.cs_history.specs.declared.event.Event.TheVariants.{Got};
ghost use Rattle.cs_keep.specs.FirstToGet.{earlier, first_to_get, may_get};
ghost use Rattle.cs_keep.specs.Tick.{next_of};
ghost use Rattle.cs_keep.specs.declared.tick.Kind.TheVariants.{Catching, Settling};

use cs_core::{Core, is_before};
use cs_history::{Event, Run};

fn earlier(best: Option<Run>, run: Run) -> Run
    ensures { result ≡ earlier best run }
{
    match best {
        Some(best) => { if is_before(run, best) { run } else { best } }
        None => run,
    }
}

fn may_get(core: &Core, run: Run) -> bool
    ensures { result ≡ may_get (as_plan core.now.plan) core.now.state run }
{
    match core.test(&Event::Got(run.job, run.at)) {
        Ok(()) => true,
        Err(_) => false,
    }
}

/// The first by job, then minute.
fn first_to_get(core: &Core) -> Option<Run>
    ensures { result ≡ first_to_get (as_plan core.now.plan) core.now.state }
{
    let mut best = None;
    for going in core.waiting().iter() {
        if may_get(core, going.run) {
            best = Some(earlier(best, going.run));
        }
    }
    best
}

/// Whether nothing is due, and no waiting run may get its lock.
fn goes_on(core: &Core) -> bool
    ensures { IsTrue result → is_settled (as_plan core.now.plan) core.now.state ≡ true }
{
    let next = core.now().number() + 1;
    match core.test(&Event::Minute(next)) {
        Ok(()) => true,
        Err(_) => false,
    }
}

/// The first Begin or Got of the choices.
pub(crate) fn next_to_settle(core: &Core) -> Option<Event>
    ensures { result ≡ next_of Settling (as_plan core.now.plan) core.now.state }
{
    if !core.is_up() {
        return None;
    }
    if let Some(job) = core.pending().first() {
        return Some(Event::Begin(*job));
    }
    if goes_on(core) {
        return None;
    }
    match first_to_get(core) {
        Some(run) => Some(Event::Got(run.job, run.at)),
        None => None,
    }
}

/// The first Catch of the choices.
pub(crate) fn next_to_catch(core: &Core) -> Option<Event>
    ensures { result ≡ next_of Catching (as_plan core.now.plan) core.now.state }
{
    let Some(job) = core.left().first() else {
        return None;
    };
    match core.test(&Event::Catch(*job)) {
        Ok(()) => Some(Event::Catch(*job)),
        Err(_) => None,
    }
}
