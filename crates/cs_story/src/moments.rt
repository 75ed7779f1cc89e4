//! What happens within a minute of a story.
use crate::chain::Chain;
use crate::part::takes_lock_of;
use crate::play::{Ending, Play};
use crate::plot::Plot;
use crate::wanted::task_of;
use cs_history::{Event, Mode, Run};

fn unwanted_job(play: &Play, plot: &Plot<'_>) -> Option<u16> {
    for job in play.core().pending() {
        if !plot.wants(*job, play.now()) {
            return Some(*job);
        }
    }
    None
}

/// Begins the jobs that are due, except those of wanted runs. Their runs end at once, unless they
/// are to hold a lock.
fn begin_unwanted(play: &mut Play, plot: &Plot<'_>) -> Result<(), Ending> {
    let at = play.now();
    for _ in 0..play.core().pending().len() {
        let Some(job) = unwanted_job(play, plot) else {
            return Ok(());
        };
        play.take(Event::Begin(job))?;
        let run = Run { job, at };
        if !plot.links(job, at) && play.core().running().contains(run) {
            play.take(Event::End(run))?;
        }
    }
    Ok(())
}

/// A run of a chain that has to end in this minute.
fn held_out(play: &Play, plot: &Plot<'_>, chain: Chain) -> Option<Run> {
    let now = play.now();
    for going in play.core().running().iter() {
        let run = going.run;
        let is_link = takes_lock_of(plot.facts, run.job, chain.group)
            && !plot.wants(run.job, run.at);
        let max = match task_of(plot.facts, run.job) {
            Some(task) => u64::from(task.max),
            None => 0,
        };
        let is_last_minute = now.saturating_add(1) >= going.since.saturating_add(max);
        if is_link && (now >= chain.to || is_last_minute) {
            return Some(run);
        }
    }
    None
}

fn end_links(play: &mut Play, plot: &Plot<'_>, chain: Chain) -> Result<(), Ending> {
    for _ in 0..play.core().running().len() {
        let Some(run) = held_out(play, plot, chain) else {
            return Ok(());
        };
        play.take(Event::End(run))?;
    }
    Ok(())
}

fn holder(play: &Play, plot: &Plot<'_>, group: u8) -> Option<Run> {
    for going in play.core().running().iter() {
        let run = going.run;
        if takes_lock_of(plot.facts, run.job, group) && !plot.wants(run.job, run.at) {
            return Some(run);
        }
    }
    None
}

/// Begins the runs of mode try of chains that are due. Before each, those that hold its lock end.
fn begin_tried(play: &mut Play, plot: &Plot<'_>) -> Result<(), Ending> {
    let now = play.now();
    let first = plot.tried.as_slice().partition_point(|it| it.due < now);
    let Some(rest) = plot.tried.as_slice().get(first..) else {
        return Ok(());
    };
    for tried in rest {
        if tried.due != now {
            return Ok(());
        }
        for _ in 0..play.core().running().len() {
            if let Some(run) = holder(play, plot, tried.group) {
                play.take(Event::End(run))?;
            }
        }
        play.take(Event::Begin(tried.job))?;
    }
    Ok(())
}

/// The first run of this mode, except wanted ones, that waits for the lock of a chain's group and
/// can have it.
fn next_link(play: &Play, plot: &Plot<'_>, chain: Chain, mode: Mode) -> Option<Run> {
    for going in play.core().waiting().iter() {
        let run = going.run;
        let is_mode = match task_of(plot.facts, run.job) {
            Some(task) => task.mode == mode && task.group == Some(chain.group),
            None => false,
        };
        if is_mode && play.can(Event::Got(run.job, run.at)) && !plot.wants(run.job, run.at) {
            return Some(run);
        }
    }
    None
}

/// Hands the lock of a chain on to its next run, as often as that run ends at once.
fn hand_on(play: &mut Play, plot: &Plot<'_>, chain: Chain) -> Result<(), Ending> {
    end_links(play, plot, chain)?;
    for _ in 0..play.core().waiting().len() {
        let next = match next_link(play, plot, chain, Mode::Wait) {
            Some(run) => Some(run),
            None => next_link(play, plot, chain, Mode::Shared),
        };
        let Some(run) = next else {
            return Ok(());
        };
        play.take(Event::Got(run.job, run.at))?;
        end_links(play, plot, chain)?;
    }
    Ok(())
}

/// Follows the chains. Before the end of one its lock is handed on; at its end the lock is
/// released.
fn follow_chains(play: &mut Play, plot: &Plot<'_>) -> Result<(), Ending> {
    let now = play.now();
    for chain in plot.chains.as_slice() {
        if chain.from <= now && now < chain.to {
            hand_on(play, plot, *chain)?;
        }
        if now == chain.to {
            end_links(play, plot, *chain)?;
        }
    }
    Ok(())
}

fn begin_wanted(play: &mut Play, plot: &Plot<'_>) -> Result<(), Ending> {
    let now = play.now();
    for run in plot.runs.as_slice() {
        if run.due == now && Some(*run) != plot.catch_up() {
            play.take(Event::Begin(run.job))?;
        }
    }
    Ok(())
}

fn grant_wanted(play: &mut Play, plot: &Plot<'_>) -> Result<(), Ending> {
    let now = play.now();
    for run in plot.runs.as_slice() {
        let got = Event::Got(run.job, run.due);
        if run.start <= now && play.can(got) {
            play.take(got)?;
        }
    }
    Ok(())
}

fn catch_up(play: &mut Play, plot: &Plot<'_>) -> Result<(), Ending> {
    if let Some(run) = plot.catch_up() {
        if run.start == play.now() {
            play.take(Event::Catch(run.job))?;
        }
    }
    Ok(())
}

/// The first run, except wanted ones, that can have the lock that it waits for.
fn unwanted_waiter(play: &Play, plot: &Plot<'_>) -> Option<Run> {
    for going in play.core().waiting().iter() {
        let run = going.run;
        if play.can(Event::Got(run.job, run.at)) && !plot.wants(run.job, run.at) {
            return Some(run);
        }
    }
    None
}

/// Starts and ends the runs that are in no one's way and wait for a free lock, since no minute
/// passes before.
fn settle(play: &mut Play, plot: &Plot<'_>) -> Result<(), Ending> {
    for _ in 0..play.core().waiting().len() {
        let Some(run) = unwanted_waiter(play, plot) else {
            return Ok(());
        };
        play.take(Event::Got(run.job, run.at))?;
        play.take(Event::End(run))?;
    }
    Ok(())
}

/// What happens in the present minute, after which the daemon goes down or the clock goes on.
pub(crate) fn live(play: &mut Play, plot: &Plot<'_>, goes_on: bool) -> Result<(), Ending> {
    if goes_on {
        begin_tried(play, plot)?;
        begin_unwanted(play, plot)?;
    }
    follow_chains(play, plot)?;
    begin_wanted(play, plot)?;
    grant_wanted(play, plot)?;
    catch_up(play, plot)?;
    if goes_on {
        settle(play, plot)?;
    }
    Ok(())
}
