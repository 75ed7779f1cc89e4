//! The longest times that are given for jobs.
ghost use Rattle.std.specs.Prelude.{◌≡◌, [], IfSome, IsTrue, false, option_map, pos};
ghost use Rattle.cs_command.specs.Timeouts.{time_limit};
ghost use Rattle.cs_draft.specs.Draft.{HasGiven, given_or, greater, job_time, time_of};

use cs_anacrontab::Job;
use cs_command::time_limit;
use cs_crontab::Line;
use cs_decl::CronEntry;
use cs_history::Mode;
use cs_plan::MAX_MINUTES;
use cs_retrace::{Given, max_of, max_of_identifier};

fn greater(command: &[u8], max: u64) -> u64
    ensures { result ≡ greater (time_limit command.now) max }
{
    match time_limit(command) {
        Some(limit) => limit.max(max),
        None => max,
    }
}

pub(crate) fn time_of(given: &[Given], line: &Line, is_whole: bool, mode: Mode) -> Option<u64>
    ensures { result ≡ time_of given.now line.now is_whole mode }
{
    if !is_whole {
        return None;
    }
    let max = max_of(given, u64::from(line.number()))?;
    let max = max.saturating_add(if mode.waits() { 1 } else { 0 });
    let max = greater(line.command(), max);
    if max > u64::from(MAX_MINUTES) {
        return None;
    }
    Some(max)
}

pub(crate) fn job_time(given: &[Given], job: &Job) -> Option<u64>
    ensures { result ≡ job_time given.now job.now }
{
    let max = max_of_identifier(given, job.identifier())?;
    Some(greater(job.command(), max))
}

pub(crate) fn given_or(time: Option<u64>, times: (i128, bool)) -> (i128, bool)
    ensures { result ≡ given_or time times }
{
    match time {
        Some(max) => (i128::from(max), false),
        None => times,
    }
}

pub(crate) fn has_given(given: &[Given], line: &Line, entry: Option<&CronEntry>) -> bool
    ensures { IsTrue result
        → IfSome (option_map (λ e. e.now) entry.entry) (HasGiven given.now line.now) }
{
    let Some(entry) = entry else {
        return true;
    };
    match time_of(given, line, entry.parts.is_empty(), entry.mode) {
        Some(max) => entry.max == i128::from(max) && !entry.guess,
        None => true,
    }
}

pub(crate) fn has_time(max: i128, entry: &CronEntry) -> bool
    ensures max { IsTrue result → entry.now.max ≡ max }
    ensures parts { IsTrue result → entry.now.parts ≡ [] }
    ensures guess { IsTrue result → entry.now.guess ≡ false }
{
    entry.max == max && entry.parts.is_empty() && !entry.guess
}
