//! Writes the log's lines.
ghost use Rattle.std.specs.Prelude.{◌≡◌, ◌++◌, OnOk};
ghost use Rattle.cs_jobs.specs.LogLines.{bare_end, end_text, identifier_at, line_text};
ghost use Rattle.cs_jobs.specs.LogLines.{numbered_end, outage_text, told_text};
ghost use Rattle.cs_jobs.specs.Names.{run_name};

use crate::names::push_run_name;
use cs_civil::{Minute, date_text};
use cs_device::Outcome;
use cs_history::Run;
use cs_plan::Plan;
use std::alloc::{AllocError, Global};

/// A line of the log.
#[derive(Clone, Copy)]
pub enum LogLine {
    /// A worker has taken the run.
    Started(Run),
    /// The run waits for its group's lock.
    Waiting(Run),
    /// The run is skipped, because its group's lock was held.
    Skipped(Run),
    /// The run has passed its declared time.
    Overrun(Run),
    /// The run has ended, with this outcome.
    Ended(Run, Outcome),
    /// The clock went from the first minute to the second, which isn't the next one.
    Outage(Minute, Minute),
    /// The stamp of this anacron job, by its index, couldn't be read.
    StampNotRead(usize),
    /// The stamp of this anacron job couldn't be written.
    StampNotWritten(usize),
}

/// Adds the line, with its newline.
#[tactic(auto, unfolding(crate::specs::LogLines::line_text))]
pub fn push_line(
    alloc: Global,
    text: &mut Vec<u8>,
    plan: &Plan,
    line: LogLine,
) -> Result<(), AllocError>
    ensures { OnOk result (text.new.items ≡ text.old.items ++ line_text plan.now line) }
{
    push_told(alloc, text, plan, line)?;
    text.extend_from_slice(b"\n")
}

fn push_told(
    alloc: Global,
    text: &mut Vec<u8>,
    plan: &Plan,
    line: LogLine,
) -> Result<(), AllocError>
    ensures { OnOk result (text.new.items ≡ text.old.items ++ told_text plan.now line) }
{
    match line {
        LogLine::Started(run) => push_run(alloc, text, b"started ", plan, run),
        LogLine::Waiting(run) => push_run(alloc, text, b"waiting ", plan, run),
        LogLine::Skipped(run) => push_run(alloc, text, b"skipped ", plan, run),
        LogLine::Overrun(run) => push_run(alloc, text, b"overrun ", plan, run),
        LogLine::Ended(run, outcome) => push_end(alloc, text, plan, run, outcome),
        LogLine::Outage(from, to) => push_outage(text, from, to),
        LogLine::StampNotRead(job) => push_stamp(text, b"stamp not read ", plan, job),
        LogLine::StampNotWritten(job) => push_stamp(text, b"stamp not written ", plan, job),
    }
}

fn push_run(
    alloc: Global,
    text: &mut Vec<u8>,
    word: &[u8],
    plan: &Plan,
    run: Run,
) -> Result<(), AllocError>
    ensures { OnOk result (text.new.items ≡ text.old.items ++ (word.now ++ run_name plan.now run)) }
{
    text.extend_from_slice(word)?;
    push_run_name(alloc, text, plan, run)
}

fn push_end(
    alloc: Global,
    text: &mut Vec<u8>,
    plan: &Plan,
    run: Run,
    outcome: Outcome,
) -> Result<(), AllocError>
    ensures { OnOk result (text.new.items ≡ text.old.items ++ end_text plan.now run outcome) }
{
    match outcome {
        Outcome::Exited(status) => push_numbered_end(alloc, text, plan, run, b" status ", status),
        Outcome::Killed(signal) => push_numbered_end(alloc, text, plan, run, b" signal ", signal),
        Outcome::Ended => push_bare_end(alloc, text, plan, run),
        Outcome::NotStarted => push_run(alloc, text, b"not started ", plan, run),
    }
}

/// A run whose end has a number: the word says which.
#[tactic(auto, unfolding(crate::specs::LogLines::numbered_end))]
fn push_numbered_end(
    alloc: Global,
    text: &mut Vec<u8>,
    plan: &Plan,
    run: Run,
    word: &[u8],
    number: i32,
) -> Result<(), AllocError>
    ensures { OnOk result (text.new.items
        ≡ text.old.items ++ numbered_end plan.now run word.now number) }
{
    push_run(alloc, text, b"ended ", plan, run)?;
    text.extend_from_slice(word)?;
    text.extend_from_slice(number.to_string(alloc)?.as_bytes())
}

/// A run whose end has no number.
#[tactic(auto, unfolding(crate::specs::LogLines::bare_end))]
fn push_bare_end(alloc: Global, text: &mut Vec<u8>, plan: &Plan, run: Run) -> Result<(), AllocError>
    ensures { OnOk result (text.new.items ≡ text.old.items ++ bare_end plan.now run) }
{
    push_run(alloc, text, b"ended ", plan, run)?;
    text.extend_from_slice(b" status none")
}

#[tactic(auto, unfolding(crate::specs::LogLines::outage_text))]
fn push_outage(text: &mut Vec<u8>, from: Minute, to: Minute) -> Result<(), AllocError>
    ensures { OnOk result (text.new.items ≡ text.old.items ++ outage_text from to) }
{
    text.extend_from_slice(b"outage ")?;
    text.extend_from_slice(&date_text(from))?;
    text.extend_from_slice(b" to ")?;
    text.extend_from_slice(&date_text(to))
}

fn push_stamp(text: &mut Vec<u8>, words: &[u8], plan: &Plan, place: usize) -> Result<(), AllocError>
    ensures { OnOk result (text.new.items
        ≡ text.old.items ++ (words.now ++ identifier_at plan.now place)) }
{
    text.extend_from_slice(words)?;
    text.extend_from_slice(identifier_at(plan, place))
}

fn identifier_at(plan: &Plan, place: usize) -> &[u8]
    ensures { result.now ≡ identifier_at plan.now place }
{
    match plan.anacrontab().lines().get(place) {
        Some(line) => line.identifier(),
        None => b"",
    }
}
