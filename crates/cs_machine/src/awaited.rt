//! What a new plan waits for.
ghost use Rattle.std.specs.Prelude.{◌≡◌, ◌++◌, OnOk};
ghost use Rattle.cs_machine.specs.Awaited.{running_text, until_text, waiting_text};

use crate::busy::is_busy;
use crate::line_text::moment_text;
use crate::machine_clock::{minute_after, unix_seconds};
use crate::missed::due_after;
use crate::run_log::RunLog;
use crate::setup::{JobNote, end_of};
use crate::state::State;
use cs_civil::push_number;
use cs_place::push_shown;
use std::alloc::{AllocError, Global};
use std::time;

fn push_until(text: &mut Vec<u8>, end: Option<u64>) -> Result<(), AllocError>
    ensures { OnOk result (text.new.items ≡ text.old.items ++ until_text end) }
{
    let Some(seconds) = end else {
        return Ok(());
    };
    let Some(moment) = moment_text(seconds) else {
        return Ok(());
    };
    text.extend_from_slice(b", which may run until ")?;
    text.extend_from_slice(&moment)
}

fn push_running(text: &mut Vec<u8>, run: &[u8], end: Option<u64>) -> Result<(), AllocError>
    ensures { OnOk result (text.new.items ≡ text.old.items ++ running_text run.now end) }
{
    text.extend_from_slice(b"cronsafe: waiting for ")?;
    push_shown(text, run)?;
    push_until(text, end)?;
    text.extend_from_slice(b"\n")
}

fn push_waiting(text: &mut Vec<u8>, run: &[u8]) -> Result<(), AllocError>
    ensures { OnOk result (text.new.items ≡ text.old.items ++ waiting_text run.now) }
{
    text.extend_from_slice(b"cronsafe: waiting for ")?;
    push_shown(text, run)?;
    text.extend_from_slice(b", which waits for its lock\n")
}

fn push_busy(text: &mut Vec<u8>) -> Result<(), AllocError> {
    text.extend_from_slice(
        b"cronsafe: by their longest times, runs of the old files may go on in ",
    )?;
    text.extend_from_slice(b"each minute of the next two days; --drain starts no more of them\n")
}

/// 0 if no run goes on.
fn last_end(jobs: &[JobNote], state: &State) -> u64 {
    let mut last = 0;
    for (run, since) in state.starts.as_slice() {
        if let Some(end) = end_of(jobs, run.as_slice(), *since) {
            last = end.max(last);
        }
    }
    last
}

fn push_all_running(text: &mut Vec<u8>, jobs: &[JobNote], state: &State) -> Result<(), AllocError> {
    for (run, since) in state.starts.as_slice() {
        let run = run.as_slice();
        push_running(text, run, end_of(jobs, run, *since))?;
    }
    Ok(())
}

fn push_all_waiting(text: &mut Vec<u8>, state: &State) -> Result<(), AllocError> {
    for run in state.waiting.as_slice() {
        push_waiting(text, run.as_slice())?;
    }
    Ok(())
}

fn push_left_out(alloc: Global, text: &mut Vec<u8>, count: u64) -> Result<(), AllocError> {
    if count == 0 {
        return Ok(());
    }
    text.extend_from_slice(b"cronsafe: until then up to ")?;
    push_number(alloc, text, u128::from(count))?;
    text.extend_from_slice(b" runs of the old files are left out\n")
}

impl<'r, R: time::Clock, W> RunLog<'r, R, W> {
    /// Returns in lines which runs a new plan waits for, and whether that may take for ever.
    /// Nothing if there are none.
    pub fn awaited(&self) -> Result<Vec<u8>, AllocError> {
        let mut text = Vec::new(self.alloc);
        push_all_running(&mut text, self.setup.jobs, &self.state)?;
        push_all_waiting(&mut text, &self.state)?;
        if !text.is_empty() && self.is_busy() {
            push_busy(&mut text)?;
        }
        Ok(text)
    }

    fn is_busy(&self) -> bool {
        match unix_seconds(self.rt) {
            Some(at) => match minute_after(at, self.setup.offset) {
                Some(minute) => is_busy(self.setup.jobs, minute),
                None => false,
            },
            None => false,
        }
    }

    /// Returns in lines which runs a daemon that starts nothing more waits for, and how many are
    /// due meanwhile.
    pub fn drained(&self) -> Result<Vec<u8>, AllocError> {
        let mut text = Vec::new(self.alloc);
        push_all_running(&mut text, self.setup.jobs, &self.state)?;
        push_left_out(self.alloc, &mut text, self.due_before_end())?;
        Ok(text)
    }

    fn due_before_end(&self) -> u64 {
        let Some(at) = unix_seconds(self.rt) else {
            return 0;
        };
        let end = last_end(self.setup.jobs, &self.state);
        let offset = self.setup.offset;
        match (minute_after(at, offset), minute_after(end, offset)) {
            (Some(now), Some(end)) => due_after(self.setup.jobs, now, end),
            _ => 0,
        }
    }
}
