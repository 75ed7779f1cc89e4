//! A line of the list of runs that a daemon leaves to the next one.
ghost use Rattle.std.specs.Prelude.{◌≡◌, ◌++◌, IfOk, OnOk};
ghost use Rattle.cs_machine.specs.Runs.{left_text, list_text, listed_in, listed_on, run_line};

use crate::pieces::piece;
use cs_civil::Bytes;
use cs_table::text::first_line;
use std::alloc::{AllocError, Global};

#[derive(Drop)]
pub(crate) struct ListedRun {
    /// In digits.
    pub(crate) process: Bytes,
    /// In clock ticks since the machine started.
    pub(crate) start: Bytes,
    /// What identifies that start of the machine.
    pub(crate) boot: Bytes,
    /// Of the run.
    pub(crate) name: Bytes,
}

const TAB: u8 = b'\t';

/// None if the line lists no run.
#[tactic(auto, unfolding(crate::specs::Runs::listed_on))]
fn listed_on(alloc: Global, line: &[u8]) -> Result<Option<ListedRun>, AllocError>
    ensures { IfOk result (λ run. run ≡ listed_on line.now) }
{
    let (Some(process), Some(start)) = (piece(line, TAB, 0), piece(line, TAB, 1)) else {
        return Ok(None);
    };
    let (Some(boot), Some(name)) = (piece(line, TAB, 2), piece(line, TAB, 3)) else {
        return Ok(None);
    };
    Ok(Some(ListedRun {
        process: Bytes::from_slice(alloc, process)?,
        start: Bytes::from_slice(alloc, start)?,
        boot: Bytes::from_slice(alloc, boot)?,
        name: Bytes::from_slice(alloc, name)?,
    }))
}

/// Lines that list no run are ignored.
#[tactic(auto, unfolding(crate::specs::Runs::listed_by, cs_table::specs::Text::lines_of))]
pub(crate) fn read_runs(alloc: Global, text: &[u8]) -> Result<Vec<ListedRun>, AllocError>
    ensures { IfOk result (λ runs. runs.items ≡ listed_in text.now) }
{
    let mut runs = Vec::new(alloc);
    let mut rest = text;
    while !rest.is_empty() {
        let (line, behind) = first_line(rest);
        if let Some(run) = listed_on(alloc, line)? {
            runs.push(run)?;
        }
        rest = behind;
    }
    Ok(runs)
}

fn push_run(text: &mut Vec<u8>, run: &ListedRun) -> Result<(), AllocError>
    ensures { OnOk result (text.new.items ≡ text.old.items ++ run_line run.now) }
{
    text.extend_from_slice(run.process.as_slice())?;
    text.extend_from_slice(b"\t")?;
    text.extend_from_slice(run.start.as_slice())?;
    text.extend_from_slice(b"\t")?;
    text.extend_from_slice(run.boot.as_slice())?;
    text.extend_from_slice(b"\t")?;
    text.extend_from_slice(run.name.as_slice())?;
    text.extend_from_slice(b"\n")
}

pub(crate) fn push_runs(text: &mut Vec<u8>, runs: &[ListedRun]) -> Result<(), AllocError>
    ensures { OnOk result (text.new.items ≡ text.old.items ++ list_text runs.now) }
{
    for run in runs {
        push_run(text, run)?;
    }
    Ok(())
}

impl ListedRun {
    pub(crate) fn left_text(&self, alloc: Global) -> Result<Vec<u8>, AllocError>
        ensures { IfOk result (λ text. text.items ≡ left_text self.now) }
    {
        let mut text = Vec::from_slice(alloc, self.name.as_slice())?;
        text.extend_from_slice(b", process ")?;
        text.extend_from_slice(self.process.as_slice())?;
        Ok(text)
    }
}
