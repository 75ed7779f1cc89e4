//! The log that all threads write to.

use cs_jobs::{LogLine, push_line};
use cs_plan::Plan;
use std::alloc::Global;
use std::io;

/// The log of a plan's runs. Each line is made in memory first, then written by one write; a line
/// that can't be made or written is lost, and counted.
#[derive(Drop)]
pub(crate) struct Log<'w, O> {
    alloc: Global,
    plan: &'w Plan,
    out: &'w mut O,
    line: Vec<u8>,
    faults: u64,
}

impl<'w, O: io::Write> Log<'w, O> {
    pub(crate) fn new(alloc: Global, plan: &'w Plan, out: &'w mut O) -> Log<'w, O> {
        Log {
            alloc,
            plan,
            out,
            line: Vec::new(alloc),
            faults: 0,
        }
    }

    pub(crate) fn faults(&self) -> u64 {
        self.faults
    }

    pub(crate) fn lose(&mut self, lines: u64) {
        self.faults = self.faults.saturating_add(lines);
    }

    pub(crate) fn write(&mut self, line: LogLine) {
        if self.try_write(line).is_err() {
            self.lose(1);
        }
    }

    pub(crate) fn write_all(&mut self, lines: &[LogLine]) {
        for line in lines {
            self.write(*line);
        }
    }

    pub(crate) fn write_unread(&mut self, jobs: &[usize]) {
        for job in jobs {
            self.write(LogLine::StampNotRead(*job));
        }
    }

    pub(crate) fn write_unwritten(&mut self, jobs: &[usize]) {
        for job in jobs {
            self.write(LogLine::StampNotWritten(*job));
        }
    }

    fn try_write(&mut self, line: LogLine) -> io::Result<()> {
        self.line.clear();
        push_line(self.alloc, &mut self.line, self.plan, line)?;
        self.out.write_all(self.line.as_slice())
    }
}
