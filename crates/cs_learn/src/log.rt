//! Logs, read byte by byte.
ghost use Rattle.std.specs.Prelude.{◌≡◌};

use crate::evidence::{ended, without_end};
use crate::job::{Job, take_run};
use crate::line::{LogLine, Sign, read_line};
use crate::tally::Tally;
use cs_civil::Bytes;
use cs_crontab::MAX_COMMANDS;
use cs_retrace::Moment;
use cs_retrace::stamp::time_and_rest;
use cs_retrace::told::begins;
use cs_retrace::words::{behind, number, split};
use indexmap::IndexMap;
use std::alloc::{AllocError, Global};

/// The longest line of a log that is read, in bytes.
const MAX_LINE: usize = 8_192;

/// When so many runs are open, all of them are taken as runs without an end.
const MAX_OPEN: usize = 4_096;

/// What logs say of these jobs. The memory doesn't grow with the logs' length.
#[derive(Drop)]
pub struct Log {
    /// The runs that have begun and not ended, by number and due minute, with the lines of their
    /// beginnings.
    open: IndexMap<(u64, u64), LogLine>,
    /// When the last line about a run was written.
    last: Moment,
    /// The commands that this program's log lists for its daemon's table, by line number.
    commands: IndexMap<u64, Bytes>,
    /// Counts of lines of cron and of this program.
    pub tally: Tally,
    /// Counts of lines of anacron on its jobs.
    pub anacron: Tally,
    /// The paths of compressed logs.
    pub compressed: Vec<Bytes>,
    /// Whether the current log is compressed.
    is_compressed: bool,
    line: Vec<u8>,
    /// The jobs, and what the logs say of each.
    jobs: Vec<Job>,
}

/// Names a run in the log; 0 stands for no due minute.
fn name(line: &LogLine) -> (u64, u64) {
    (line.number, line.due.unwrap_or(0))
}

/// Whether a line begins as a file of gzip, xz or zstd does.
fn is_compressed(line: &[u8]) -> bool {
    line.starts_with(b"\x1f\x8b")
        || line.starts_with(b"\xfd7zXZ")
        || line.starts_with(b"\x28\xb5\x2f\xfd")
}

impl Log {
    /// Nothing is known yet. Doesn't allocate.
    pub(crate) fn new(alloc: Global, jobs: Vec<Job>) -> Log {
        Log {
            open: IndexMap::new(alloc),
            last: Moment::Universal(0),
            commands: IndexMap::new(alloc),
            tally: Tally::new(),
            anacron: Tally::new(),
            compressed: Vec::new(alloc),
            is_compressed: false,
            line: Vec::new(alloc),
            jobs,
        }
    }

    pub(crate) fn jobs(&self) -> &[Job]
        ensures { result.now ≡ self.now.jobs.items }
    {
        self.jobs.as_slice()
    }

    /// Whether the logs would show the end of a run of the job: anacron logs each end, and cron does
    /// where the logs have any.
    pub(crate) fn logs_ends(&self, job: &Job) -> bool {
        job.is_anacron() || !self.tally.has_no_ends()
    }

    /// A run begins. An open run of the same name has no end then, as numbers are used again.
    fn begin(&mut self, line: LogLine) -> Result<(), AllocError> {
        self.last = line.at;
        self.tally.begun = self.tally.begun.saturating_add(1);
        if let Some(run) = self.open.insert(name(&line), line)? {
            self.tally.unended = self.tally.unended.saturating_add(1);
            take_run(&mut self.jobs, &run, without_end(run.at, self.last))?;
        }
        Ok(())
    }

    /// The open run of the same user and command that the line ends: of the line's number, or,
    /// where the parent logs the end, of the next number, as a parent gets its number before its
    /// child.
    fn nearest(&self, line: &LogLine) -> Option<(u64, u64)> {
        let (first, due) = name(line);
        let steps = match line.sign {
            Sign::EndByParent => 1_000u64,
            _ => 1,
        };
        for step in 0..steps {
            let name = (first.saturating_add(step), due);
            if let Some(run) = self.open.get(&name) {
                if run.user.as_slice() == line.user.as_slice()
                    && run.command.as_slice() == line.command.as_slice()
                {
                    return Some(name);
                }
            }
        }
        None
    }

    fn end_run(&mut self, line: &LogLine) -> Result<(), AllocError> {
        self.last = line.at;
        let began = match self.nearest(line) {
            Some(name) => self.open.shift_remove(&name),
            None => None,
        };
        let Some(run) = began else {
            self.tally.no_beginning = self.tally.no_beginning.saturating_add(1);
            return Ok(());
        };
        match ended(run.at, line.at, &mut self.tally) {
            Some(ran) => take_run(&mut self.jobs, line, ran),
            None => Ok(()),
        }
    }

    /// Anacron's lines on other jobs are ignored.
    fn take_anacron(&mut self, line: &LogLine) -> Result<(), AllocError> {
        let identifier = line.command.as_slice();
        let mut jobs = self.jobs.iter();
        let Some(place) = jobs.position(|job| job.name.is_identifier(identifier)) else {
            return Ok(());
        };
        self.last = line.at;
        match line.sign {
            Sign::Begin => self.jobs[place].begin(line, &mut self.anacron),
            _ => self.jobs[place].end(line, &mut self.anacron),
        }
    }

    /// Adds a line on a run, with the command that is listed for it, if a table is listed.
    fn take(&mut self, alloc: Global, line: LogLine) -> Result<(), AllocError> {
        let mut line = line;
        if self.commands.len() > 0 && line.due.is_some() {
            line.is_listed = true;
            line.command = match self.commands.get(&line.number) {
                Some(command) => Bytes::from_slice(alloc, command.as_slice())?,
                None => Bytes::new(alloc),
            };
        }
        if line.is_anacron {
            return self.take_anacron(&line);
        }
        match line.sign {
            Sign::Begin => self.begin(line),
            _ => self.end_run(&line),
        }
    }

    /// Keeps the command of a line such as `job line 3: COMMAND`. A daemon that begins lists all of
    /// them again.
    fn take_other(&mut self, alloc: Global) -> Result<(), AllocError> {
        let Some((_at, words)) = time_and_rest(self.line.as_slice()) else {
            return Ok(());
        };
        if begins(words) {
            self.commands.clear();
            return Ok(());
        }
        let Some((digits, rest)) = split(b':', behind(b"job line ", words).unwrap_or(b"")) else {
            return Ok(());
        };
        let (Some(number), Some(command)) = (number(digits), behind(b" ", rest)) else {
            return Ok(());
        };
        if self.commands.len() < MAX_COMMANDS {
            let command = Bytes::from_slice(alloc, command)?;
            self.commands.insert(number, command)?;
        }
        Ok(())
    }

    fn end_line(&mut self, alloc: Global) -> Result<(), AllocError> {
        if is_compressed(self.line.as_slice()) {
            self.is_compressed = true;
        } else if self.line.len() > MAX_LINE {
            self.tally.too_long = self.tally.too_long.saturating_add(1);
        } else if let Some(line) = read_line(alloc, self.line.as_slice())? {
            self.take(alloc, line)?;
        } else {
            self.take_other(alloc)?;
        }
        self.line.clear();
        if self.open.len() >= MAX_OPEN {
            self.close_open()?;
        }
        Ok(())
    }

    /// Ends all logs: open runs have no end.
    pub(crate) fn close(&mut self) -> Result<(), AllocError> {
        for i in 0..self.jobs.len() {
            self.jobs[i].close(self.last, &mut self.anacron)?;
        }
        self.close_open()
    }

    /// Open runs of the crontab have no end.
    fn close_open(&mut self) -> Result<(), AllocError> {
        for place in 0..self.open.len() {
            if let Some((_name, line)) = self.open.get_index(place) {
                take_run(&mut self.jobs, line, without_end(line.at, self.last))?;
            }
        }
        self.tally.unended = self.tally.unended.saturating_add(self.open.len() as u64);
        self.open.clear();
        Ok(())
    }

    /// Reads the next bytes of a log. The only error is out of memory; the state is unknown then.
    pub(crate) fn bytes(&mut self, alloc: Global, bytes: &[u8]) -> Result<(), AllocError> {
        for byte in bytes {
            if *byte == b'\n' {
                self.end_line(alloc)?;
            } else if self.line.len() <= MAX_LINE {
                self.line.push(*byte)?;
            }
        }
        Ok(())
    }

    /// Ends the log at this path, and its last line, which may lack a newline. The only error is
    /// out of memory; the state is unknown then.
    pub(crate) fn end(&mut self, alloc: Global, path: &str) -> Result<(), AllocError> {
        if !self.line.is_empty() {
            self.end_line(alloc)?;
        }
        if self.is_compressed {
            self.is_compressed = false;
            self.compressed
                .push(Bytes::from_slice(alloc, path.as_bytes())?)?;
        }
        Ok(())
    }
}
