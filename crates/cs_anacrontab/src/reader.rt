ghost use Rattle.std.specs.Prelude.{◌≡◌, IfOk, IfErr};
ghost use Rattle.cs_table.specs.Table.{Denotes, table_of};
ghost use Rattle.cs_anacrontab.specs.Anacrontab.{no_lines, with_setting, with_job};
ghost use Rattle.cs_anacrontab.specs.Faults.{IsAnacrontab, IsFaultOf, Means, Meaning};
ghost use Rattle.cs_anacrontab.specs.Table.{is_named, added};
ghost use Rattle.cs_anacrontab.specs.declared.fault.JobFault.TheVariants.{TooLong};

use crate::fault::{AnacronFault, JobFault};
use crate::limits::MAX_JOBS;
use crate::line::{Entry, from_identifier, read_line};
use crate::period::Period;
use crate::table::{Anacrontab, Job};
use cs_civil::{Bytes, Sequence};
use cs_table::text::skip_blanks;
use cs_table::{Draft, Setting, Wrong, read_table};
use std::alloc::{AllocError, Global};
use std::marker::Model;

#[derive(Drop)]
struct AnacrontabDraft {
    variables: Sequence<Setting>,
    jobs: Sequence<Job>,
}

impl Model for AnacrontabDraft {
    ghost use Rattle.cs_anacrontab.specs.Anacrontab.{Table};

    ghost Value = { Table };

    ghost view = { λ a. record { settings = a.variables; lines = a.jobs } };
}

impl AnacrontabDraft {
    fn new(alloc: Global) -> AnacrontabDraft
        ensures { result ≡ no_lines }
    {
        AnacrontabDraft {
            variables: Sequence::new(alloc),
            jobs: Sequence::new(alloc),
        }
    }

    fn is_named(&self, identifier: &[u8]) -> bool
        ensures { result ≡ is_named identifier.now self.now.lines }
    {
        self.jobs
            .as_slice()
            .iter()
            .any(|job| job.identifier() == identifier)
    }

    fn add_setting(
        &mut self,
        alloc: Global,
        number: u32,
        name: &[u8],
        value: &[u8],
    ) -> Result<(), AllocError>
        ensures { IfOk result (λ _. self.new ≡ with_setting number name.now value.now self.old) }
    {
        let name = Bytes::from_slice(alloc, name)?;
        let value = Bytes::from_slice(alloc, value)?;
        self.variables.push(Setting::new(number, name, value))
    }

    fn add_job(
        &mut self,
        alloc: Global,
        number: u32,
        period: Period,
        delay: u32,
        identifier: &[u8],
        command: &[u8],
    ) -> Result<(), AllocError>
        ensures { IfOk result
            (λ _. self.new ≡ with_job number period delay identifier.now command.now self.old) }
    {
        let identifier = Bytes::from_slice(alloc, identifier)?;
        let command = Bytes::from_slice(alloc, command)?;
        self.jobs
            .push(Job::new(number, period, delay, identifier, command))
    }
}

impl Draft for AnacrontabDraft {
    type Fault = JobFault;

    ghost added = { added };

    fn add(
        &mut self,
        alloc: Global,
        number: u32,
        line: &[u8],
    ) -> Result<Result<(), Wrong<JobFault>>, AllocError> {
        match read_line(line) {
            Err(wrong) => Ok(Err(wrong)),
            Ok(Entry::Nothing) => Ok(Ok(())),
            Ok(Entry::Setting(name, value)) => {
                self.add_setting(alloc, number, name, value)?;
                Ok(Ok(()))
            }
            Ok(Entry::Job(period, delay, identifier, command)) => {
                if self.is_named(identifier) {
                    let text = from_identifier(line);
                    return Ok(Err(Wrong::at_front(JobFault::TwiceNamed, text, identifier)));
                }
                if self.jobs.len() < MAX_JOBS {
                    self.add_job(alloc, number, period, delay, identifier, command)?;
                    return Ok(Ok(()));
                }
                Ok(Err(Wrong::whole(JobFault::TooManyJobs, skip_blanks(line))))
            }
        }
    }
}

fn read_bytes(alloc: Global, bytes: &[u8]) -> Result<Anacrontab, AnacronFault>
    ensures { Denotes (λ table. table) (table_of added no_lines TooLong bytes.now) result }
{
    let draft = read_table(alloc, AnacrontabDraft::new(alloc), JobFault::TooLong, bytes)?;
    Ok(Anacrontab::new(draft.variables, draft.jobs))
}

/// Reads an anacrontab (anacrontab(5)), or returns its first fault. Memory may run out.
///
/// The table's length comes first; in a line its length, then a zero byte and a final backslash,
/// then its words from left to right, then [`TwiceNamed`](JobFault::TwiceNamed), then
/// [`TooManyJobs`](JobFault::TooManyJobs).
pub fn read_anacrontab(alloc: Global, bytes: &[u8]) -> Result<Anacrontab, AnacronFault>
    // The table is written in the bytes.
    ensures table { IfOk result (IsAnacrontab bytes.now) }
    // err: the first fault; `OutOfMemory` only if memory runs out
    ensures fault { IfErr result (IsFaultOf bytes.now) }
    // The bytes have no other meaning, and it is returned unless memory runs out.
    ensures only { (meaning : Meaning) → Means bytes.now meaning
        → Denotes (λ table. table) meaning result }
{
    read_bytes(alloc, bytes)
}
