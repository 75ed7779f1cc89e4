ghost use Rattle.std.specs.Prelude.{◌≡◌, ◌≢◌, ◌<◌, ◌≤◌, length, map, All, AllPairs, IfOk};
ghost use Rattle.cs_table.specs.Environment.{above, names_of, first_places, IsLast};
ghost use Rattle.cs_anacrontab.specs.declared.limits.TheConstants.{MAX_JOBS, MAX_DELAY};

use crate::period::Period;
use cs_civil::{Bytes, Sequence};
use cs_table::{Setting, copy_settings, env_of};
use std::alloc::{AllocError, Global};
use std::marker::Model;

/// A job line of an anacrontab.
#[derive(Drop)]
pub struct Job {
    place: u32,
    rhythm: Period,
    minutes: u32,
    name: Bytes,
    text: Bytes,
}

impl Model for Job {
    ghost use Rattle.cs_anacrontab.specs.Anacrontab.{JobLine};

    ghost Value = { JobLine };

    ghost view = { λ a. record {
      number = a.place;
      period = a.rhythm;
      delay = a.minutes;
      identifier = a.name;
      command = a.text;
    } };
}

impl Job {
    pub(crate) fn new(
        number: u32,
        period: Period,
        delay: u32,
        identifier: Bytes,
        command: Bytes,
    ) -> Job
        ensures { result
            ≡ record {
              number = number;
              period = period;
              delay = delay;
              identifier = identifier;
              command = command;
            } }
    {
        Job {
            place: number,
            rhythm: period,
            minutes: delay,
            name: identifier,
            text: command,
        }
    }

    fn copy(&self, alloc: Global) -> Result<Job, AllocError>
        ensures { IfOk result (λ job. job ≡ self.now) }
    {
        Ok(Job {
            place: self.place,
            rhythm: self.rhythm,
            minutes: self.minutes,
            name: Bytes::from_slice(alloc, self.name.as_slice())?,
            text: Bytes::from_slice(alloc, self.text.as_slice())?,
        })
    }

    /// Returns the number of the line, counted from 1 over all lines of the table.
    pub fn number(&self) -> u32
        ensures { result ≡ self.now.number }
    {
        self.place
    }

    /// Returns how often it runs.
    pub fn period(&self) -> Period
        ensures { result ≡ self.now.period }
    {
        self.rhythm
    }

    /// Returns the delay of its start in minutes, from 0 to [`MAX_DELAY`](crate::MAX_DELAY).
    pub fn delay(&self) -> u32
        ensures { result ≡ self.now.delay }
    {
        self.minutes
    }

    /// Returns the identifier, which names its stamp file and is UTF-8.
    pub fn identifier(&self) -> &[u8]
        ensures { result.now ≡ self.now.identifier }
    {
        self.name.as_slice()
    }

    /// Returns the command, to the end of the line, trailing blanks included.
    pub fn command(&self) -> &[u8]
        ensures { result.now ≡ self.now.command }
    {
        self.text.as_slice()
    }
}

fn copy_jobs(alloc: Global, jobs: &[Job]) -> Result<Sequence<Job>, AllocError>
    ensures { IfOk result (λ copies. copies ≡ jobs.now) }
{
    let mut copies = Sequence::new(alloc);
    for job in jobs {
        copies.push(job.copy(alloc)?)?;
    }
    Ok(copies)
}

/// An anacrontab: its settings, and at most [`MAX_JOBS`](crate::MAX_JOBS) jobs with different
/// identifiers.
#[derive(Drop)]
pub struct Anacrontab {
    variables: Sequence<Setting>,
    jobs: Sequence<Job>,
}

impl Model for Anacrontab {
    ghost use Rattle.cs_anacrontab.specs.Anacrontab.{Table, IsOrdered};

    ghost Value = { Table };

    ghost view = { λ a. record { settings = a.variables; lines = a.jobs } };

    ghost invariant = { λ a. IsOrdered (record { settings = a.variables; lines = a.jobs }) };
}

impl Anacrontab {
    ghost use Rattle.cs_anacrontab.specs.Anacrontab.{IsOrdered, IsPossible, no_lines};

    /// Returns the anacrontab of an empty file.
    pub fn none(alloc: Global) -> Anacrontab
        ensures { result ≡ no_lines }
    {
        Anacrontab {
            variables: Sequence::new(alloc),
            jobs: Sequence::new(alloc),
        }
    }

    pub(crate) fn new(settings: Sequence<Setting>, lines: Sequence<Job>) -> Anacrontab
        requires { IsOrdered (record { settings = settings; lines = lines }) }
        ensures { result ≡ record { settings = settings; lines = lines } }
    {
        Anacrontab {
            variables: settings,
            jobs: lines,
        }
    }

    /// Copies the anacrontab.
    pub fn copy(&self, alloc: Global) -> Result<Anacrontab, AllocError>
        ensures { IfOk result (λ table. table ≡ self.now) }
    {
        Ok(Anacrontab {
            variables: copy_settings(alloc, self.variables.as_slice())?,
            jobs: copy_jobs(alloc, self.jobs.as_slice())?,
        })
    }

    /// Returns the settings, in order of line.
    pub fn settings(&self) -> &[Setting]
        ensures value { result.now ≡ self.now.settings }
        ensures rising { AllPairs (λ x y. x.number < y.number) self.now.settings }
    {
        self.variables.as_slice()
    }

    /// Returns the jobs, in order of line.
    pub fn lines(&self) -> &[Job]
        ensures value { result.now ≡ self.now.lines }
        ensures few { length self.now.lines ≤ MAX_JOBS }
        ensures possible { All IsPossible self.now.lines }
        ensures rising { AllPairs (λ x y. x.number < y.number) self.now.lines }
        ensures distinct { AllPairs (λ x y. x.identifier ≢ y.identifier) self.now.lines }
    {
        self.jobs.as_slice()
    }

    /// Returns the environment of the job on that line, like [`env_of`](cs_table::env_of).
    pub fn env_of(&self, alloc: Global, line: u32) -> Result<Sequence<(Bytes, Bytes)>, AllocError>
        ensures names { IfOk result
            (λ env. map (λ v. v.0) env ≡ first_places (names_of (above line self.now.settings))) }
        ensures values { IfOk result (All (IsLast (above line self.now.settings))) }
    {
        env_of(alloc, self.settings(), line)
    }
}
