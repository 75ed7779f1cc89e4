ghost use Rattle.std.specs.Prelude.{All, ◌≡◌, ℕ, ◌+◌, ◌<◌, ◌≤◌, length, false, Some, IfOk, IfSome};
ghost use Rattle.std.specs.Prelude.{unsigned_abs};
ghost use Rattle.cs_history.specs.Plan.{IsPlan, exclusive_group};
ghost use Rattle.cs_civil.specs.declared.minute.TheConstants.{MINUTES_OF_DAY};
ghost use Rattle.cs_plan.specs.declared.limits.TheConstants.{MAX_MINUTES, MAX_CAPACITY, MAX_OFFSET};
ghost use Rattle.cs_plan.specs.declared.limits.TheConstants.{MAX_GROUPS};

use crate::clocks::{ClockNames, copy_clocks};
use crate::group::Group;
use crate::job::Job;
use cs_anacrontab::Anacrontab;
use cs_civil::{Bytes, Hours, Sequence};
use cs_crontab::Crontab;
use cs_history::Mode;
use cs_zone::Zone;
use std::alloc::{AllocError, Global};
use std::marker::Model;

/// A crontab and an anacrontab with the declarations of their jobs.
///
/// Jobs are numbered from 0: first the commands of the crontab, then the jobs of the anacrontab,
/// each in order of line. The crontab has no `@reboot`, and none of the lines that are left out.
#[derive(Drop)]
pub struct Plan {
    crontab: Crontab,
    anacrontab: Anacrontab,
    jobs: Sequence<Job>,
    groups: Sequence<Group>,
    capacity: u8,
    hours: Hours,
    pass: Option<u16>,
    offset: i16,
    zone: Zone,
    clocks: Option<ClockNames>,
    left_out: Sequence<u32>,
    defaulted: usize,
    guessed: usize,
    untimed: Option<u32>,
    doubled: Option<Bytes>,
}

impl Model for Plan {
    ghost use Rattle.cs_plan.specs.Plan.{Declared, IsWhole};

    ghost Value = { Declared };

    ghost view = { λ a. record {
      crontab = a.crontab;
      anacrontab = a.anacrontab;
      jobs = a.jobs;
      groups = a.groups;
      capacity = a.capacity;
      hours = a.hours;
      pass = a.pass;
      offset = a.offset;
      zone = a.zone;
      clocks = a.clocks;
      left_out = a.left_out;
      defaulted = a.defaulted;
      guessed = a.guessed;
      untimed = a.untimed;
      doubled = a.doubled;
    } };

    ghost invariant = { λ a. IsWhole
        (record {
          crontab = a.crontab;
          anacrontab = a.anacrontab;
          jobs = a.jobs;
          groups = a.groups;
          capacity = a.capacity;
          hours = a.hours;
          pass = a.pass;
          offset = a.offset;
          zone = a.zone;
          clocks = a.clocks;
          left_out = a.left_out;
          defaulted = a.defaulted;
          guessed = a.guessed;
          untimed = a.untimed;
          doubled = a.doubled;
        }) };
}

fn copy_groups(alloc: Global, groups: &[Group]) -> Result<Sequence<Group>, AllocError>
    ensures { IfOk result (λ copies. copies ≡ groups.now) }
{
    let mut copies = Sequence::new(alloc);
    for group in groups {
        copies.push(group.copy(alloc)?)?;
    }
    Ok(copies)
}

/// Copies a name, if there is one.
pub fn copy_name(alloc: Global, name: &Option<Bytes>) -> Result<Option<Bytes>, AllocError>
    ensures { IfOk result (λ copy. copy ≡ name.now) }
{
    match name {
        Some(name) => Ok(Some(Bytes::from_slice(alloc, name.as_slice())?)),
        None => Ok(None),
    }
}

impl Plan {
    ghost use Rattle.cs_plan.specs.Plan.{IsTimed, IsWhole, crons, as_plan, job_at};

    /// Makes a plan of tables and declarations that fit together.
    pub fn new(
        crontab: Crontab,
        anacrontab: Anacrontab,
        jobs: Sequence<Job>,
        groups: Sequence<Group>,
        capacity: u8,
        hours: Hours,
        pass: Option<u16>,
        offset: i16,
        zone: Zone,
        clocks: Option<ClockNames>,
        left_out: Sequence<u32>,
        defaulted: usize,
        guessed: usize,
        untimed: Option<u32>,
        doubled: Option<Bytes>,
    ) -> Plan
        requires { IsWhole (record {
          crontab = crontab;
          anacrontab = anacrontab;
          jobs = jobs;
          groups = groups;
          capacity = capacity;
          hours = hours;
          pass = pass;
          offset = offset;
          zone = zone;
          clocks = clocks;
          left_out = left_out;
          defaulted = defaulted;
          guessed = guessed;
          untimed = untimed;
          doubled = doubled;
        }) }
        ensures { result
            ≡ record {
              crontab = crontab;
              anacrontab = anacrontab;
              jobs = jobs;
              groups = groups;
              capacity = capacity;
              hours = hours;
              pass = pass;
              offset = offset;
              zone = zone;
              clocks = clocks;
              left_out = left_out;
              defaulted = defaulted;
              guessed = guessed;
              untimed = untimed;
              doubled = doubled;
            } }
    {
        Plan {
            crontab,
            anacrontab,
            jobs,
            groups,
            capacity,
            hours,
            pass,
            offset,
            zone,
            clocks,
            left_out,
            defaulted,
            guessed,
            untimed,
            doubled,
        }
    }

    /// Copies the plan.
    pub fn copy(&self, alloc: Global) -> Result<Plan, AllocError>
        ensures { IfOk result (λ plan. plan ≡ self.now) }
    {
        Ok(Plan {
            crontab: self.crontab.copy(alloc)?,
            anacrontab: self.anacrontab.copy(alloc)?,
            jobs: Sequence::from_slice(alloc, self.jobs.as_slice())?,
            groups: copy_groups(alloc, self.groups.as_slice())?,
            capacity: self.capacity,
            hours: self.hours,
            pass: self.pass,
            offset: self.offset,
            zone: self.zone,
            clocks: copy_clocks(alloc, &self.clocks)?,
            left_out: Sequence::from_slice(alloc, self.left_out.as_slice())?,
            defaulted: self.defaulted,
            guessed: self.guessed,
            untimed: self.untimed,
            doubled: copy_name(alloc, &self.doubled)?,
        })
    }

    /// Copies the plan with other jobs.
    pub fn with_jobs(&self, alloc: Global, jobs: Sequence<Job>) -> Result<Plan, AllocError>
        requires { IsWhole (record self.now { jobs = jobs }) }
        ensures { IfOk result (λ plan. plan ≡ record self.now { jobs = jobs }) }
    {
        let mut plan = self.copy(alloc)?;
        plan.jobs = jobs;
        Ok(plan)
    }

    /// Returns the crontab, which has no `@reboot`.
    pub fn crontab(&self) -> &Crontab
        ensures value { result.now ≡ self.now.crontab }
        ensures timed { All IsTimed self.now.crontab.lines }
    {
        &self.crontab
    }

    /// Returns the anacrontab.
    pub fn anacrontab(&self) -> &Anacrontab
        ensures { result.now ≡ self.now.anacrontab }
    {
        &self.anacrontab
    }

    /// Returns how many jobs are the crontab's; they are the first.
    pub fn crons(&self) -> usize
        ensures value { result ≡ crons self.now }
        ensures within { crons self.now ≤ length self.now.jobs }
    {
        self.crontab.lines().len()
    }

    /// Returns what is declared of the jobs, by number: at most 320.
    pub fn jobs(&self) -> &[Job]
        ensures value { result.now ≡ self.now.jobs }
        // each line has its job, each number is in range, and each group exists
        ensures whole { IsWhole self.now }
        // so it is a plan as histories have it
        ensures resolved { IsPlan (as_plan self.now) }
        ensures few { length self.now.jobs ≤ 320 }
        ensures limits { (j : ℕ) → (as_plan self.now).limit j ≤ MAX_MINUTES }
        // an anacron job that ran today isn't due today
        ensures stamped { (j day : ℕ) → (as_plan self.now).owed j (Some day) day ≡ false }
    {
        self.jobs.as_slice()
    }

    /// Returns what is declared of the job with this number. Past the last job it is a minute,
    /// weight 1, and neither group nor lock.
    pub fn job_at(&self, number: u16) -> Job
        ensures { result ≡ job_at self.now number }
    {
        match self.jobs().get(usize::from(number)) {
            Some(job) => *job,
            None => Job::new(0, 1, 1, None, Mode::Plain),
        }
    }

    /// Returns the groups, in the order of the declarations.
    pub fn groups(&self) -> &[Group]
        ensures value { result.now ≡ self.now.groups }
        ensures few { length self.now.groups ≤ MAX_GROUPS }
    {
        self.groups.as_slice()
    }

    /// Whether runs of this group's jobs exclude one another.
    pub fn is_exclusive(&self, group: Option<u8>) -> bool
        ensures { result ≡ exclusive_group (as_plan self.now) group }
    {
        match group {
            Some(number) => match self.groups().get(usize::from(number)) {
                Some(group) => group.is_exclusive(),
                None => false,
            },
            None => false,
        }
    }

    /// Returns the most that running jobs may weigh together, from 1 to
    /// [`MAX_CAPACITY`](crate::MAX_CAPACITY).
    pub fn capacity(&self) -> u8
        ensures value { result ≡ self.now.capacity }
        ensures in_range { (1 ≤ self.now.capacity) × (self.now.capacity ≤ MAX_CAPACITY) }
    {
        self.capacity
    }

    /// Returns the catch-up hours.
    pub fn hours(&self) -> Hours
        ensures { result ≡ self.now.hours }
    {
        self.hours
    }

    /// Returns the minute of each day, below 1,440, at which a catch-up pass begins, if declared.
    pub fn pass(&self) -> Option<u16>
        ensures value { result ≡ self.now.pass }
        ensures in_range { IfSome self.now.pass (λ m. m < MINUTES_OF_DAY) }
    {
        self.pass
    }

    /// Returns the minutes by which the operator's clock is ahead of UTC, at most
    /// [`MAX_OFFSET`](crate::MAX_OFFSET) either way.
    pub fn offset(&self) -> i16
        ensures value { result ≡ self.now.offset }
        ensures in_range { unsigned_abs self.now.offset ≤ MAX_OFFSET }
    {
        self.offset
    }

    /// Returns the zone by whose clock the lines are due; [`Zone::none`] if the clock keeps the
    /// offset all year.
    pub fn zone(&self) -> &Zone
        ensures { result.now ≡ self.now.zone }
    {
        &self.zone
    }

    /// Returns the names of both clocks of the zone, if the declarations name a zone.
    pub fn clocks(&self) -> &Option<ClockNames>
        ensures { result.now ≡ self.now.clocks }
    {
        &self.clocks
    }

    /// Returns the numbers of the lines that are left out of the crontab, in order of line.
    pub fn left_out(&self) -> &[u32]
        ensures { result.now ≡ self.now.left_out }
    {
        self.left_out.as_slice()
    }

    /// Returns how many jobs have no entry, and so the default.
    pub fn defaulted(&self) -> usize
        ensures { result ≡ self.now.defaulted }
    {
        self.defaulted
    }

    /// Returns how many entries are a draft's guess, which nobody has replaced.
    pub fn guessed(&self) -> usize
        ensures { result ≡ self.now.guessed }
    {
        self.guessed
    }

    /// Returns the number of the first line whose entry gives its command and no schedule, while
    /// another line has that command too.
    pub fn untimed(&self) -> Option<u32>
        ensures { result ≡ self.now.untimed }
    {
        self.untimed
    }

    /// Returns the first member that stands twice in one object of the declarations' text. The last
    /// one of that name counts.
    pub fn doubled(&self) -> &Option<Bytes>
        ensures { result.now ≡ self.now.doubled }
    {
        &self.doubled
    }
}
