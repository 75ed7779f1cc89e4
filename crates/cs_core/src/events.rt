ghost use Rattle.std.specs.Prelude.{◌≡◌, ◌/◌, ◌≤◌, IfErr, None, OnErr, OnOk, Some, [], ◌++◌, ◌∷◌, false, set, true};
ghost use Rattle.cs_civil.specs.Calendar.{last_minute};
ghost use Rattle.cs_core.specs.Standing.{going_holds, owed_beside};
ghost use Rattle.cs_core.specs.Steps.{Takes, TakesRun, needs_memory};
ghost use Rattle.cs_plan.specs.Plan.{as_plan};
ghost use Rattle.cs_history.specs.History.{Skips, Starts, Waits, answer, opened, pass_of, same_run};
ghost use Rattle.cs_history.specs.Lists.{number_of};
ghost use Rattle.cs_history.specs.Plan.{is_cron};
ghost use Rattle.cs_history.specs.Step.{Steps, after, is_in_time, refusal, reply};
ghost use Rattle.cs_history.specs.declared.event.Event.TheVariants as event;
ghost use Rattle.cs_history.specs.declared.refusal.Refusal.TheVariants.{OutOfMemory};
ghost use Rattle.cs_locks.specs.Locks.{IsCounted, hold_of, is_listed};
ghost use Rattle.cs_roster.specs.Roster.{has, others};

use crate::event_core::Core;
use crate::lists::take_job;
use crate::rules::Rules;
use arrayvec::ArrayVec;
use cs_civil::{Day, Minute};
use cs_history::{Event, Going, Mode, Refusal, Reply, Run};
use cs_locks::LockTable;
use cs_roster::Roster;
use std::alloc::AllocError;

impl Core {
    pub(crate) fn take_unless_refused(&mut self, event: Event) -> Result<Reply, Refusal>
        ensures steps { Steps (as_plan self.old.plan) self.old.state event result self.new.state }
        ensures plan { self.new.plan ≡ self.old.plan }
        ensures memory { IfErr result (λ f. f ≡ OutOfMemory
            → needs_memory (as_plan self.old.plan) self.old.state event ≡ true) }
    {
        match self.refusal(&event) {
            Some(refusal) => Err(refusal),
            None => self.take(event),
        }
    }

    fn take(&mut self, event: Event) -> Result<Reply, Refusal>
        requires { refusal (as_plan self.old.plan) self.old.state event ≡ None }
        ensures takes { Takes (as_plan self.old.plan) self.old.state event result self.new.state }
        ensures plan { self.new.plan ≡ self.old.plan }
        ensures memory { OnErr result
            (needs_memory (as_plan self.old.plan) self.old.state event ≡ true) }
    {
        match event {
            Event::Minute(minute) => Ok(self.take_minute(minute)),
            Event::Begin(job) => Ok(self.take_begin(job)?),
            Event::Got(job, due) => Ok(self.take_got(Run { job, at: due })?),
            Event::Catch(job) => Ok(self.take_catch(job)?),
            Event::End(run) => Ok(self.take_end(run)),
            Event::Down => Ok(self.take_down()),
            Event::Up(minute) => Ok(self.take_up(minute)),
        }
    }

    fn take_minute(&mut self, minute: u64) -> Reply
        requires { refusal (as_plan self.old.plan) self.old.state (event.Minute minute) ≡ None }
        ensures reply { result
            ≡ reply (as_plan self.old.plan) self.old.state (event.Minute minute) }
        ensures state { self.new.state
            ≡ after (as_plan self.old.plan) self.old.state (event.Minute minute) }
        ensures plan { self.new.plan ≡ self.old.plan }
    {
        let minute = Minute::new(minute).unwrap();
        self.minute = minute;
        self.rules.list_due(minute, &mut self.due);
        if self.rules.is_pass_minute(minute) {
            open_pass(
                &self.rules,
                minute,
                self.stamps.as_slice(),
                self.lone,
                &mut self.begun,
                &mut self.left,
            );
        }
        Reply::Clock
    }

    fn take_begin(&mut self, job: u16) -> Result<Reply, AllocError>
        requires { refusal (as_plan self.old.plan) self.old.state (event.Begin job) ≡ None }
        ensures takes { TakesRun (as_plan self.old.plan) self.old.state (event.Begin job)
            result self.new.state }
        ensures plan { self.new.plan ≡ self.old.plan }
        ensures memory { OnErr result (needs_memory (as_plan self.old.plan) self.old.state
            (event.Begin job) ≡ true) }
    {
        if self.is_free(job) {
            return self.begin_run(job);
        }
        match self.rules.mode(job) {
            Mode::Plain => self.begin_run(job),
            Mode::Skip | Mode::Try => Ok(self.begin_skipped(job)),
            Mode::Wait | Mode::Shared => self.begin_waiting(job),
        }
    }

    fn begin_run(&mut self, job: u16) -> Result<Reply, AllocError>
        requires may { refusal (as_plan self.old.plan) self.old.state (event.Begin job) ≡ None }
        requires starts { answer (as_plan self.old.plan) self.old.state.running job ≡ Starts }
        ensures takes { TakesRun (as_plan self.old.plan) self.old.state (event.Begin job)
            result self.new.state }
        ensures plan { self.new.plan ≡ self.old.plan }
    {
        let at = self.minute.number();
        let run = Run { job, at };
        let going = Going { run, since: at };
        add_run(&self.rules, &mut self.running, &mut self.held, going)?;
        take_job(&mut self.due, job);
        Ok(Reply::Started(run))
    }

    fn begin_waiting(&mut self, job: u16) -> Result<Reply, AllocError>
        requires may { refusal (as_plan self.old.plan) self.old.state (event.Begin job) ≡ None }
        requires waits { answer (as_plan self.old.plan) self.old.state.running job ≡ Waits }
        ensures takes { TakesRun (as_plan self.old.plan) self.old.state (event.Begin job)
            result self.new.state }
        ensures plan { self.new.plan ≡ self.old.plan }
    {
        let at = self.minute.number();
        let going = Going {
            run: Run { job, at },
            since: at,
        };
        add_run(&self.rules, &mut self.waiting, &mut self.wanted, going)?;
        take_job(&mut self.due, job);
        Ok(Reply::Waiting)
    }

    fn begin_skipped(&mut self, job: u16) -> Reply
        requires may { refusal (as_plan self.old.plan) self.old.state (event.Begin job) ≡ None }
        requires skips { answer (as_plan self.old.plan) self.old.state.running job ≡ Skips }
        ensures reply { result ≡ reply (as_plan self.old.plan) self.old.state (event.Begin job) }
        ensures state { self.new.state
            ≡ after (as_plan self.old.plan) self.old.state (event.Begin job) }
        ensures plan { self.new.plan ≡ self.old.plan }
    {
        take_job(&mut self.due, job);
        Reply::Skipped
    }

    fn take_got(&mut self, run: Run) -> Result<Reply, AllocError>
        requires { refusal (as_plan self.old.plan) self.old.state (event.Got run.job run.at)
            ≡ None }
        ensures takes { TakesRun (as_plan self.old.plan) self.old.state (event.Got run.job run.at)
            result self.new.state }
        ensures plan { self.new.plan ≡ self.old.plan }
    {
        let since = self.minute.number();
        add_run(
            &self.rules,
            &mut self.running,
            &mut self.held,
            Going { run, since },
        )?;
        take_run(&self.rules, &mut self.waiting, &mut self.wanted, run);
        Ok(Reply::Started(run))
    }

    fn take_catch(&mut self, job: u16) -> Result<Reply, AllocError>
        requires { refusal (as_plan self.old.plan) self.old.state (event.Catch job) ≡ None }
        ensures takes { TakesRun (as_plan self.old.plan) self.old.state (event.Catch job)
            result self.new.state }
        ensures plan { self.new.plan ≡ self.old.plan }
    {
        let at = self.minute.number();
        let run = Run { job, at };
        let going = Going { run, since: at };
        add_run(&self.rules, &mut self.running, &mut self.held, going)?;
        self.lone = Some(job);
        self.left.remove(0);
        Ok(Reply::Started(run))
    }

    fn take_end(&mut self, run: Run) -> Reply
        requires { refusal (as_plan self.old.plan) self.old.state (event.End run) ≡ None }
        ensures reply { result ≡ reply (as_plan self.old.plan) self.old.state (event.End run) }
        ensures state { self.new.state
            ≡ after (as_plan self.old.plan) self.old.state (event.End run) }
        ensures plan { self.new.plan ≡ self.old.plan }
    {
        let in_time = self.is_in_time(self.minute.number(), run);
        if self.rules.is_cron(run.job) {
            self.end_cron(run);
        } else {
            self.end_anacron(run);
        }
        Reply::Ended(in_time)
    }

    fn end_cron(&mut self, run: Run)
        requires may { refusal (as_plan self.old.plan) self.old.state (event.End run) ≡ None }
        requires cron { is_cron (as_plan self.old.plan) run.job ≡ true }
        ensures state { self.new.state
            ≡ after (as_plan self.old.plan) self.old.state (event.End run) }
        ensures plan { self.new.plan ≡ self.old.plan }
    {
        take_run(&self.rules, &mut self.running, &mut self.held, run);
    }

    /// The job's stamp becomes the day on which the run started.
    fn end_anacron(&mut self, run: Run)
        requires may { refusal (as_plan self.old.plan) self.old.state (event.End run) ≡ None }
        requires anacron { is_cron (as_plan self.old.plan) run.job ≡ false }
        requires civil { self.old.state.now ≤ last_minute }
        ensures state { self.new.state
            ≡ after (as_plan self.old.plan) self.old.state (event.End run) }
        ensures plan { self.new.plan ≡ self.old.plan }
    {
        let crons = usize::from(self.rules.crons());
        take_run(&self.rules, &mut self.running, &mut self.held, run);
        set_stamp(&mut self.stamps, usize::from(run.job) - crons, run.at);
        self.lone = None;
    }

    fn is_in_time(&self, minute: u64, run: Run) -> bool
        ensures { result
            ≡ is_in_time (as_plan self.now.plan) minute run self.now.state.running }
    {
        match self.running.since(run) {
            Some(since) => minute < since || minute - since < self.rules.limit(run.job),
            None => true,
        }
    }

    fn take_down(&mut self) -> Reply
        requires { refusal (as_plan self.old.plan) self.old.state event.Down ≡ None }
        ensures reply { result ≡ reply (as_plan self.old.plan) self.old.state event.Down }
        ensures state { self.new.state ≡ after (as_plan self.old.plan) self.old.state event.Down }
        ensures plan { self.new.plan ≡ self.old.plan }
    {
        self.up = false;
        self.due.clear();
        self.waiting.clear();
        self.wanted.clear();
        self.left.clear();
        Reply::Went
    }

    fn take_up(&mut self, minute: u64) -> Reply
        requires { refusal (as_plan self.old.plan) self.old.state (event.Up minute) ≡ None }
        ensures reply { result ≡ reply (as_plan self.old.plan) self.old.state (event.Up minute) }
        ensures state { self.new.state
            ≡ after (as_plan self.old.plan) self.old.state (event.Up minute) }
        ensures plan { self.new.plan ≡ self.old.plan }
    {
        let minute = Minute::new(minute).unwrap();
        self.minute = minute;
        self.up = true;
        self.due.clear();
        self.waiting.clear();
        self.wanted.clear();
        open_pass(
            &self.rules,
            minute,
            self.stamps.as_slice(),
            self.lone,
            &mut self.begun,
            &mut self.left,
        );
        Reply::Came
    }
}

fn open_pass(
    rules: &Rules,
    minute: Minute,
    stamps: &[Option<Day>],
    lone: Option<u16>,
    begun: &mut Minute,
    left: &mut ArrayVec<u16, 64>,
)
    ensures { pass_of begun.new left.new.items ≡ opened (pass_of begun.old left.old.items) true
        (pass_of minute (owed_beside (as_plan rules.now) stamps.now lone minute)) }
{
    if left.is_empty() {
        *begun = minute;
        rules.list_owed(minute, stamps, lone, left);
    }
}

/// Adds a run to those that run or wait, and counts it at its lock.
fn add_run(
    rules: &Rules,
    runs: &mut Roster,
    locks: &mut LockTable,
    going: Going,
) -> Result<(), AllocError>
    requires new { has runs.old going.run ≡ false }
    requires listed { is_listed (hold_of (as_plan rules.now) going.run.job) ≡ true }
    requires counted { IsCounted (going_holds (as_plan rules.now) runs.old) locks.old }
    ensures more { OnOk result (runs.new ≡ runs.old ++ going ∷ []) }
    ensures same { OnErr result ((runs.new ≡ runs.old) × (locks.new ≡ locks.old)) }
    ensures counted { IsCounted (going_holds (as_plan rules.now) runs.new) locks.new }
{
    runs.push(going)?;
    locks.add(rules.hold(going.run.job));
    Ok(())
}

/// Removes a run from those that run or wait, and from the count of its lock.
fn take_run(rules: &Rules, runs: &mut Roster, locks: &mut LockTable, run: Run)
    requires there { has runs.old run ≡ true }
    requires once { number_of (λ x. same_run run x.run) runs.old ≤ 1 }
    requires listed { is_listed (hold_of (as_plan rules.now) run.job) ≡ true }
    requires counted { IsCounted (going_holds (as_plan rules.now) runs.old) locks.old }
    ensures others { runs.new ≡ others runs.old run }
    ensures counted { IsCounted (going_holds (as_plan rules.now) runs.new) locks.new }
{
    runs.remove(run);
    locks.take(rules.hold(run.job));
}

fn set_stamp(stamps: &mut ArrayVec<Option<Day>, 64>, place: usize, minute: u64)
    requires { minute ≤ last_minute }
    ensures { stamps.new.items ≡ set stamps.old.items place (Some (minute / 1440)) }
{
    if place < stamps.len() {
        stamps.as_mut_slice()[place] = Day::new(minute / 1_440);
    }
}
