ghost use Rattle.std.specs.Prelude.{◌≡◌, ◌<◌, ◌≤◌, ◌-◌, ◌%◌, ◌/◌, ℕ, length, [], None, Some, IfOk};
ghost use Rattle.std.specs.List.{insert};
ghost use Rattle.cs_core.specs.Standing.{is_job, owed_beside};
ghost use Rattle.cs_crontab.specs.declared.limits.TheConstants.{MAX_COMMANDS};
ghost use Rattle.cs_civil.specs.Calendar.{kind};
ghost use Rattle.cs_plan.specs.Plan.{as_plan, crons, is_due};
ghost use Rattle.cs_history.specs.Plan.{by_delay, due_at, is_cron, is_pass_minute, is_sooner, shares_in, takes};
ghost use Rattle.cs_history.specs.Lists.{placed};
ghost use Rattle.cs_locks.specs.Locks.{hold_in, hold_of};

use crate::lists::stamp_at;
use arrayvec::ArrayVec;
use cs_anacrontab::{Period, is_due};
use cs_civil::{Day, DayKind, Minute, kind_of};
use cs_crontab::When;
use cs_history::Mode;
use cs_locks::Hold;
use cs_plan::Plan;
use std::alloc::{AllocError, Global};
use std::marker::Model;

/// The plan that a core runs, and its anacron jobs by delay, then line.
#[derive(Drop)]
pub(crate) struct Rules {
    plan: Plan,
    order: ArrayVec<u16, 64>,
}

impl Model for Rules {
    ghost use Rattle.std.specs.Prelude.{◌≡◌};
    ghost use Rattle.cs_plan.specs.Plan.{Declared, as_plan};
    ghost use Rattle.cs_history.specs.Plan.{by_delay};

    ghost Value = { Declared };

    ghost view = { λ r. r.plan };

    ghost invariant = { λ r. r.order.items ≡ by_delay (as_plan r.plan) };
}

fn hold_in(mode: Mode, group: u8) -> Hold
    ensures { result ≡ hold_in (takes mode) (shares_in mode) (Some group) }
{
    match mode {
        Mode::Plain => Hold::Nothing,
        Mode::Skip | Mode::Try | Mode::Wait => Hold::Alone(group),
        Mode::Shared => Hold::Shared(group),
    }
}

impl Rules {
    /// The rules keep a copy of the plan.
    pub(crate) fn new(alloc: Global, plan: &Plan) -> Result<Rules, AllocError>
        ensures { IfOk result (λ rules. rules ≡ plan.now) }
    {
        Ok(Rules {
            plan: plan.copy(alloc)?,
            order: by_delay(plan),
        })
    }

    pub(crate) fn plan(&self) -> &Plan
        ensures { result.now ≡ self.now }
    {
        &self.plan
    }

    /// How many jobs are cron jobs; they come first.
    pub(crate) fn crons(&self) -> u16
        ensures value { result ≡ crons self.now }
        ensures few { result ≤ MAX_COMMANDS }
    {
        self.plan.crontab().lines().len() as u16
    }

    pub(crate) fn is_cron(&self, job: u16) -> bool
        ensures { result ≡ is_cron (as_plan self.now) job }
    {
        job < self.crons()
    }

    pub(crate) fn mode(&self, job: u16) -> Mode
        ensures { result ≡ (as_plan self.now).mode job }
    {
        self.plan.job_at(job).mode()
    }

    fn group(&self, job: u16) -> Option<u8>
        ensures { result ≡ (as_plan self.now).group job }
    {
        self.plan.job_at(job).group()
    }

    /// The job's declared time, in minutes.
    pub(crate) fn limit(&self, job: u16) -> u64
        ensures { result ≡ (as_plan self.now).limit job }
    {
        u64::from(self.plan.job_at(job).max())
    }

    /// What a run of the job does with the lock of its group.
    pub(crate) fn hold(&self, job: u16) -> Hold
        ensures { result ≡ hold_of (as_plan self.now) job }
    {
        match self.group(job) {
            Some(group) => hold_in(self.mode(job), group),
            None => Hold::Nothing,
        }
    }

    fn is_due_on(&self, job: u16, day: DayKind, minute_of_day: u16) -> bool
        requires { minute_of_day < 1440 }
        ensures { (t : ℕ) → day ≡ kind (t / 1440) → minute_of_day ≡ t % 1440
            → result ≡ (as_plan self.now).due job t }
    {
        match self.plan.crontab().lines().get(usize::from(job)) {
            Some(line) => match line.when() {
                When::At(schedule) => { self.plan.zone().is_due_on(schedule, day, minute_of_day) }
                When::Reboot => false,
            },
            None => false,
        }
    }

    pub(crate) fn list_due(&self, minute: Minute, pending: &mut ArrayVec<u16, 256>)
        ensures { pending.new.items ≡ due_at (as_plan self.now) minute }
    {
        pending.clear();
        let kind = kind_of(minute.day());
        let minute_of_day = minute.minute_of_day();
        for job in 0..self.crons() {
            if self.is_due_on(job, kind, minute_of_day) {
                pending.push(job);
            }
        }
    }

    pub(crate) fn is_pass_minute(&self, minute: Minute) -> bool
        ensures { result ≡ is_pass_minute (as_plan self.now) minute }
    {
        match self.plan.pass() {
            Some(pass) => minute.minute_of_day() == pass,
            None => false,
        }
    }

    /// The minutes that an anacron job waits after the start of a pass.
    pub(crate) fn delay(&self, job: u16) -> u32
        ensures { result ≡ (as_plan self.now).delay job }
    {
        delay(&self.plan, job)
    }

    fn is_owed(&self, job: u16, stamp: Option<Day>, today: Day) -> bool
        ensures { result ≡ (as_plan self.now).owed job stamp today }
    {
        let line = usize::from(job).saturating_sub(self.plan.crons());
        match self.plan.anacrontab().lines().get(line) {
            Some(line) => is_due(line.period(), stamp, today),
            None => is_due(Period::Monthly, stamp, today),
        }
    }

    /// Lists the jobs of a pass that begins at a minute, except the anacron job that runs.
    pub(crate) fn list_owed(
        &self,
        minute: Minute,
        stamps: &[Option<Day>],
        lone: Option<u16>,
        left: &mut ArrayVec<u16, 64>,
    )
        requires { left.old.items ≡ [] }
        ensures { left.new.items ≡ owed_beside (as_plan self.now) stamps.now lone minute }
    {
        let today = minute.day();
        for job in self.order.as_slice() {
            let place = usize::from(*job).saturating_sub(self.plan.crons());
            if self.is_owed(*job, stamp_at(stamps, place), today) && !is_job(lone, *job) {
                left.push(*job);
            }
        }
    }
}

fn is_job(lone: Option<u16>, job: u16) -> bool
    ensures { result ≡ is_job lone job }
{
    match lone {
        Some(other) => other == job,
        None => false,
    }
}

fn delay(plan: &Plan, job: u16) -> u32
    ensures { result ≡ (as_plan plan.now).delay job }
{
    let line = usize::from(job).saturating_sub(plan.crons());
    match plan.anacrontab().lines().get(line) {
        Some(line) => line.delay(),
        None => 0,
    }
}

/// The index of the first job with a longer delay.
fn place(plan: &Plan, order: &[u16], job: u16) -> usize
    ensures bound { result ≤ length order.now }
    ensures place { insert order.now result job
        ≡ placed (is_sooner (as_plan plan.now)) job order.now }
{
    let minutes = delay(plan, job);
    for (place, other) in order.iter().enumerate() {
        if minutes < delay(plan, *other) {
            return place;
        }
    }
    order.len()
}

#[tactic(auto, using(crate::proofs::Order::few_anacron, crate::proofs::Order::none_below, crate::proofs::Order::one_below))]
fn by_delay(plan: &Plan) -> ArrayVec<u16, 64>
    ensures { result.items ≡ by_delay (as_plan plan.now) }
{
    let mut order = ArrayVec::new();
    let crons = plan.crontab().lines().len();
    let jobs = plan.jobs().len();
    for job in crons..jobs {
        let job = job as u16;
        let place = place(plan, order.as_slice(), job);
        order.insert(place, job);
    }
    order
}
