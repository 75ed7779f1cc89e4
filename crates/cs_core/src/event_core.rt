ghost use Rattle.std.specs.Prelude.{◌≡◌, ◌≤◌, ◌↔◌, IfOk, IfErr, MatchResult, None, Some, true, ◌-◌, [], ◌++◌, length, replicate, take};
ghost use Rattle.std.specs.Option.{option_map};
ghost use Rattle.cs_core.specs.Standing.{Standing, names};
ghost use Rattle.cs_core.specs.Steps.{Takes, is_start, needs_memory};
ghost use Rattle.cs_plan.specs.Plan.{as_plan};
ghost use Rattle.cs_history.specs.History.{From, History, answer, is_free};
ghost use Rattle.cs_history.specs.Names.{jobs_left};
ghost use Rattle.cs_history.specs.Plan.{first_start};
ghost use Rattle.cs_history.specs.Step.{Follows, Steps, after, refusal, state_of};
ghost use Rattle.cs_history.specs.declared.refusal.Refusal.TheVariants.{OutOfMemory};
ghost use Rattle.cs_roster.specs.Roster.{others};

use crate::lists::stamp_at;
use crate::rules::Rules;
use arrayvec::ArrayVec;
use cs_civil::{Day, Minute};
use cs_history::{Event, Mode, Refusal, Reply, Run, Start};
use cs_locks::LockTable;
use cs_plan::Plan;
use cs_roster::Roster;
use std::alloc::{AllocError, Global};
use std::marker::Model;

/// A plan, and the state after the events of a history: the minute, up or down, the pending jobs,
/// the waiting and running runs, the stamps and the open pass.
#[derive(Drop)]
pub struct Core {
    pub(crate) rules: Rules,
    pub(crate) minute: Minute,
    pub(crate) up: bool,
    pub(crate) due: ArrayVec<u16, 256>,
    pub(crate) waiting: Roster,
    pub(crate) running: Roster,
    /// How many running runs hold each lock.
    pub(crate) held: LockTable,
    /// How many waiting runs wait for each lock.
    pub(crate) wanted: LockTable,
    /// The anacron job that runs; there is at most one.
    pub(crate) lone: Option<u16>,
    pub(crate) stamps: ArrayVec<Option<Day>, 64>,
    pub(crate) begun: Minute,
    pub(crate) left: ArrayVec<u16, 64>,
}

impl Model for Core {
    ghost use Rattle.cs_core.specs.Standing.{Standing, IsKept, state_in};
    ghost use Rattle.cs_plan.specs.Plan.{as_plan};
    ghost use Rattle.cs_history.specs.History.{pass_of};

    ghost Value = { Standing };

    ghost view = { λ c. record {
      plan = c.rules;
      state = state_in c.minute c.up c.due.items c.waiting c.running c.stamps.items
          (pass_of c.begun c.left.items);
    } };

    ghost invariant = { λ c. IsKept (as_plan c.rules)
        (state_in c.minute c.up c.due.items c.waiting c.running c.stamps.items
        (pass_of c.begun c.left.items))
        c.held c.wanted c.lone };
}

impl Core {
    /// Opens a core, with a copy of the plan, at a start: nothing runs, waits or is pending, and no
    /// pass is open.
    pub fn open(alloc: Global, plan: &Plan, start: Start) -> Result<Core, AllocError>
        requires { first_start ≤ start.now }
        ensures plan { IfOk result (λ core. core.plan ≡ plan.now) }
        ensures state { IfOk result
            (λ core. core.state ≡ state_of (as_plan plan.now) (From start)) }
    {
        let _jobs = plan.jobs();
        Ok(Core {
            rules: Rules::new(alloc, plan)?,
            minute: start.now(),
            up: start.is_up(),
            due: ArrayVec::new(),
            waiting: Roster::new(alloc),
            running: Roster::new(alloc),
            held: LockTable::new(),
            wanted: LockTable::new(),
            lone: None,
            stamps: stamps_of(plan, &start),
            begun: start.now(),
            left: ArrayVec::new(),
        })
    }

    /// Answers whether [`step`](Core::step) would refuse the event, and why; `OutOfMemory` aside.
    pub fn test(&self, event: &Event) -> Result<(), Refusal>
        ensures { MatchResult result
            (λ _. refusal (as_plan self.now.plan) self.now.state event.now ≡ None)
            (λ f. refusal (as_plan self.now.plan) self.now.state event.now ≡ Some f) }
    {
        match self.refusal(event) {
            None => Ok(()),
            Some(refusal) => Err(refusal),
        }
    }

    /// Takes an event if it may come next in every history with this state.
    ///
    /// err: the first refusal; `OutOfMemory`, which comes last, only if memory runs out. A refused
    /// event changes nothing.
    pub fn step(&mut self, event: Event) -> Result<Reply, Refusal>
        ensures steps { Steps (as_plan self.old.plan) self.old.state event result self.new.state }
        ensures history { (h : History) → self.old.state ≡ state_of (as_plan self.old.plan) h
            → Follows (as_plan self.old.plan) h event result self.new.state }
        ensures plan { self.new.plan ≡ self.old.plan }
        // Minute, End, Down, Up and a Begin that is skipped take no memory.
        ensures memory { IfErr result (λ f. f ≡ OutOfMemory
            → needs_memory (as_plan self.old.plan) self.old.state event ≡ true) }
    {
        self.take_unless_refused(event)
    }

    /// Returns the present civil minute.
    pub fn now(&self) -> Minute
        ensures { result ≡ self.now.state.now }
    {
        self.minute
    }

    /// Whether the daemon is up.
    pub fn is_up(&self) -> bool
        ensures { result ≡ self.now.state.up }
    {
        self.up
    }

    /// Returns the jobs that are due now and have not begun, by number.
    pub fn pending(&self) -> &[u16]
        ensures { result.now ≡ self.now.state.pending }
    {
        self.due.as_slice()
    }

    /// Returns the runs that wait for a lock, in order of Begin, each with the minute of its Begin.
    pub fn waiting(&self) -> &Roster
        ensures value { names result.now ≡ self.now.state.waiting }
        ensures count { length result.now ≡ length self.now.state.waiting }
        ensures none { (result.now ≡ []) ↔ (self.now.state.waiting ≡ []) }
    {
        &self.waiting
    }

    /// Returns the runs that run, in order of start.
    pub fn running(&self) -> &Roster
        ensures { result.now ≡ self.now.state.running }
    {
        &self.running
    }

    /// Returns how many runs are running after the event, if it is accepted.
    pub fn runs_after(&self, event: &Event) -> usize
        ensures { result ≡ length (after (as_plan self.now.plan) self.now.state event.now).running }
    {
        let running = self.running.len();
        match *event {
            Event::Minute(_) => running,
            Event::Begin(job) => {
                if self.starts(job) {
                    running + 1
                } else {
                    running
                }
            }
            Event::Got(_, _) => running + 1,
            Event::Catch(_) => running + 1,
            Event::End(run) => self.runs_without(run),
            Event::Down => running,
            Event::Up(_) => running,
        }
    }

    fn runs_without(&self, run: Run) -> usize
        ensures { result ≡ length (others self.now.state.running run) }
    {
        if self.running.contains(run) {
            self.running.len() - 1
        } else {
            self.running.len()
        }
    }

    pub(crate) fn is_free(&self, job: u16) -> bool
        ensures { result ≡ is_free (as_plan self.now.plan) self.now.state.running job }
    {
        self.held.is_free(self.rules.hold(job))
    }

    fn starts(&self, job: u16) -> bool
        ensures { result ≡ is_start (answer (as_plan self.now.plan) self.now.state.running job) }
    {
        if self.is_free(job) {
            return true;
        }
        match self.rules.mode(job) {
            Mode::Plain => true,
            Mode::Skip | Mode::Try => false,
            Mode::Wait | Mode::Shared => false,
        }
    }

    /// Returns the stamps, by anacron job.
    pub fn stamps(&self) -> &[Option<Day>]
        ensures { result.now ≡ self.now.state.stamps }
    {
        self.stamps.as_slice()
    }

    /// Returns the minute at which the open pass began, if one is open.
    pub fn pass(&self) -> Option<Minute>
        ensures { result ≡ option_map (λ o. o.at) self.now.state.pass }
    {
        if self.left.is_empty() {
            None
        } else {
            Some(self.begun)
        }
    }

    /// Returns the jobs that the open pass has yet to start, in order; none if no pass is open.
    pub fn left(&self) -> &[u16]
        ensures { result.now ≡ jobs_left self.now.state.pass }
    {
        self.left.as_slice()
    }

    /// Returns the plan.
    pub fn plan(&self) -> &Plan
        ensures { result.now ≡ self.now.plan }
    {
        self.rules.plan()
    }
}

#[tactic(auto, using(crate::proofs::Order::few_anacron, crate::proofs::Stamps::next_stamp))]
fn stamps_of(plan: &Plan, start: &Start) -> ArrayVec<Option<Day>, 64>
    ensures { result.items
        ≡ take ((as_plan plan.now).jobs - (as_plan plan.now).crons)
        (start.now.stamps ++ replicate ((as_plan plan.now).jobs - (as_plan plan.now).crons) None) }
{
    let mut stamps = ArrayVec::new();
    for place in 0..plan.jobs().len() - plan.crons() {
        stamps.push(stamp_at(start.stamps(), place));
    }
    stamps
}
