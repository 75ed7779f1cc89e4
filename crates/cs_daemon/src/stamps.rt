//! The stamps of anacron jobs, and those that their store holds.
ghost use Rattle.std.specs.Prelude.{◌≡◌, ◌+◌, ◌<◌, ◌≤◌, [], ◌∷◌, ◌++◌, true};
ghost use Rattle.arrayvec.specs.ArrayVec.{array_vec_len};
ghost use Rattle.cs_daemon.specs.Stamps.{AreRead, AreWritten, day_in, lacked, stamp_at, with_written};
ghost use Rattle.cs_keep.specs.Keeping.{IsKept};

use arrayvec::ArrayVec;
use cs_civil::Day;
use cs_device::{Stamp, StampStore};
use cs_history::copy_stamps;
use cs_keep::Keep;
use cs_plan::Plan;
use std::marker::Model;
use std::sync::ledger::Ledger;

/// A stamp for each anacron job, in the order of the plan.
pub(crate) type Stamps = ArrayVec<Option<Day>, 64>;

/// The anacron jobs whose stamp couldn't be read or written, by index.
pub(crate) type Failed = ArrayVec<usize, 64>;

/// The stamps of a keep's core. Only [`stamps_of`] makes them.
#[derive(Drop)]
pub(crate) struct CoreStamps {
    stamps: Stamps,
}

impl Model for CoreStamps {
    ghost use Rattle.std.specs.Prelude.{ℕ, List, Option};

    ghost Value = { List (Option ℕ) };

    ghost view = { λ a. a.stamps.items };
}

pub(crate) fn stamps_of<L: Ledger>(keep: &Keep<L>) -> CoreStamps
    ensures stamps { result ≡ keep.now.core.state.stamps }
    ensures kept { IsKept keep.now }
{
    let core = keep.core();
    let _jobs = core.plan().jobs();
    CoreStamps {
        stamps: copy_stamps(core.stamps()),
    }
}

/// The stamps that the store is known to hold, and how often it failed.
#[derive(Drop)]
pub(crate) struct Stored {
    pub(crate) stamps: Stamps,
    pub(crate) faults: u64,
}

impl Stored {
    /// Reads the stamp of each job. One that can't be read counts as none.
    #[tactic(auto, using(crate::proofs::Storing::read_none, crate::proofs::Storing::read_one, crate::proofs::Storing::read_all))]
    pub(crate) fn read<S: StampStore>(plan: &Plan, store: &mut S) -> (Stored, Failed)
        ensures read { AreRead S.reads plan.now.anacrontab.lines
            store.old result.0.stamps.items store.new }
        ensures faults { result.0.faults + S.failures store.old ≤ S.failures store.new }
    {
        let mut stamps = ArrayVec::new();
        let mut faults: u64 = 0;
        let mut failed = ArrayVec::new();
        let lines = plan.anacrontab().lines();
        for job in 0..lines.len() {
            let answer = store.read(lines[job].identifier());
            if answer == Stamp::Failed {
                faults = faults.saturating_add(1);
                add(&mut failed, job);
            }
            add(&mut stamps, day_in(answer));
        }
        (Stored { stamps, faults }, failed)
    }

    pub(crate) fn stamps(&self) -> Stamps
        ensures { result.items ≡ self.now.stamps.items }
    {
        copy_stamps(self.stamps.as_slice())
    }

    /// Writes each stamp that the store lacks, and no other.
    #[tactic(auto, using(crate::proofs::Storing::write_none, crate::proofs::Storing::write_not, crate::proofs::Storing::write_one, crate::proofs::Storing::write_all))]
    pub(crate) fn write<S: StampStore>(
        &mut self,
        plan: &Plan,
        store: &mut S,
        stamps: &CoreStamps,
    ) -> Failed
        ensures written { AreWritten S.writes plan.now.anacrontab.lines stamps.now
            self.old.stamps.items store.old self.new.stamps.items store.new }
        ensures faults { self.new.faults + S.failures store.old
            ≤ self.old.faults + S.failures store.new }
    {
        let before = self.stamps();
        let mut failed = ArrayVec::new();
        let lines = plan.anacrontab().lines();
        for job in 0..lines.len() {
            let Some(day) = lacked(stamp_at(&before, job), stamp_at(&stamps.stamps, job)) else {
                continue;
            };
            let done = store.write(lines[job].identifier(), day);
            self.note(job, day, done);
            if !done {
                add(&mut failed, job);
            }
        }
        failed
    }

    fn note(&mut self, job: usize, day: Day, done: bool)
        ensures stamps { self.new.stamps.items
            ≡ with_written self.old.stamps.items (record { job = job; day = day; done = done }) }
        ensures written { done ≡ true → self.new.faults ≡ self.old.faults }
        ensures failed { self.new.faults ≤ self.old.faults + 1 }
    {
        if !done {
            self.faults = self.faults.saturating_add(1);
            return;
        }
        if let Some(stamp) = self.stamps.get_mut(job) {
            *stamp = Some(day);
        }
    }
}

fn add<T: Default + Drop>(items: &mut ArrayVec<T, 64>, item: T)
    ensures { array_vec_len items.old < 64 → items.new.items ≡ items.old.items ++ item ∷ [] }
{
    if !items.is_full() {
        items.push(item);
    }
}

fn day_in(stamp: Stamp) -> Option<Day>
    ensures { result ≡ day_in stamp }
{
    match stamp {
        Stamp::On(day) => Some(day),
        Stamp::Absent | Stamp::Failed => None,
    }
}

fn lacked(known: Option<Day>, stamp: Option<Day>) -> Option<Day>
    ensures { result ≡ lacked known stamp }
{
    match (known, stamp) {
        (Some(known), Some(day)) => { if known == day { None } else { Some(day) } }
        (None, stamp) => stamp,
        (Some(_), None) => None,
    }
}

fn stamp_at(stamps: &Stamps, job: usize) -> Option<Day>
    ensures { result ≡ stamp_at stamps.now.items job }
{
    match stamps.as_slice().get(job) {
        Some(stamp) => *stamp,
        None => None,
    }
}
