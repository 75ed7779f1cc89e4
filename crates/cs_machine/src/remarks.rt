ghost use Rattle.std.specs.Prelude.{◌≡◌, [], ◌∷◌, ◌++◌, OnErr, OnOk};

use crate::records::JobRecord;
use crate::run_list::RunList;
use cs_civil::Bytes;
use std::alloc::{AllocError, Global};
use std::mem;
use std::sync::{Mutex, Wait};

/// What runners report until the daemon's log takes it, the runs that go on, and the jobs that keep
/// failing.
#[derive(Drop)]
pub struct Remarks {
    alloc: Global,
    left: Mutex<Vec<Bytes>>,
    /// The runs that go on.
    pub runs: RunList,
    /// The jobs whose last run failed, each with the second of the last failure for which a command
    /// was started. A job is known by its user, its name and its command, from plan to plan.
    pub failing: Mutex<Vec<(Bytes, u64)>>,
    /// The records of the jobs of the plan before.
    records: Mutex<Vec<JobRecord>>,
}

impl Remarks {
    /// Returns an empty store.
    pub fn new(alloc: Global) -> Remarks {
        Remarks {
            alloc,
            left: Mutex::new(Vec::new(alloc)),
            runs: RunList::new(alloc),
            failing: Mutex::new(Vec::new(alloc)),
            records: Mutex::new(Vec::new(alloc)),
        }
    }

    /// Leaves a text for the log. If memory runs out, it is lost.
    pub fn leave<R: Wait>(&self, rt: &R, text: Vec<u8>) {
        let _ = add(&mut *self.left.lock(rt), text);
    }

    /// Takes the texts that were left since the last call, in their order.
    pub fn take<R: Wait>(&self, rt: &R) -> Vec<Bytes> {
        take_all(self.alloc, &mut *self.left.lock(rt))
    }

    /// Keeps the records of a plan's jobs for the next plan.
    pub fn keep_records<R: Wait>(&self, rt: &R, records: Vec<JobRecord>) {
        *self.records.lock(rt) = records;
    }

    /// Takes the records that were kept.
    pub fn take_records<R: Wait>(&self, rt: &R) -> Vec<JobRecord> {
        mem::replace(&mut *self.records.lock(rt), Vec::new(self.alloc))
    }
}

fn add(left: &mut Vec<Bytes>, text: Vec<u8>) -> Result<(), AllocError>
    ensures last { OnOk result (left.new.items ≡ left.old.items ++ text.items ∷ []) }
    ensures lost { OnErr result (left.new.items ≡ left.old.items) }
{
    left.push(Bytes::from_vec(text))?;
    Ok(())
}

fn take_all(alloc: Global, left: &mut Vec<Bytes>) -> Vec<Bytes>
    ensures taken { result.items ≡ left.old.items }
    ensures none { left.new.items ≡ [] }
{
    mem::replace(left, Vec::new(alloc))
}
