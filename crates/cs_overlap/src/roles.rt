ghost use Rattle.std.specs.Prelude.{◌≡◌, ◌≤◌, ℕ, IfOk, IsTrue, Some, length, slice_get};
ghost use Rattle.cs_theorem.specs.Accepted.{AreApart, AreFree, AreWithin};
ghost use Rattle.cs_theorem.specs.Faults.{blocked_in, collision_in, overload_in};
ghost use Rattle.cs_plan.specs.Plan.{as_plan};
ghost use Rattle.cs_history.specs.Plan.{Plan as TheoryPlan};
ghost use Rattle.cs_overlap.specs.Roles.{AreRoles, IsOf, role_of};
ghost use Rattle.cs_overlap.specs.Sums.{AreGrouped};
ghost use Rattle.cs_windows.specs.Window.{IsRising};

use crate::quiet::Quiet;
use crate::role::Role;
use crate::{found, sums};
use cs_plan::{Job, Plan};
use cs_windows::Window;
use std::alloc::{AllocError, Global};
use std::marker::Model;

/// What the rules about windows need of the jobs of a plan, read once for all stretches.
#[derive(Drop)]
pub struct Roles {
    jobs: Vec<Role>,
    groups: usize,
    capacity: u8,
}

impl Model for Roles {
    ghost use Rattle.std.specs.Prelude.{◌≤◌};
    ghost use Rattle.cs_overlap.specs.Roles.{PlanRoles};
    ghost use Rattle.cs_overlap.specs.Sums.{AreGrouped};

    ghost Value = { PlanRoles };

    ghost view = { λ a. record { jobs = a.jobs.items; groups = a.groups; capacity = a.capacity } };

    ghost invariant = { λ a. (a.groups ≤ 64) × AreGrouped a.jobs.items a.groups };
}

fn role_of(plan: &Plan, number: usize, job: Job) -> Role
    requires { slice_get plan.now.jobs number ≡ Some job }
    ensures { result ≡ role_of (as_plan plan.now) number }
{
    Role {
        is_cron: number < plan.crons(),
        mode: job.mode(),
        weight: job.weight(),
        group: job.group(),
        is_exclusive: plan.is_exclusive(job.group()),
    }
}

fn jobs_of(alloc: Global, plan: &Plan) -> Result<Vec<Role>, AllocError>
    ensures roles { IfOk result (λ jobs. AreRoles (as_plan plan.now) jobs.items) }
    ensures grouped { IfOk result (λ jobs. AreGrouped jobs.items (length plan.now.groups)) }
{
    let mut jobs = Vec::new(alloc);
    for (number, job) in plan.jobs().iter().enumerate() {
        jobs.push(role_of(plan, number, *job))?;
    }
    Ok(jobs)
}

impl Roles {
    /// Returns the roles of the plan's jobs. The only error is out of memory.
    pub fn of(alloc: Global, plan: &Plan) -> Result<Roles, AllocError>
        ensures { IfOk result (λ roles. IsOf (as_plan plan.now) roles) }
    {
        Ok(Roles {
            jobs: jobs_of(alloc, plan)?,
            groups: plan.groups().len(),
            capacity: plan.capacity(),
        })
    }

    fn jobs(&self) -> &[Role]
        ensures value { result.now ≡ self.now.jobs }
        ensures grouped { AreGrouped self.now.jobs self.now.groups }
    {
        self.jobs.as_slice()
    }

    fn groups(&self) -> usize
        ensures value { result ≡ self.now.groups }
        ensures few { self.now.groups ≤ 64 }
    {
        self.groups
    }

    fn capacity(&self) -> u8
        ensures { result ≡ self.now.capacity }
    {
        self.capacity
    }

    /// Tests the windows of a stretch, in order of start, quickly by each of three rules. If a rule
    /// is true, no minute of the last day has a fault by it: no collision, no load above the
    /// capacity, no due skip job that finds its lock held. If it is false, its finder decides. The
    /// only error is out of memory.
    pub fn quiet(&self, alloc: Global, windows: &[Window]) -> Result<Quiet, AllocError>
        requires rising { IsRising windows.now }
        ensures apart { IfOk result (λ quiet. IsTrue quiet.is_apart
            → (p : TheoryPlan) → IsOf p self.now → AreApart p windows.now) }
        ensures within { IfOk result (λ quiet. IsTrue quiet.is_within
            → (p : TheoryPlan) (n : ℕ) → IsOf p self.now → AreWithin p n windows.now) }
        ensures free { IfOk result (λ quiet. IsTrue quiet.is_free
            → (p : TheoryPlan) → IsOf p self.now → AreFree p windows.now) }
    {
        sums::quiet_by_sums(alloc, self.jobs(), self.groups(), self.capacity(), windows)
    }

    /// Returns the first minute of the last day of a stretch at which two windows of one exclusive
    /// group may not meet, since one of them is a cron job's and not both take the group's lock;
    /// and the first two such windows, by group, then in the order of the windows. The only error
    /// is out of memory.
    pub fn collision(
        &self,
        alloc: Global,
        windows: &[Window],
    ) -> Result<Option<(u16, Window, Window)>, AllocError>
        ensures { IfOk result (λ found.
            (p : TheoryPlan) → IsOf p self.now → found ≡ collision_in p windows.now) }
    {
        found::collision(alloc, self.jobs(), self.groups(), self.capacity(), windows)
    }

    /// Returns the first minute of the last day of a stretch at which the load exceeds the
    /// capacity, and the load. The only error is out of memory.
    pub fn overload(
        &self,
        alloc: Global,
        windows: &[Window],
    ) -> Result<Option<(u16, u128)>, AllocError>
        ensures { IfOk result (λ found.
            (p : TheoryPlan) (n : ℕ) → IsOf p self.now → found ≡ overload_in p n windows.now) }
    {
        found::overload(alloc, self.jobs(), self.groups(), self.capacity(), windows)
    }

    /// Returns the first due minute of a skip job on the last day of a stretch at which another
    /// window holds its group's lock, the job's window and the other. The only error is out of
    /// memory.
    pub fn blocked(
        &self,
        alloc: Global,
        windows: &[Window],
    ) -> Result<Option<(u16, Window, Window)>, AllocError>
        ensures { IfOk result (λ found.
            (p : TheoryPlan) → IsOf p self.now → found ≡ blocked_in p windows.now) }
    {
        found::blocked(alloc, self.jobs(), self.groups(), self.capacity(), windows)
    }
}
