//! What classes have for the locks of groups: two are compared without a look at their minutes.
ghost use Rattle.std.specs.Prelude.{◌≡◌, ◌<◌, ◌↔◌, ℕ, [], IfOk, IsTrue, length, slice_index_or};
ghost use Rattle.cs_claims.specs.declared.class.Class.{Class};
ghost use Rattle.cs_classes.specs.GroupDays.{AreGroupDays, IsGroupDay, Leads, no_day};
ghost use Rattle.cs_classes.specs.Work.{IsSteady};
ghost use Rattle.cs_plan.specs.Plan.{as_plan};
ghost use Rattle.cs_history.specs.Plan.{Plan as TheoryPlan};

use crate::locks::has_waiter;
use crate::steps::{arrivals_in, backlog_of};
use cs_civil::MINUTES_OF_DAY;
use cs_claims::Class;
use cs_plan::Plan;
use cs_wait::{Backlog, steps_within};
use std::alloc::{AllocError, Global};

/// What a class has for the lock of one group on its days.
#[derive(Clone, Copy, PartialEq, Eq)]
pub struct GroupDay {
    /// Whether the bound follows the arrivals at each step within the day. True if no job waits.
    pub follows: bool,
    /// The bound in the last minute of the day plus the arrivals in it, in minutes of runs. 0 if no
    /// job waits.
    pub left: u64,
    /// The bound in the first minute of the day, in minutes of runs.
    pub first: u32,
}

/// `none`, [`Backlog::none`], is the bound of unlisted groups.
fn group_day(plan: &Plan, class: &Class, group: usize, none: &Backlog) -> GroupDay
    requires { none.now ≡ [] }
    ensures { IsGroupDay (as_plan plan.now) class.now group result }
{
    if !has_waiter(plan, group) {
        return GroupDay {
            follows: true,
            left: 0,
            first: 0,
        };
    }
    let arrivals = arrivals_in(plan, class, group);
    let backlog = backlog_of(class, group, none);
    let last = MINUTES_OF_DAY - 1;
    GroupDay {
        follows: steps_within(backlog, &arrivals),
        left: u64::from(backlog.at(last)) + u64::from(arrivals.at(last)),
        first: backlog.at(0),
    }
}

/// Returns what a class has for the lock of each group of the plan, by the group's number. The only
/// error is out of memory.
pub fn group_days(alloc: Global, plan: &Plan, class: &Class) -> Result<Vec<GroupDay>, AllocError>
    ensures { IfOk result (λ days. AreGroupDays (as_plan plan.now) class.now days.items) }
{
    let none = Backlog::none(alloc);
    let mut days = Vec::new(alloc);
    for group in 0..plan.groups().len() {
        days.push(group_day(plan, class, group, &none))?;
    }
    Ok(days)
}

fn leads(eve: &GroupDay, day: &GroupDay) -> bool
    ensures { IsTrue result ↔ Leads eve.now day.now }
{
    eve.follows && eve.left <= u64::from(day.first) + 1
}

fn each_leads(eve: &[GroupDay], day: &[GroupDay]) -> bool
    ensures { IsTrue result ↔ ((g : ℕ) → g < length eve.now → g < length day.now
        → Leads (slice_index_or eve.now g no_day) (slice_index_or day.now g no_day)) }
{
    for (eve, day) in eve.iter().zip(day) {
        if !leads(eve, day) {
            return false;
        }
    }
    true
}

/// Checks whether the bound of each group with a job that waits follows the arrivals at each step
/// of a day of the first class, the last to midnight of a day of the second. Both slices are from
/// [`group_days`] for one plan.
pub fn is_steady_over(eve: &[GroupDay], day: &[GroupDay]) -> bool
    ensures { (p : TheoryPlan) (e d : Class) → AreGroupDays p e eve.now → AreGroupDays p d day.now
        → (IsTrue result ↔ IsSteady p e d) }
{
    each_leads(eve, day)
}
