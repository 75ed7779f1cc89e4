ghost use Rattle.std.specs.Prelude.{◌≡◌, ◌≤◌, ◌++◌, map, None, IfOk, OnOk};
ghost use Rattle.std.specs.List.{find, range_with_len};
ghost use Rattle.cs_plan.specs.declared.limits.TheConstants.{MAX_MINUTES};
ghost use Rattle.cs_plan.specs.Answers.{Answers};
ghost use Rattle.cs_plan.specs.Reboot.{is_reboot};
ghost use Rattle.cs_plan.specs.Plain.{plain_job, plain_plan, plain_of, is_possible_max};

use crate::fault::{DeclError, DeclFault};
use crate::job::Job;
use crate::limits::{MAX_CAPACITY, MAX_MINUTES};
use crate::plan::Plan;
use crate::reboot::{at_line, first_reboot};
use cs_anacrontab::Anacrontab;
use cs_civil::{Hours, MINUTES_OF_DAY, Sequence};
use cs_crontab::Crontab;
use cs_history::Mode;
use cs_zone::Zone;
use std::alloc::{AllocError, Global};

fn push_plain_jobs(jobs: &mut Sequence<Job>, count: usize, max: u16) -> Result<(), AllocError>
    requires { (1 ≤ max) × (max ≤ MAX_MINUTES) }
    ensures { OnOk result (jobs.new ≡ jobs.old ++ map (plain_job max) (range_with_len 0 count)) }
{
    for place in 0..count {
        jobs.push(Job::new(place, max, 1, None, Mode::Plain))?;
    }
    Ok(())
}

fn plain_jobs(
    alloc: Global,
    crons: usize,
    anacrons: usize,
    max: u16,
) -> Result<Sequence<Job>, AllocError>
    requires { (1 ≤ max) × (max ≤ MAX_MINUTES) }
    ensures { IfOk result
        (λ jobs. jobs
        ≡ map (plain_job max) (range_with_len 0 crons)
        ++ map (plain_job max) (range_with_len 0 anacrons)) }
{
    let mut jobs = Sequence::new(alloc);
    push_plain_jobs(&mut jobs, crons, max)?;
    push_plain_jobs(&mut jobs, anacrons, max)?;
    Ok(jobs)
}

fn all_day() -> Hours
    ensures { result ≡ record { from = 0; to = MINUTES_OF_DAY } }
{
    Hours::new(0, u64::from(MINUTES_OF_DAY)).unwrap()
}

#[tactic(auto, unfolding(crate::specs::Plain::plain_plan))]
fn plain_plan(
    alloc: Global,
    crontab: Crontab,
    anacrontab: Anacrontab,
    max: u16,
) -> Result<Plan, AllocError>
    requires max { (1 ≤ max) × (max ≤ MAX_MINUTES) }
    requires timed { find (λ line. is_reboot line.when) crontab.lines ≡ None }
    ensures { IfOk result (λ plan. plan ≡ plain_plan crontab anacrontab max) }
{
    let jobs = plain_jobs(alloc, crontab.lines().len(), anacrontab.lines().len(), max)?;
    let groups = Sequence::new(alloc);
    let hours = all_day();
    let left_out = Sequence::new(alloc);
    Ok(Plan::new(
        crontab,
        anacrontab,
        jobs,
        groups,
        MAX_CAPACITY,
        hours,
        None,
        0,
        Zone::none(),
        None,
        left_out,
        0,
        0,
        None,
        None,
    ))
}

/// Whether a longest time is from 1 to [`MAX_MINUTES`](crate::MAX_MINUTES) minutes.
pub fn is_possible_max(max: u64) -> bool
    ensures { result ≡ is_possible_max max }
{
    max >= 1 && max <= u64::from(MAX_MINUTES)
}

impl Plan {
    /// Returns the plan of tables with one longest time in minutes for all jobs, and else with
    /// defaults: weight 1, no group, the greatest capacity, catch-up at all hours, no pass minute,
    /// UTC.
    ///
    /// [`BadMax`](DeclFault::BadMax) if the time isn't from 1 to
    /// [`MAX_MINUTES`](crate::MAX_MINUTES); else [`RebootLine`](DeclFault::RebootLine) with the
    /// first `@reboot`. Memory may run out.
    #[tactic(auto, unfolding(crate::specs::Plain::plain_of))]
    pub fn plain(
        alloc: Global,
        crontab: Crontab,
        anacrontab: Anacrontab,
        max: u64,
    ) -> Result<Plan, DeclError>
        ensures { Answers (λ plan. plan) (plain_of crontab anacrontab max) result }
    {
        if !is_possible_max(max) {
            return Err(DeclError::At {
                fault: DeclFault::BadMax,
                place: None,
            });
        }
        match at_line(DeclFault::RebootLine, first_reboot(crontab.lines())) {
            None => Ok(plain_plan(alloc, crontab, anacrontab, max as u16)?),
            Some((fault, place)) => Err(DeclError::At { fault, place }),
        }
    }
}
