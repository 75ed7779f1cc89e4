ghost use Rattle.std.specs.Prelude.{◌≡◌, ◌≤◌, ◌<◌, ◌+◌, ◌*◌, ◌^◌, ℕ, [], IfOk, if◌then◌else◌, length, slice_index};
ghost use Rattle.cs_claims.specs.Certificate.{is_due_in, pieces_of};
ghost use Rattle.cs_claims.specs.declared.class.Class.{Class};
ghost use Rattle.cs_history.specs.Plan.{Plan as TheoryPlan};
ghost use Rattle.cs_classes.specs.Work.{AreWorks, IsWork, arrivals_in, brought, rise_at, rise_between, rise_of};
ghost use Rattle.cs_plan.specs.Plan.{as_plan, crons};

use crate::due::due_in_order;
use crate::locks::{cron_job, has_waiter, locks};
use cs_civil::MINUTES_OF_DAY;
use cs_claims::{Class, GroupBacklog};
use cs_plan::Plan;
use cs_wait::{Arrivals, Backlog, step_ok};
use std::alloc::{AllocError, Global};

fn add_job(arrivals: &mut Arrivals, class: &Class, number: u16, max: u16)
    requires long { length arrivals.old ≡ 1440 }
    requires fits { (m : ℕ) → m < 1440 → slice_index arrivals.old m + max < 2 ^ 32 }
    ensures long { length arrivals.new ≡ 1440 }
    ensures each { (m : ℕ) → m < 1440
        → slice_index arrivals.new m
        ≡ slice_index arrivals.old m + (if is_due_in class.now number m then max else 0) }
{
    let minutes = due_in_order(class, number);
    for minute in minutes.iter() {
        arrivals.add(minute, max);
    }
}

fn add_locker(arrivals: &mut Arrivals, plan: &Plan, class: &Class, group: usize, number: usize)
    requires cron { number < crons plan.now }
    requires long { length arrivals.old ≡ 1440 }
    requires small { (m : ℕ) → m < 1440 → slice_index arrivals.old m ≤ 4320 * number }
    ensures long { length arrivals.new ≡ 1440 }
    ensures small { (m : ℕ) → m < 1440 → slice_index arrivals.new m ≤ 4320 * number + 4320 }
    ensures each { (m : ℕ) → m < 1440
        → slice_index arrivals.new m
        ≡ slice_index arrivals.old m + brought (as_plan plan.now) class.now group number m }
{
    let job = cron_job(plan, number);
    if locks(job, group) {
        add_job(arrivals, class, number as u16, job.max());
    }
}

pub(crate) fn arrivals_in(plan: &Plan, class: &Class, group: usize) -> Arrivals
    ensures long { length result ≡ 1440 }
    ensures each { (m : ℕ) → m < 1440
        → slice_index result m ≡ arrivals_in (as_plan plan.now) class.now group m }
{
    let mut arrivals = Arrivals::none();
    for number in 0..plan.crons() {
        add_locker(&mut arrivals, plan, class, group, number);
    }
    arrivals
}

fn backlog_among<'a>(backlog: &'a [GroupBacklog], group: usize, none: &'a Backlog) -> &'a Backlog
    requires { none.now ≡ [] }
    ensures { result.now ≡ pieces_of backlog.now group }
{
    for of_group in backlog {
        if usize::from(of_group.group) == group {
            return &of_group.backlog;
        }
    }
    none
}

pub(crate) fn backlog_of<'a>(class: &'a Class, group: usize, none: &'a Backlog) -> &'a Backlog
    requires { none.now ≡ [] }
    ensures { result.now ≡ pieces_of class.now.backlog group }
{
    backlog_among(class.backlog.as_slice(), group, none)
}

/// The arrivals for a group on the eve, and its bounds on the eve and on the next day.
#[derive(Drop)]
pub(crate) struct Work<'a> {
    arrivals: Arrivals,
    eve: &'a Backlog,
    day: &'a Backlog,
}

fn work_of<'a>(
    plan: &Plan,
    eve: &'a Class,
    day: &'a Class,
    group: usize,
    none: &'a Backlog,
) -> Option<Work<'a>>
    requires { none.now ≡ [] }
    ensures { IsWork (as_plan plan.now) eve.now day.now group result }
{
    if !has_waiter(plan, group) {
        return None;
    }
    Some(Work {
        arrivals: arrivals_in(plan, eve, group),
        eve: backlog_of(eve, group, none),
        day: backlog_of(day, group, none),
    })
}

fn works<'a>(
    alloc: Global,
    plan: &Plan,
    eve: &'a Class,
    day: &'a Class,
    none: &'a Backlog,
) -> Result<Vec<Option<Work<'a>>>, AllocError>
    requires { none.now ≡ [] }
    ensures { IfOk result (λ works. AreWorks (as_plan plan.now) eve.now day.now works.items) }
{
    let mut works = Vec::new(alloc);
    for group in 0..plan.groups().len() {
        works.push(work_of(plan, eve, day, group, none))?;
    }
    Ok(works)
}

fn rise_of(work: &Option<Work<'_>>, minute: u16, group: usize) -> Option<(u16, usize)>
    requires { minute < MINUTES_OF_DAY }
    ensures { (p : TheoryPlan) (eve day : Class) → IsWork p eve day group work.now
        → result ≡ rise_of p eve day minute group }
{
    match work {
        Some(work) => {
            if step_ok(work.eve, &work.arrivals, work.day, minute) {
                None
            } else {
                Some((minute, group))
            }
        }
        None => None,
    }
}

fn rise_at(works: &[Option<Work<'_>>], minute: u16) -> Option<(u16, usize)>
    requires { minute < MINUTES_OF_DAY }
    ensures { (p : TheoryPlan) (eve day : Class) → AreWorks p eve day works.now
        → result ≡ rise_at p eve day minute }
{
    for (group, work) in works.iter().enumerate() {
        if let Some(found) = rise_of(work, minute, group) {
            return Some(found);
        }
    }
    None
}

/// Returns the first minute of a day of the first class, and the first group there, whose bound
/// doesn't follow the arrivals in the step to the next minute, which may be on a day of the second
/// class. The only error is out of memory.
pub fn first_rise(
    alloc: Global,
    plan: &Plan,
    eve: &Class,
    day: &Class,
) -> Result<Option<(u16, usize)>, AllocError>
    ensures { IfOk result (λ found. found ≡ rise_between (as_plan plan.now) eve.now day.now) }
{
    let none = Backlog::none(alloc);
    let works = works(alloc, plan, eve, day, &none)?;
    for minute in 0..MINUTES_OF_DAY {
        if let Some(found) = rise_at(works.as_slice(), minute) {
            return Ok(Some(found));
        }
    }
    Ok(None)
}
