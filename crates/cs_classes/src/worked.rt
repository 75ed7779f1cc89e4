ghost use Rattle.std.specs.Prelude.{◌≡◌, ◌≤◌, ◌<◌, ◌++◌, [], Some, IfOk, OnOk, filter, map};
ghost use Rattle.cs_claims.specs.Certificate.{bound_in};
ghost use Rattle.cs_classes.specs.Likeness.{ArePlain, is_due_by};
ghost use Rattle.cs_classes.specs.Planned.{is_due_on};
ghost use Rattle.cs_classes.specs.StandsFor.{bound_of, due_list, due_of, unbounded, waited_groups, worked_class};
ghost use Rattle.cs_windows.specs.Windows.{day_minutes};
ghost use Rattle.cs_zone.specs.declared.shape.Shape.TheVariants.{Plain};

use crate::likeness::{shape_on, times_by};
use crate::locks::has_waiter;
use crate::steps::{arrivals_in, backlog_of};
use cs_civil::{DayKind, Sequence};
use cs_claims::{Class, DueList, GroupBacklog};
use cs_crontab::{Line, When};
use cs_plan::Plan;
use cs_schedule::MinuteSet;
use cs_wait::{Backlog, MAX_BACKLOG};
use cs_zone::{Shape, Zone};
use std::alloc::{AllocError, Global};

/// The minutes of a day at which cron(8) starts a command, by the clock of the zone.
pub(crate) fn minutes_on(zone: Zone, line: &Line, kind: DayKind) -> MinuteSet
    ensures { result ≡ filter (is_due_on zone line.now.when kind) day_minutes }
{
    match line.when() {
        When::At(schedule) => zone.minutes_of(schedule, kind),
        When::Reboot => MinuteSet::new(),
    }
}

fn listed(alloc: Global, minutes: &MinuteSet) -> Result<Sequence<u16>, AllocError>
    ensures { IfOk result (λ listed. listed ≡ minutes.now) }
{
    let mut listed = Sequence::new(alloc);
    for minute in minutes.iter() {
        listed.push(minute)?;
    }
    Ok(listed)
}

/// The minutes of each command on plain days, by number. The only error is out of memory.
pub(crate) fn plain_lists(alloc: Global, plan: &Plan) -> Result<Vec<Sequence<u16>>, AllocError>
    ensures { IfOk result (λ plain. ArePlain plan.now plain.items) }
{
    let mut plain = Vec::new(alloc);
    for line in plan.crontab().lines() {
        let minutes = times_by(*plan.zone(), line, Shape::Plain);
        plain.push(listed(alloc, &minutes)?)?;
    }
    Ok(plain)
}

/// The minutes of a day, copied from those of plain days where the day is plain.
fn listed_on(
    alloc: Global,
    zone: Zone,
    line: &Line,
    plain: &[u16],
    kind: DayKind,
) -> Result<Sequence<u16>, AllocError>
    requires { plain.now ≡ filter (is_due_by zone line.now.when Plain) day_minutes }
    ensures { IfOk result (λ listed.
        listed ≡ filter (is_due_on zone line.now.when kind) day_minutes) }
{
    match shape_on(zone, line, kind) {
        Shape::Never => Ok(Sequence::new(alloc)),
        Shape::Plain => Sequence::from_slice(alloc, plain),
        _ => listed(alloc, &minutes_on(zone, line, kind)),
    }
}

fn add_list(due: &mut Sequence<DueList>, job: u16, minutes: Sequence<u16>) -> Result<(), AllocError>
    ensures { OnOk result (due.new ≡ due.old ++ due_list job minutes) }
{
    if minutes.is_empty() {
        return Ok(());
    }
    due.push(DueList { job, minutes })
}

fn due_on(
    alloc: Global,
    plan: &Plan,
    plain: &[Sequence<u16>],
    kind: DayKind,
) -> Result<Sequence<DueList>, AllocError>
    requires { ArePlain plan.now plain.now }
    ensures { IfOk result (λ due. due ≡ due_of plan.now (Some kind)) }
{
    let zone = *plan.zone();
    let mut due = Sequence::new(alloc);
    for (job, line) in plan.crontab().lines().iter().enumerate() {
        let minutes = listed_on(alloc, zone, line, plain[job].as_slice(), kind)?;
        add_list(&mut due, job as u16, minutes)?;
    }
    Ok(due)
}

/// A day of that kind, without bounds. Nothing is due without a kind.
fn unbounded(
    alloc: Global,
    plan: &Plan,
    plain: &[Sequence<u16>],
    kind: Option<DayKind>,
) -> Result<Class, AllocError>
    requires { ArePlain plan.now plain.now }
    ensures { IfOk result (λ day. day ≡ unbounded plan.now kind) }
{
    let due = match kind {
        Some(kind) => due_on(alloc, plan, plain, kind)?,
        None => Sequence::new(alloc),
    };
    Ok(Class {
        due,
        backlog: Sequence::new(alloc),
    })
}

fn left_over(class: &Class, group: usize, none: &Backlog) -> u32
    requires { none.now ≡ [] }
    ensures value { result ≡ bound_in class.now group 0 }
    ensures within { result ≤ MAX_BACKLOG }
{
    let backlog = backlog_of(class, group, none);
    let _pieces = backlog.pieces();
    backlog.at(0)
}

fn bound_on(
    alloc: Global,
    plan: &Plan,
    day: &Class,
    carry: u32,
    group: usize,
) -> Result<GroupBacklog, AllocError>
    requires within { carry ≤ MAX_BACKLOG }
    requires few { group < 64 }
    ensures { IfOk result (λ bound. bound ≡ bound_of plan.now day.now carry group) }
{
    let arrivals = arrivals_in(plan, day, group);
    let backlog = Backlog::following(alloc, carry, &arrivals)?;
    Ok(GroupBacklog {
        group: group as u8,
        backlog,
    })
}

fn bounds_on(
    alloc: Global,
    plan: &Plan,
    day: &Class,
    class: &Class,
) -> Result<Sequence<GroupBacklog>, AllocError>
    ensures { IfOk result (λ bounds. bounds
        ≡ map (λ g. bound_of plan.now day.now (bound_in class.now g 0) g)
        (waited_groups plan.now)) }
{
    let none = Backlog::none(alloc);
    let mut bounds = Sequence::new(alloc);
    for group in 0..plan.groups().len() {
        if has_waiter(plan, group) {
            let carry = left_over(class, group, &none);
            bounds.push(bound_on(alloc, plan, day, carry, group)?)?;
        }
    }
    Ok(bounds)
}

/// Returns what a class of version 3 stands for on days of a kind: the due minutes of each cron job
/// (`cron(8)`), and for each group with a job that waits the bound that begins with what is left
/// over and follows the arrivals, up to [`MAX_BACKLOG`](cs_wait::MAX_BACKLOG). Without a kind
/// nothing is due. The only error is out of memory.
pub fn worked_class(
    alloc: Global,
    plan: &Plan,
    plain: &[Sequence<u16>],
    kind: Option<DayKind>,
    class: &Class,
) -> Result<Class, AllocError>
    requires { ArePlain plan.now plain.now }
    ensures { IfOk result (λ worked. worked ≡ worked_class plan.now kind class.now) }
{
    let mut day = unbounded(alloc, plan, plain, kind)?;
    day.backlog = bounds_on(alloc, plan, &day, class)?;
    Ok(day)
}
