ghost use Rattle.std.specs.Prelude.{◌≡◌, ◌≤◌, ◌<◌, ◌↔◌, All, [], IsTrue, length, map, take, unwrap_or};
ghost use Rattle.cs_claims.specs.Certificate.{bound_in};
ghost use Rattle.cs_plan.specs.Plan.{as_plan, crons};
ghost use Rattle.cs_history.specs.Plan.{waits};
ghost use Rattle.cs_wait.specs.Bounds.{ClearsBy, at};
ghost use Rattle.cs_classes.specs.Reaches.{Clears};

use crate::due::due_in_order;
use crate::locks::cron_job;
use crate::steps::backlog_of;
use cs_claims::Class;
use cs_plan::Plan;
use cs_schedule::MinuteSet;
use cs_wait::{Backlog, clears_by};

/// Checks whether a cron job waits for the lock of its group.
pub fn waits(plan: &Plan, number: usize) -> bool
    requires { number < crons plan.now }
    ensures { result ≡ waits (as_plan plan.now) number }
{
    cron_job(plan, number).mode().waits()
}

/// A job that waits has a group; one without gets the first here.
fn group_of(plan: &Plan, number: usize) -> usize
    requires { number < crons plan.now }
    ensures value { result ≡ unwrap_or ((as_plan plan.now).group number) 0 }
    ensures few { number < 320 }
{
    match cron_job(plan, number).group() {
        Some(group) => usize::from(group),
        None => 0,
    }
}

/// The bounds of a group on successive days, filled up with `none` to four.
fn bounds_of<'a>(days: &[&'a Class], group: usize, none: &'a Backlog) -> [&'a Backlog; 4]
    requires few { length days.now ≤ 4 }
    requires none { none.now ≡ [] }
    ensures long { length result ≡ 4 }
    ensures value { map (λ b. at b.now) (take (length days.now) result)
        ≡ map (λ class. bound_in class.now group) days.now }
{
    let mut bounds = [none; 4];
    for (place, day) in days.iter().enumerate() {
        bounds[place] = backlog_of(day, group, none);
    }
    bounds
}

fn clears_each(bounds: &[&Backlog], minutes: &MinuteSet, reach: u16) -> bool
    ensures { IsTrue result
        ↔ All (λ m. ClearsBy (map (λ b. at b.now) bounds.now) m reach) minutes.now }
{
    for minute in minutes.iter() {
        if !clears_by(bounds, minute, reach) {
            return false;
        }
    }
    true
}

/// Checks whether after each due minute of a cron job on the first of successive days the bound of
/// its group is zero at some minute within the reach, so that all that waited has had the lock by
/// then. Minutes past the last day are ignored. `none`, [`Backlog::none`], is the bound of unlisted
/// groups.
pub fn clears<'a>(
    plan: &Plan,
    number: usize,
    reach: u16,
    days: &[&'a Class],
    none: &'a Backlog,
) -> bool
    requires none { none.now ≡ [] }
    requires cron { number < crons plan.now }
    requires some { 1 ≤ length days.now }
    requires few { length days.now ≤ 4 }
    ensures { IsTrue result
        ↔ Clears (as_plan plan.now) (map (λ class. class.now) days.now) number reach }
{
    let bounds = bounds_of(days, group_of(plan, number), none);
    let minutes = due_in_order(days[0], number as u16);
    clears_each(&bounds[..days.len()], &minutes, reach)
}
