ghost use Rattle.std.specs.Prelude.{◌≡◌, ◌≢◌, ◌<◌, ◌&&◌, [], ℕ, IfOk, filter};
ghost use Rattle.cs_claims.specs.Certificate.{is_due_in};
ghost use Rattle.cs_classes.specs.Likeness.{AreTimes, AreTimesOf, IsCompared, IsLikeness, IsRow, has_just, is_due_by, likeness_by, likeness_in};
ghost use Rattle.cs_classes.specs.Planned.{is_due_on};
ghost use Rattle.cs_plan.specs.Plan.{Declared};
ghost use Rattle.cs_schedule.specs.Numbers.{has};
ghost use Rattle.cs_windows.specs.Windows.{day_minutes};
ghost use Rattle.cs_zone.specs.Starts.{is_due};
ghost use Rattle.cs_zone.specs.Shape.{is_due_in as is_shape_due};
ghost use Rattle.cs_zone.specs.declared.shape.Shape.TheVariants.{Jump};

use crate::due::{due_in_order, due_sets};
use crate::worked::minutes_on;
use cs_civil::{DayKind, Sequence};
use cs_claims::Class;
use cs_crontab::{Line, When};
use cs_plan::Plan;
use cs_schedule::{MinuteSet, Schedule};
use cs_zone::{Shape, Zone};
use std::alloc::{AllocError, Global};

/// The minutes at which a command is due on the days of each shape, but for those with a jump near.
#[derive(Drop)]
pub(crate) struct Times {
    /// Whether there is summer time: without it days are plain, and the last three are left out.
    shifts: bool,
    plain: MinuteSet,
    same: MinuteSet,
    other: MinuteSet,
    both: MinuteSet,
}

/// What a class is to a cron job: whether it has just the minutes of the days of each shape. The
/// last three are false without summer time.
#[derive(Clone, Copy)]
pub struct Likeness {
    /// Whether the class has no due minutes for the job.
    never: bool,
    /// Whether it has those of the days on which the wall shows the plan's clock.
    plain: bool,
    /// Whether it has those where the wall shows another clock, and only the same day is listed.
    same: bool,
    /// Whether it has those where only the other day is listed.
    other: bool,
    /// Whether it has those where both days are listed.
    both: bool,
}

impl Likeness {
    /// Whether the class has just the minutes of the days of a shape.
    fn is_of(self, shape: Shape) -> bool
        ensures { result ≡ likeness_in self shape }
    {
        match shape {
            Shape::Never => self.never,
            Shape::Plain => self.plain,
            Shape::Same => self.same,
            Shape::Other => self.other,
            Shape::Both => self.both,
            Shape::Jump => false,
        }
    }
}

/// How the due minutes of a day come from the fields: without summer time each day is plain.
fn shape_by(zone: Zone, schedule: &Schedule, kind: DayKind) -> Shape
    ensures compared { result ≢ Jump → IsCompared zone result }
    ensures minutes { result ≢ Jump → (m : ℕ) → m < 1440
        → is_shape_due zone schedule.now result m ≡ is_due zone schedule.now kind m }
{
    let _month = kind.month();
    if zone.saving() > 0 {
        return zone.shape_of(schedule, kind);
    }
    if schedule.is_day_due(kind) {
        Shape::Plain
    } else {
        Shape::Never
    }
}

/// The same of a line: at a restart there are none.
pub(crate) fn shape_on(zone: Zone, line: &Line, kind: DayKind) -> Shape
    ensures compared { result ≢ Jump → IsCompared zone result }
    ensures minutes { result ≢ Jump → (m : ℕ) → m < 1440
        → is_due_by zone line.now.when result m ≡ is_due_on zone line.now.when kind m }
{
    match line.when() {
        When::At(schedule) => shape_by(zone, schedule, kind),
        When::Reboot => Shape::Never,
    }
}

/// The minutes at which a command is due on the days of a shape, where such days come.
pub(crate) fn times_by(zone: Zone, line: &Line, shape: Shape) -> MinuteSet
    ensures has { IsCompared zone shape → (m : ℕ) → m < 1440
        → has result m ≡ is_due_by zone line.now.when shape m }
    ensures all { result ≡ filter (is_due_by zone line.now.when shape) day_minutes }
{
    match line.when() {
        When::At(schedule) => zone.minutes_in(schedule, shape),
        When::Reboot => MinuteSet::new(),
    }
}

/// The same where the wall shows another clock: nothing without summer time.
fn shifted_by(zone: Zone, line: &Line, shape: Shape) -> MinuteSet
    ensures { IsCompared zone shape → 0 < zone.saving → (m : ℕ) → m < 1440
        → has result m ≡ is_due_by zone line.now.when shape m }
{
    if zone.saving() == 0 {
        return MinuteSet::new();
    }
    times_by(zone, line, shape)
}

fn times_of(zone: Zone, line: &Line) -> Times
    ensures { AreTimesOf zone line.now.when result }
{
    Times {
        shifts: zone.saving() > 0,
        plain: times_by(zone, line, Shape::Plain),
        same: shifted_by(zone, line, Shape::Same),
        other: shifted_by(zone, line, Shape::Other),
        both: shifted_by(zone, line, Shape::Both),
    }
}

pub(crate) fn times_of_jobs(alloc: Global, plan: &Plan) -> Result<Vec<Times>, AllocError>
    ensures { IfOk result (λ times. AreTimes plan.now times.items) }
{
    let mut times = Vec::new(alloc);
    for line in plan.crontab().lines() {
        times.push(times_of(*plan.zone(), line))?;
    }
    Ok(times)
}

/// Whether these are just the minutes, where it counts.
fn has_just(counts: bool, minutes: &MinuteSet, times: &MinuteSet) -> bool
    ensures { result ≡ (counts && has_just (has minutes.now) (has times.now)) }
{
    counts && minutes.is_same(times)
}

fn likeness_of(minutes: &MinuteSet, times: &Times, none: &MinuteSet) -> Likeness
    requires { none.now ≡ [] }
    ensures { result ≡ likeness_by (has minutes.now) times.now }
{
    let shifts = times.shifts;
    Likeness {
        never: has_just(true, minutes, none),
        plain: has_just(true, minutes, &times.plain),
        same: has_just(shifts, minutes, &times.same),
        other: has_just(shifts, minutes, &times.other),
        both: has_just(shifts, minutes, &times.both),
    }
}

pub(crate) fn row_of(
    alloc: Global,
    class: &Class,
    times: &[Times],
) -> Result<Sequence<Likeness>, AllocError>
    ensures { IfOk result (λ row. (d : Declared) → AreTimes d times.now → IsRow d class.now row) }
{
    let minutes = due_sets(alloc, class, times.len())?;
    let none = MinuteSet::new();
    let mut row = Sequence::new(alloc);
    for (job, times) in times.iter().enumerate() {
        row.push(likeness_of(&minutes[job], times, &none))?;
    }
    Ok(row)
}

/// Whether a class has just these minutes for a job.
fn has_minutes(class: &Class, job: u16, minutes: &MinuteSet) -> bool
    ensures { result ≡ has_just (is_due_in class.now job) (has minutes.now) }
{
    due_in_order(class, job).is_same(minutes)
}

/// Whether a class has just the minutes at which a job is due on a day of this kind.
pub(crate) fn is_job_alike(
    zone: Zone,
    likeness: Likeness,
    class: &Class,
    job: u16,
    line: &Line,
    kind: DayKind,
) -> bool
    ensures { IsLikeness zone line.now.when (is_due_in class.now job) likeness
        → result ≡ has_just (is_due_in class.now job) (is_due_on zone line.now.when kind) }
{
    match shape_on(zone, line, kind) {
        Shape::Jump => has_minutes(class, job, &minutes_on(zone, line, kind)),
        shape => likeness.is_of(shape),
    }
}
