//! Pairs of jobs whose windows may meet, and couldn't before.
ghost use Rattle.std.specs.Prelude.{◌≡◌, ◌+◌, ◌<◌, All, IfOk, OnOk, true};
ghost use Rattle.std.specs.List.{list_any};
ghost use Rattle.cs_windows.specs.Occupied.{job_of};
ghost use Rattle.cs_windows.specs.Window.{touches};
ghost use Rattle.cs_zone.specs.Zone.{no_zone};
ghost use Rattle.cs_diff.specs.Meeting.{IsMeeting, is_held, windows_by};

use crate::binding::Binding;
use crate::held::{Held, REACHED, first_shared, held_by};
use cs_civil::{Day, DayKind, MINUTES_OF_DAY, four_days, kind_of};
use cs_crontab::When;
use cs_plan::Plan;
use cs_windows::{Occupied, Window, touches, windows_on};
use cs_zone::Zone;
use std::alloc::{AllocError, Global};

/// 28 years, in which each sequence of days comes.
const DAYS: u64 = 10_228;

/// Two jobs, and a minute that windows of both hold.
#[derive(Clone, Copy)]
pub(crate) struct Meeting {
    pub(crate) one: u16,
    pub(crate) other: u16,
    pub(crate) day: Day,
    /// The minute of the day, below 1,440.
    pub(crate) minute: u16,
}

/// The windows of a job: from each minute on that its fields list, without changes of the zone's
/// clock, as long as its longest time; of an anacron job from the first catch-up minute of each day
/// to the end of a run that starts in the last one.
fn occupied_by<'a>(plan: &'a Plan, none: &'a Zone, job: u16) -> Occupied<'a>
    requires { none.now ≡ no_zone }
    ensures { job_of result ≡ windows_by plan.now job }
{
    let (max, hours) = (plan.job_at(job).max(), plan.hours());
    if let Some(line) = plan.crontab().lines().get(usize::from(job)) {
        return match line.when() {
            When::At(schedule) => Occupied::Cron {
                schedule,
                zone: none,
                reach: max,
            },
            When::Reboot => Occupied::CatchUp {
                from: MINUTES_OF_DAY,
                reach: 0,
            },
        };
    }
    let most = (hours.to() - 1).saturating_sub(hours.from());
    Occupied::CatchUp {
        from: hours.from(),
        reach: most.saturating_add(max),
    }
}

/// The kinds of the days from three before the first on, as many as there are.
fn kinds_from(alloc: Global, first: Day) -> Result<Vec<DayKind>, AllocError> {
    let mut kinds = Vec::new(alloc);
    let start = first.number().saturating_sub(u64::from(REACHED));
    for number in start..start.saturating_add(DAYS + u64::from(REACHED)) {
        if let Some(day) = Day::new(number) {
            kinds.push(kind_of(day))?;
        }
    }
    Ok(kinds)
}

fn all_held(alloc: Global, plan: &Plan, kinds: &[DayKind]) -> Result<Vec<Held>, AllocError> {
    let mut all = Vec::new(alloc);
    let none = Zone::none();
    let count = plan.jobs().len() as u16;
    for job in 0..count {
        all.push(held_by(alloc, &occupied_by(plan, &none, job), kinds)?)?;
    }
    Ok(all)
}

fn any_holds(windows: &[Window], minute: u16) -> bool
    requires { minute < 1440 }
    ensures { result ≡ list_any (λ w. touches w minute (minute + 1)) windows.now }
{
    let next = minute + 1;
    windows.iter().any(|window| touches(window, minute, next))
}

/// Whether a window of the job holds the minute, by its windows of that day.
fn is_held(alloc: Global, plan: &Plan, job: u16, day: Day, minute: u16) -> Result<bool, AllocError>
    requires { minute < 1440 }
    ensures { IfOk result (λ held. held ≡ is_held plan.now job day minute) }
{
    let none = Zone::none();
    let occupied = [occupied_by(plan, &none, job)];
    let windows = windows_on(alloc, occupied.as_slice(), four_days(day).as_slice())?;
    Ok(any_holds(windows.as_slice(), minute))
}

/// Whether windows of both jobs hold the minute.
fn is_meeting(alloc: Global, plan: &Plan, meeting: &Meeting) -> Result<bool, AllocError>
    ensures { IfOk result (λ b. b ≡ true → IsMeeting plan.now meeting.now) }
{
    let (day, minute) = (meeting.day, meeting.minute);
    if MINUTES_OF_DAY <= minute || !is_held(alloc, plan, meeting.one, day, minute)? {
        return Ok(false);
    }
    is_held(alloc, plan, meeting.other, day, minute)
}

fn first_between(all: &[Held], one: u16, other: u16, count: u32) -> Option<(u32, u32)> {
    match (all.get(usize::from(one)), all.get(usize::from(other))) {
        (Some(own), Some(others)) => first_shared(own, others, count),
        _ => None,
    }
}

/// What the windows of all jobs hold, before and after, on so many days.
#[derive(Clone, Copy)]
struct Times<'a> {
    binding: &'a Binding,
    before: &'a [Held],
    after: &'a [Held],
    first: Day,
    count: u32,
}

impl Times<'_> {
    /// Whether both jobs were there, and their windows could meet.
    fn met(&self, one: u16, other: u16) -> bool {
        match (self.binding.was(one), self.binding.was(other)) {
            (Some(own), Some(others)) => {
                first_between(self.before, own, others, self.count).is_some()
            }
            _ => false,
        }
    }

    /// The first meeting of two jobs, if they can meet now.
    fn meeting(&self, one: u16, other: u16) -> Option<Meeting> {
        let (days, minute) = first_between(self.after, one, other, self.count)?;
        Some(Meeting {
            one,
            other,
            day: Day::new(self.first.number().saturating_add(u64::from(days)))?,
            minute: u16::try_from(minute).ok()?,
        })
    }
}

fn add_meeting(
    alloc: Global,
    meetings: &mut Vec<Meeting>,
    plan: &Plan,
    meeting: Option<Meeting>,
) -> Result<(), AllocError>
    ensures { OnOk result (All (IsMeeting plan.now) meetings.old.items
        → All (IsMeeting plan.now) meetings.new.items) }
{
    let Some(meeting) = meeting else {
        return Ok(());
    };
    if is_meeting(alloc, plan, &meeting)? {
        meetings.push(meeting)?;
    }
    Ok(())
}

/// Adds those of one job with the later ones.
fn add_meetings(
    alloc: Global,
    meetings: &mut Vec<Meeting>,
    plan: &Plan,
    times: &Times<'_>,
    one: u16,
) -> Result<(), AllocError>
    requires { one < 320 }
    ensures { OnOk result (All (IsMeeting plan.now) meetings.old.items
        → All (IsMeeting plan.now) meetings.new.items) }
{
    for other in one + 1..plan.jobs().len() as u16 {
        if !times.met(one, other) {
            add_meeting(alloc, meetings, plan, times.meeting(one, other))?;
        }
    }
    Ok(())
}

fn all_meetings(alloc: Global, plan: &Plan, times: &Times<'_>) -> Result<Vec<Meeting>, AllocError>
    ensures { IfOk result (λ meetings. All (IsMeeting plan.now) meetings.items) }
{
    let mut meetings = Vec::new(alloc);
    for one in 0..plan.jobs().len() as u16 {
        add_meetings(alloc, &mut meetings, plan, times, one)?;
    }
    Ok(meetings)
}

/// The pairs of jobs of the plan after an edit whose windows may meet within 28 years from a day on,
/// and couldn't before.
pub(crate) fn new_meetings(
    alloc: Global,
    old: &Plan,
    new: &Plan,
    binding: &Binding,
    first: Day,
) -> Result<Vec<Meeting>, AllocError>
    ensures { IfOk result (λ meetings. All (IsMeeting new.now) meetings.items) }
{
    let kinds = kinds_from(alloc, first)?;
    let before = all_held(alloc, old, kinds.as_slice())?;
    let after = all_held(alloc, new, kinds.as_slice())?;
    let times = Times {
        binding,
        before: before.as_slice(),
        after: after.as_slice(),
        first,
        count: kinds
            .len()
            .saturating_sub(REACHED as usize)
            .min(DAYS as usize) as u32,
    };
    all_meetings(alloc, new, &times)
}
