//! The rows of a picture: what is drawn of each job.
ghost use Rattle.std.specs.Prelude.{◌≡◌, IfOk, map};
ghost use Rattle.cs_zone.specs.Zone.{no_zone};
ghost use Rattle.cs_chart.specs.Chart.{jobs_of_plan, jobs_of_tables, shown_of, windows_of};
ghost use Rattle.cs_chart.specs.Chart.{terms_at, windows_of_anacron};

use cs_anacrontab::{Anacrontab, Job};
use cs_crontab::{Crontab, Line, When};
use cs_history::Mode;
use cs_place::{Place, place_of};
use cs_plan::{Group, Job as PlanJob, Plan};
use cs_windows::Occupied;
use cs_zone::Zone;
use std::alloc::{AllocError, Global};

/// What holds of all jobs of two tables without declarations.
#[derive(Clone, Copy)]
pub(crate) struct Terms {
    /// The longest time of a run, in minutes from 1 to 4,320.
    pub(crate) max: u16,
    /// The first minute of a day at which an anacron job may start,
    pub(crate) from: u16,
    /// and the first after them, at most 1,440.
    pub(crate) to: u16,
}

/// The name of a job.
#[derive(Clone, Copy)]
pub(crate) enum Name<'a> {
    /// The number of a crontab's line, and its command.
    Line(u32, &'a [u8]),
    /// The identifier of an anacron job.
    Job(&'a [u8]),
}

/// What is declared of a job, besides its longest time.
#[derive(Clone, Copy)]
pub(crate) struct Declared<'a> {
    pub(crate) weight: u8,
    /// The index of its group among the plan's,
    pub(crate) place: Option<u8>,
    /// and the group.
    pub(crate) group: Option<&'a Group>,
    pub(crate) is_exclusive: bool,
    pub(crate) mode: Mode,
}

/// What is drawn of a job.
#[derive(Clone, Copy)]
pub(crate) struct Row<'a> {
    pub(crate) name: Name<'a>,
    /// None for a job that starts once, at reboot.
    pub(crate) occupied: Option<Occupied<'a>>,
    /// The longest time of a run, in minutes.
    pub(crate) max: u16,
    pub(crate) declared: Option<Declared<'a>>,
    /// Where its line comes from, if the table was gathered.
    pub(crate) origin: Option<&'a Place>,
}

impl Row<'_> {
    pub(crate) fn group(&self) -> Option<u8> {
        self.declared?.place
    }
}

fn declared_of(plan: &Plan, job: PlanJob) -> Declared<'_> {
    let mut declared = Declared {
        weight: job.weight(),
        place: job.group(),
        group: None,
        is_exclusive: false,
        mode: job.mode(),
    };
    if let Some(place) = declared.place {
        if let Some(group) = plan.groups().get(usize::from(place)) {
            declared.group = Some(group);
            declared.is_exclusive = group.is_exclusive();
        }
    }
    declared
}

fn line_row<'a>(
    line: &'a Line,
    places: &'a [Place],
    zone: &'a Zone,
    max: u16,
    declared: Option<Declared<'a>>,
) -> Row<'a>
    ensures { shown_of result ≡ windows_of zone.now line.now.when max }
{
    let occupied = match line.when() {
        When::At(schedule) => Some(Occupied::Cron {
            schedule,
            zone,
            reach: max,
        }),
        When::Reboot => None,
    };
    Row {
        name: Name::Line(line.number(), line.command()),
        occupied,
        max,
        declared,
        origin: place_of(places, line.number()),
    }
}

/// The row of an anacron job: its window goes from the first catch-up minute to the end of a run
/// that starts in the last one.
fn job_row<'a>(job: &'a Job, terms: Terms, declared: Option<Declared<'a>>) -> Row<'a>
    ensures { shown_of result ≡ windows_of_anacron terms }
{
    let hours = terms.to.saturating_sub(1).saturating_sub(terms.from);
    Row {
        name: Name::Job(job.identifier()),
        occupied: Some(Occupied::CatchUp {
            from: terms.from,
            reach: hours.saturating_add(terms.max),
        }),
        max: terms.max,
        declared,
        origin: None,
    }
}

pub(crate) fn table_rows<'a>(
    alloc: Global,
    table: &'a Crontab,
    jobs: &'a Anacrontab,
    places: &'a [Place],
    none: &'a Zone,
    terms: Terms,
) -> Result<Vec<Row<'a>>, AllocError>
    requires { none.now ≡ no_zone }
    ensures { IfOk result (λ rows. map shown_of rows.items
        ≡ jobs_of_tables terms table.now jobs.now) }
{
    let mut rows = Vec::new(alloc);
    for line in table.lines() {
        rows.push(line_row(line, places, none, terms.max, None))?;
    }
    for job in jobs.lines() {
        rows.push(job_row(job, terms, None))?;
    }
    Ok(rows)
}

fn plan_row<'a>(plan: &'a Plan, job: &'a Job, number: u16) -> Row<'a>
    ensures { shown_of result ≡ windows_of_anacron (terms_at plan.now number) }
{
    let hours = plan.hours();
    let declared = plan.job_at(number);
    let terms = Terms {
        max: declared.max(),
        from: hours.from(),
        to: hours.to(),
    };
    job_row(job, terms, Some(declared_of(plan, declared)))
}

pub(crate) fn plan_rows<'a>(
    alloc: Global,
    plan: &'a Plan,
    places: &'a [Place],
) -> Result<Vec<Row<'a>>, AllocError>
    ensures { IfOk result (λ rows. map shown_of rows.items ≡ jobs_of_plan plan.now) }
{
    let lines = plan.crontab().lines();
    let mut rows = Vec::new(alloc);
    for place in 0..lines.len() {
        let job = plan.job_at(place as u16);
        let declared = Some(declared_of(plan, job));
        rows.push(line_row(&lines[place], places, plan.zone(), job.max(), declared))?;
    }
    let crons = plan.crons();
    let jobs = plan.anacrontab().lines();
    for place in 0..jobs.len() {
        rows.push(plan_row(plan, &jobs[place], (crons + place) as u16))?;
    }
    Ok(rows)
}
