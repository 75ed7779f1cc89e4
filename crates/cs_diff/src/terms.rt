//! What is declared otherwise than before.
use crate::page::Page;
use crate::side::Side;
use crate::times::push_window;
use cs_anacrontab::Period;
use cs_history::Mode;
use cs_plan::Plan;
use std::alloc::AllocError;

/// What is declared of a job.
const TERMS: [Term; 5] = [
    Term::Period,
    Term::Max,
    Term::Weight,
    Term::Group,
    Term::Mode,
];

/// What is declared of all jobs.
const PLAN_TERMS: [Term; 5] = [
    Term::Capacity,
    Term::Hours,
    Term::Pass,
    Term::Offset,
    Term::Zone,
];

#[derive(Clone, Copy)]
enum Term {
    /// How often an anacron job runs, and the delay of its start.
    Period,
    Max,
    Weight,
    Group,
    Mode,
    Capacity,
    Hours,
    Pass,
    /// With a zone, that of its clock on 28 February.
    Offset,
    /// The rule of the zone.
    Zone,
}

impl Term {
    fn name(self) -> &'static str {
        match self {
            Term::Period => "",
            Term::Max => "max ",
            Term::Weight => "weight ",
            Term::Group => "group ",
            Term::Mode => "mode ",
            Term::Capacity => "capacity ",
            Term::Hours => "hours ",
            Term::Pass => "pass ",
            Term::Offset => "offset ",
            Term::Zone => "zone ",
        }
    }

    /// Adds what a plan declares, of a job or of all jobs.
    fn push(self, page: &mut Page, side: Side<'_>, job: u16) -> Result<(), AllocError> {
        let (plan, declared) = (side.plan, side.plan.job_at(job));
        match self {
            Term::Period => push_period(page, side, job),
            Term::Max => page.number(u64::from(declared.max())),
            Term::Weight => page.number(u64::from(declared.weight())),
            Term::Group => push_group(page, plan, declared.group()),
            Term::Mode => page.words(mode_text(declared.mode())),
            Term::Capacity => page.number(u64::from(plan.capacity())),
            Term::Hours => push_hours(page, plan),
            Term::Pass => push_pass(page, plan),
            Term::Offset => push_offset(page, plan),
            Term::Zone => push_zone(page, side.zone),
        }
    }
}

fn mode_text(mode: Mode) -> &'static str {
    match mode {
        Mode::Plain => "none",
        Mode::Skip => "skip",
        Mode::Try => "try",
        Mode::Wait => "wait",
        Mode::Shared => "shared",
    }
}

/// Adds nothing for a cron job.
fn push_period(page: &mut Page, side: Side<'_>, job: u16) -> Result<(), AllocError> {
    let crons = side.plan.crons();
    let place = usize::from(job);
    if place < crons {
        return Ok(());
    }
    let Some(line) = side.plan.anacrontab().lines().get(place - crons) else {
        return Ok(());
    };
    match line.period() {
        Period::Monthly => page.words("monthly")?,
        Period::Days(count) => {
            page.words("every ")?;
            page.number(u64::from(count.number()))?;
            page.words(if count.number() == 1 { " day" } else { " days" })?;
        }
    }
    page.words(", delay ")?;
    page.number(u64::from(line.delay()))
}

fn push_group(page: &mut Page, plan: &Plan, group: Option<u8>) -> Result<(), AllocError> {
    let Some(place) = group else {
        return page.words("none");
    };
    match plan.groups().get(usize::from(place)) {
        Some(group) => page.code(group.name()),
        None => Ok(()),
    }
}

fn push_hours(page: &mut Page, plan: &Plan) -> Result<(), AllocError> {
    let hours = plan.hours();
    let (from, to) = (u32::from(hours.from()), u32::from(hours.to()));
    push_window(page, from, to.saturating_sub(from))
}

fn push_pass(page: &mut Page, plan: &Plan) -> Result<(), AllocError> {
    match plan.pass() {
        Some(minute) => page.number(u64::from(minute)),
        None => page.words("none"),
    }
}

fn push_offset(page: &mut Page, plan: &Plan) -> Result<(), AllocError> {
    if plan.offset() < 0 {
        page.words("-")?;
    }
    page.number(u64::from(plan.offset().unsigned_abs()))
}

fn push_zone(page: &mut Page, rule: &[u8]) -> Result<(), AllocError> {
    if rule.is_empty() {
        return page.words("none");
    }
    page.code(rule)
}

fn value_of(page: &Page, side: Side<'_>, job: u16, term: Term) -> Result<Vec<u8>, AllocError> {
    let mut value = Page::new(page.alloc, page.markdown);
    term.push(&mut value, side, job)?;
    Ok(value.text)
}

/// Adds `max 60, was 30`, after the name of the job if it is one's, where the two differ.
fn push_term(
    page: &mut Page,
    old: (Side<'_>, u16),
    new: (Side<'_>, u16),
    term: Term,
    with_name: bool,
) -> Result<(), AllocError> {
    let before = value_of(page, old.0, old.1, term)?;
    let after = value_of(page, new.0, new.1, term)?;
    if before.as_slice() == after.as_slice() {
        return Ok(());
    }
    page.begin()?;
    if with_name {
        page.job(new.0, new.1)?;
        page.words(": ")?;
    }
    page.words(term.name())?;
    page.text.extend_from_slice(after.as_slice())?;
    page.words(", was ")?;
    page.text.extend_from_slice(before.as_slice())?;
    page.end()
}

/// Adds a line for each term of a job that is declared otherwise.
pub(crate) fn push_terms(
    page: &mut Page,
    old: (Side<'_>, u16),
    new: (Side<'_>, u16),
) -> Result<(), AllocError> {
    for term in TERMS {
        push_term(page, old, new, term, true)?;
    }
    Ok(())
}

/// Adds a line for a group that the plan has too, if it is exclusive in one of both alone.
fn push_exclusive(
    page: &mut Page,
    old: &Plan,
    name: &[u8],
    is_now: bool,
) -> Result<(), AllocError> {
    for group in old.groups() {
        if group.name() == name && group.is_exclusive() != is_now {
            page.begin()?;
            page.words("group ")?;
            page.code(name)?;
            page.words(if is_now {
                ": exclusive, was not exclusive"
            } else {
                ": not exclusive, was exclusive"
            })?;
            page.end()?;
        }
    }
    Ok(())
}

/// Adds a line for each declaration that holds of all jobs, where it is another.
pub(crate) fn push_plan_terms(
    page: &mut Page,
    old: Side<'_>,
    new: Side<'_>,
) -> Result<(), AllocError> {
    for term in PLAN_TERMS {
        push_term(page, (old, 0), (new, 0), term, false)?;
    }
    for group in new.plan.groups() {
        push_exclusive(page, old.plan, group.name(), group.is_exclusive())?;
    }
    Ok(())
}
