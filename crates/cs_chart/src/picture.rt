//! The whole picture.
ghost use Rattle.std.specs.Prelude.{map, string_bytes, IfOk};
ghost use Rattle.cs_chart.specs.Chart.{IsPictureOf, shown_of};

use crate::axis::{hours_above, push_axis, push_grid, push_hours};
use crate::heading::{push_groups, push_key};
use crate::job::{Beside, row_text};
use crate::load::{Found, push_load, push_peak};
use crate::meeting::Meeting;
use crate::row::Row;
use crate::sheet::{HOURS, MARGIN, ROW, ROWS_OF_HOURS, Sheet};
use crate::span::{DaySpan, MOST_DAYS};
use cs_plan::Plan;
use std::alloc::{AllocError, Global};
use std::fmt::Write;

/// With so many rows or more, the hours are repeated below them.
const MANY_ROWS: usize = 25;

/// What is drawn.
#[derive(Clone, Copy)]
pub(crate) struct Scene<'a> {
    pub(crate) title: &'a str,
    pub(crate) terms: &'a str,
    pub(crate) rows: &'a [Row<'a>],
    /// What the windows of each row meet.
    pub(crate) meetings: &'a [Meeting<'a>],
    /// None without declarations.
    pub(crate) plan: Option<&'a Plan>,
    pub(crate) span: DaySpan,
    /// How many days the words ask for.
    pub(crate) days: u8,
}

/// The height of so many rows, with the hours between them.
fn rows_height(rows: usize) -> u32 {
    let rows = u32::try_from(rows).unwrap_or(u32::MAX);
    let hours = rows.saturating_sub(1) / ROWS_OF_HOURS;
    ROW.saturating_mul(rows)
        .saturating_add(HOURS.saturating_mul(hours))
}

/// The rows from this top on. Updates `found`.
fn rows_drawn(
    alloc: Global,
    scene: &Scene<'_>,
    top: u32,
    found: &mut Found,
) -> Result<String, AllocError>
    ensures { IfOk result (λ text. IsPictureOf scene.now.span (map shown_of scene.now.rows.now)
        (string_bytes text)) }
{
    let mut text = String::new(alloc);
    let mut place = 0;
    for row in scene.rows {
        let height = rows_height(place + 1).saturating_sub(ROW);
        let beside = Beside {
            span: scene.span,
            top: top.saturating_add(height),
            meeting: scene.meetings.get(place),
            plan: scene.plan,
        };
        let hours = hours_above(alloc, scene.span, place, beside.top)?;
        text.push_str(hours.as_str())?;
        let drawn = row_text(alloc, row, &beside, found)?;
        text.push_str(drawn.as_str())?;
        place += 1;
    }
    Ok(text)
}

/// Adds notes at the foot, such as what the picture doesn't show.
fn push_notes(
    alloc: Global,
    sheet: &mut Sheet,
    scene: &Scene<'_>,
    found: &Found,
) -> Result<(), AllocError> {
    let days = u32::from(scene.span.days());
    let (due, gap) = (4 * days, 2 * days);
    let coarse = format!(in alloc;
        "not shown: due minutes less than {due} min after the one before, and gaps of less than \
         {gap} min between bars"
    )?;
    let red = "a triangle, and red from there on: a window of another job of its exclusive group \
               holds the minute, and not both take the group's lock";
    let waits = "a run that waits for its lock may go on later than its bar shows";
    let is_cut = scene.span.days() < scene.days.min(MOST_DAYS);
    for (is_shown, note) in [
        (found.is_coarse, coarse.as_str()),
        (found.meets, red),
        (found.waits, waits),
        (is_cut, "days past 9999-12-31 are not shown"),
    ] {
        if is_shown {
            sheet.push_line(12, note)?;
            sheet.down(15);
        }
    }
    Ok(())
}

fn push_head(sheet: &mut Sheet, scene: &Scene<'_>) -> Result<(), AllocError> {
    let (y, title) = (sheet.below(26), scene.title);
    write!(
        sheet.text,
        "<text x=\"{MARGIN}\" y=\"{y}\" font-size=\"16\" font-weight=\"bold\">{title}</text>\n"
    )?;
    sheet.push_line(44, scene.terms)?;
    sheet.down(50);
    push_key(sheet)?;
    if let Some(plan) = scene.plan {
        push_groups(sheet, plan.groups())?;
    }
    sheet.down(4);
    push_axis(sheet, scene.span)?;
    push_grid(sheet, scene.span, rows_height(scene.rows.len()))?;
    sheet.text.push_str("<g font-family=\"monospace\">\n")
}

/// Adds everything below the rows: the hours again below many, the load and the capacity, if
/// declared, and notes.
fn push_foot(
    alloc: Global,
    sheet: &mut Sheet,
    scene: &Scene<'_>,
    found: &Found,
) -> Result<(), AllocError> {
    sheet.text.push_str("</g>\n")?;
    if MANY_ROWS <= scene.rows.len() {
        push_hours(&mut sheet.text, scene.span, sheet.y)?;
        sheet.down(HOURS);
    }
    if let Some(plan) = scene.plan {
        sheet.down(12);
        push_load(sheet, scene.span, found.loads.as_slice(), plan.capacity())?;
        push_hours(&mut sheet.text, scene.span, sheet.y)?;
        sheet.down(HOURS);
    }
    sheet.down(6);
    let loads = found.loads.as_slice();
    push_peak(alloc, sheet, scene.span, loads, scene.rows, scene.plan)?;
    push_notes(alloc, sheet, scene, found)?;
    sheet.text.push_str("</svg>\n")
}

/// Draws a scene as an SVG document (SVG 1.1): a row for each command line and each anacron job,
/// with bars over the minutes in which its runs may go on and marks at its due minutes.
///
/// Bytes that aren't UTF-8 and characters that XML doesn't allow are shown as U+FFFD. Due minutes
/// or bars that are too near to be shown are drawn as one, and a line at the foot says so. A run
/// that waits for its lock may go on past its window, and the picture says so.
pub(crate) fn draw(alloc: Global, scene: &Scene<'_>) -> Result<String, AllocError>
    ensures { IfOk result (λ svg. IsPictureOf scene.now.span (map shown_of scene.now.rows.now)
        (string_bytes svg)) }
{
    let mut head = Sheet {
        text: String::new(alloc),
        y: 0,
    };
    push_head(&mut head, scene)?;
    let mut found = Found {
        loads: vec![in alloc; 0; scene.span.minutes() as usize]?,
        is_coarse: false,
        meets: false,
        waits: false,
    };
    let rows = rows_drawn(alloc, scene, head.y, &mut found)?;
    let mut foot = Sheet {
        text: String::new(alloc),
        y: head.y.saturating_add(rows_height(scene.rows.len())),
    };
    push_foot(alloc, &mut foot, scene, &found)?;
    // wider where names of groups follow the days
    let width = match scene.plan {
        Some(plan) if !plan.groups().is_empty() => 1_220,
        _ => 1_120,
    };
    let (title, height) = (scene.title, foot.below(10));
    let mut svg = format!(in alloc;
        "<?xml version=\"1.0\" encoding=\"UTF-8\"?>\n\
         <svg xmlns=\"http://www.w3.org/2000/svg\" width=\"{width}\" height=\"{height}\" \
         viewBox=\"0 0 {width} {height}\" font-family=\"sans-serif\" font-size=\"11\">\n\
         <title>{title}</title>\n\
         <rect width=\"{width}\" height=\"{height}\" fill=\"#FFF\"/>\n"
    )?;
    svg.push_str(head.text.as_str())?;
    svg.push_str(rows.as_str())?;
    svg.push_str(foot.text.as_str())?;
    Ok(svg)
}
