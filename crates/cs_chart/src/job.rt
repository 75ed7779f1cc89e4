//! The row of a job: its name, its bars and its marks.
ghost use Rattle.std.specs.Prelude.{[], ◌∷◌, IfOk, OnOk, string_bytes};
ghost use Rattle.cs_chart.specs.Chart.{IsPictureOf, shown_of};

use crate::bar::{Bar, bars_of, push_stretches};
use crate::guard::work_of;
use crate::load::{Found, add_weight};
use crate::look::{colour_of, push_lines};
use crate::marks::{marks_of, without_gaps};
use crate::meeting::Meeting;
use crate::row::{Name, Row};
use crate::sheet::{MARGIN, NAME_CELLS, PLOT_LEFT, PLOT_RIGHT, ROW, begin_plot};
use crate::span::DaySpan;
use crate::text::{push_cut, push_end, push_label, push_minute};
use cs_history::Mode;
use cs_plan::Plan;
use cs_windows::Occupied;
use std::alloc::{AllocError, Global};
use std::fmt::Write;

/// The place of a row, and what it shows besides its job.
#[derive(Clone, Copy)]
pub(crate) struct Beside<'a> {
    pub(crate) span: DaySpan,
    /// The top of the row.
    pub(crate) top: u32,
    /// What the windows of the job meet.
    pub(crate) meeting: Option<&'a Meeting<'a>>,
    pub(crate) plan: Option<&'a Plan>,
}

/// How many cells of a name are shown where the pointer rests on its row.
const TITLE_CELLS: usize = 120;

/// How many cells of a line's place fit before its program.
pub(crate) const PLACE_CELLS: usize = 18;

// ---- names

/// Adds `line 5`, the place of the line in a gathered table, or `job cron.weekly`. Of a place at
/// most so many cells are shown, from its end; of an identifier from its beginning.
pub(crate) fn push_name(text: &mut String, row: &Row<'_>, cells: usize) -> Result<(), AllocError> {
    match (row.name, row.origin) {
        (Name::Job(identifier), _) => {
            text.push_str("job ")?;
            push_cut(text, identifier, cells)
        }
        (_, Some(place)) => push_end(text, place.origin.as_slice(), cells),
        (Name::Line(number, _), None) => write!(text, "line {number}"),
    }
}

/// Adds the name, and for a line what it runs, as far as they fit: `line 5 /usr/bin/backup` or `job
/// cron.weekly`. Of `run-parts` the end is shown, which has the folder.
fn push_row_name(text: &mut String, row: &Row<'_>) -> Result<(), AllocError> {
    let start = text.len();
    let Name::Line(_, command) = row.name else {
        return push_name(text, row, NAME_CELLS - 4);
    };
    push_name(text, row, PLACE_CELLS)?;
    text.push_str(" ")?;
    let left = NAME_CELLS.saturating_sub(text.len().saturating_sub(start));
    let work = work_of(command);
    if work.starts_with(b"run-parts ".as_slice()) {
        return push_end(text, work, left);
    }
    push_cut(text, work, left)
}

/// Adds the jobs that it meets, and when: `, meets line 5 first on 2024-09-13 Fri 01:30, job ..`.
fn push_met(
    alloc: Global,
    text: &mut String,
    meeting: &Meeting<'_>,
    beside: &Beside<'_>,
) -> Result<(), AllocError> {
    let mut start = ", meets ";
    for (row, first) in meeting.others.as_slice() {
        text.push_str(start)?;
        push_name(text, row, TITLE_CELLS)?;
        text.push_str(" first on ")?;
        push_minute(alloc, text, beside.span, *first, beside.plan)?;
        start = ", ";
    }
    Ok(())
}

/// Adds the text for a pointer that rests on the row: the job, where its line comes from, as `line
/// 5 /usr/bin/backup from /etc/cron.d/munin:12 (munin)`, and what is declared of it.
fn push_title(
    alloc: Global,
    text: &mut String,
    row: &Row<'_>,
    beside: &Beside<'_>,
) -> Result<(), AllocError> {
    let words = match row.name {
        Name::Line(number, command) => {
            write!(text, "line {number} ")?;
            command
        }
        Name::Job(identifier) => {
            text.push_str("job ")?;
            identifier
        }
    };
    push_cut(text, words, TITLE_CELLS)?;
    if let Some(origin) = row.origin {
        text.push_str(" from ")?;
        push_cut(text, origin.origin.as_slice(), TITLE_CELLS)?;
        text.push_str(" (")?;
        push_cut(text, origin.user.as_slice(), TITLE_CELLS)?;
        text.push_str(")")?;
    }
    let max = row.max;
    write!(text, ": at most {max} min")?;
    if let Some(job) = row.declared {
        let weight = job.weight;
        write!(text, ", weight {weight}")?;
        if let Some(group) = job.group {
            text.push_str(", group ")?;
            push_cut(text, group.name(), TITLE_CELLS)?;
        }
        text.push_str(match job.mode {
            Mode::Plain => "",
            Mode::Skip => ", skips where its lock is held",
            Mode::Try => ", may be skipped where its lock is held",
            Mode::Wait => ", waits for its lock",
            Mode::Shared => ", shares its lock",
        })?;
    }
    match beside.meeting {
        Some(meeting) => push_met(alloc, text, meeting, beside),
        None => Ok(()),
    }
}

// ---- marks over the bars

/// Adds a mark at the first and at the last minute of each bar.
fn push_ends(text: &mut String, span: DaySpan, bars: &[Bar]) -> Result<(), AllocError> {
    let width = 2 * u32::from(span.days());
    write!(
        text,
        "<path class=\"due\" stroke=\"#000\" stroke-width=\"{width}\" d=\""
    )?;
    for bar in bars {
        let (from, to) = (bar.from, bar.to);
        write!(text, "M{from} 1v16")?;
        if from < to {
            write!(text, "M{to} 1v16")?;
        }
    }
    text.push_str("\"/>")
}

fn push_triangles(text: &mut String, span: DaySpan, bars: &[Bar]) -> Result<(), AllocError> {
    let half = 9 * u32::from(span.days());
    text.push_str("<path class=\"mark\" d=\"")?;
    for bar in bars {
        let from = bar.from;
        write!(text, "M{from} 8l-{half} -8h{}z", 2 * half)?;
    }
    text.push_str("\"/>")
}

/// Adds over the bars the lines of the group, where windows meet others, and the due minutes of a
/// cron job: a mark for each, or a band from the first to the last of many.
fn push_over(
    alloc: Global,
    text: &mut String,
    row: &Row<'_>,
    occupied: &Occupied<'_>,
    beside: &Beside<'_>,
    found: &mut Found,
) -> Result<(), AllocError> {
    let span = beside.span;
    push_lines(text, row.group(), 0, 9, span.minutes())?;
    if let Some(meeting) = beside.meeting {
        if !meeting.bars.is_empty() {
            found.meets = true;
            let start = "<path class=\"meets\" stroke=\"#D55E00\" stroke-width=\"10\" d=\"";
            push_stretches(text, start, meeting.bars.as_slice())?;
            push_triangles(text, span, meeting.bars.as_slice())?;
        }
    }
    let Occupied::Cron { schedule, zone, .. } = occupied else {
        return Ok(());
    };
    let marks = marks_of(alloc, schedule, **zone, span, 4 * u32::from(span.days()))?;
    if marks.is_coarse {
        found.is_coarse = true;
        let start = "<path class=\"many\" stroke=\"#000\" stroke-width=\"3\" d=\"";
        push_stretches(text, start, marks.bars.as_slice())?;
    }
    if marks.bars.is_empty() {
        return Ok(());
    }
    push_ends(text, span, marks.bars.as_slice())
}

// ---- the row

/// Adds the bars and marks of a job, and its weight to the load; or `at reboot`.
fn push_plot(
    alloc: Global,
    text: &mut String,
    row: &Row<'_>,
    beside: &Beside<'_>,
    found: &mut Found,
) -> Result<(), AllocError>
    ensures { OnOk result
        (IsPictureOf beside.now.span (shown_of row.now ∷ []) (string_bytes text.new)) }
{
    let (span, top) = (beside.span, beside.top);
    let Some(occupied) = &row.occupied else {
        push_label(
            text,
            PLOT_LEFT + 4,
            top.saturating_add(13),
            b"at reboot".as_slice(),
        )?;
        return Ok(());
    };
    let bars = bars_of(alloc, *occupied, span)?;
    if let Some(job) = row.declared {
        add_weight(found.loads.as_mut_slice(), bars.as_slice(), job.weight);
    }
    let drawn = without_gaps(alloc, bars.as_slice(), 2 * u32::from(span.days()))?;
    found.is_coarse = found.is_coarse || drawn.is_coarse;
    begin_plot(text, span, top, ROW, ROW)?;
    let colour = colour_of(row.group());
    let start = format!(in alloc;
        "<path class=\"bars\" stroke=\"{colour}\" stroke-width=\"10\" d=\""
    )?;
    push_stretches(text, start.as_str(), drawn.bars.as_slice())?;
    let mut over = String::new(alloc);
    push_over(alloc, &mut over, row, occupied, beside, found)?;
    over.push_str("</svg>\n")?;
    text.push_str(over.as_str())?;
    Ok(())
}

/// The row of a job. Updates `found`.
pub(crate) fn row_text(
    alloc: Global,
    row: &Row<'_>,
    beside: &Beside<'_>,
    found: &mut Found,
) -> Result<String, AllocError>
    ensures { IfOk result (λ text.
        IsPictureOf beside.now.span (shown_of row.now ∷ []) (string_bytes text)) }
{
    let y = beside.top.saturating_add(13);
    let mut text = String::from_str(alloc, "<g class=\"row\"><title>")?;
    push_title(alloc, &mut text, row, beside)?;
    write!(text, "</title>\n<text x=\"{MARGIN}\" y=\"{y}\">")?;
    push_row_name(&mut text, row)?;
    text.push_str("</text>\n")?;
    push_plot(alloc, &mut text, row, beside, found)?;
    let mut behind = String::new(alloc);
    if let Some(job) = row.declared {
        found.waits = found.waits || job.mode.waits();
        if let Some(group) = job.group {
            push_label(&mut behind, PLOT_RIGHT + 8, y, group.name())?;
        }
    }
    behind.push_str("</g>\n")?;
    text.push_str(behind.as_str())?;
    Ok(text)
}
