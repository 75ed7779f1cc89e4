//! The heading of a picture: what it shows, and what its colours and marks mean.
use crate::answer::Drawable;
use crate::look::push_swatch;
use crate::sheet::{MARGIN, Sheet};
use crate::span::DaySpan;
use crate::text::{push_cut, push_day, push_label};
use cs_args::Question;
use cs_civil::kind_of;
use cs_plan::{Group, Plan};
use cs_zone::{Zone, march_day, wall_on};
use std::alloc::{AllocError, Global};
use std::fmt::Write;

/// How many cells of the table's name fit the title.
const SUBJECT_CELLS: usize = 72;

/// How many cells of a clock's name fit.
const CLOCK_CELLS: usize = 16;

/// How many groups are named in a line, and how far apart, in pixels.
const GROUPS_OF_LINE: usize = 8;

const GROUP_WIDTH: u32 = 148;

/// The height of a line of the key.
const KEY_LINE: u32 = 18;

pub(crate) fn title(alloc: Global, table: &str, span: DaySpan) -> Result<String, AllocError> {
    let mut title = String::new(alloc);
    let name = if table == "-" {
        "standard input"
    } else {
        table
    };
    push_cut(&mut title, name.as_bytes(), SUBJECT_CELLS)?;
    title.push_str(": ")?;
    push_day(&mut title, span.day(0))?;
    if 1 < span.days() {
        title.push_str(" to ")?;
        push_day(&mut title, span.day(span.days() - 1))?;
    }
    Ok(title)
}

/// Whether the zone's clock differs from the plan's clock on a day of the picture.
fn differs_on(zone: Zone, span: DaySpan) -> bool {
    for place in 0..span.days() {
        let kind = kind_of(span.day(place));
        let start = 1_440 * march_day(kind);
        if wall_on(zone, kind, 0) != start || wall_on(zone, kind, 1_439) != start + 1_439 {
            return true;
        }
    }
    false
}

/// Adds whose hours they are, if the plan has a zone: `, hours by CET; CEST is 60 minutes ahead`.
fn push_clocks(text: &mut String, plan: &Plan, span: DaySpan) -> Result<(), AllocError> {
    let Some(clocks) = plan.clocks() else {
        return Ok(());
    };
    text.push_str(", hours by ")?;
    push_cut(text, clocks.plan.as_slice(), CLOCK_CELLS)?;
    let zone = *plan.zone();
    if !differs_on(zone, span) {
        return Ok(());
    }
    text.push_str("; ")?;
    push_cut(text, clocks.other.as_slice(), CLOCK_CELLS)?;
    let (saving, way) = (
        zone.saving(),
        if zone.is_ahead() { "ahead" } else { "behind" },
    );
    write!(text, " is {saving} minutes {way}")
}

/// The terms of all jobs: `each run takes at most 60 min, catch-up from 05:00 to 24:00`.
pub(crate) fn terms_text(
    alloc: Global,
    question: Question,
    found: &Drawable,
    span: DaySpan,
) -> Result<String, AllocError> {
    let mut text = String::from_str(alloc, "each run takes at most ")?;
    let hours = match found {
        Drawable::Tables(_) => {
            let max = question.max();
            write!(text, "{max} min")?;
            question.hours()
        }
        Drawable::Plan(plan, _) => {
            let capacity = plan.capacity();
            write!(text, "its job's declared time, capacity {capacity}")?;
            plan.hours()
        }
    };
    for (words, minute) in [(", catch-up from ", hours.from()), (" to ", hours.to())] {
        let (hour, minute) = (minute / 60, minute % 60);
        write!(text, "{words}{hour:02}:{minute:02}")?;
    }
    if let Drawable::Plan(plan, _) = found {
        push_clocks(&mut text, plan, span)?;
    }
    Ok(text)
}

/// Adds the meaning of bars and marks, and moves below it.
pub(crate) fn push_key(sheet: &mut Sheet) -> Result<(), AllocError> {
    let middle = sheet.below(8);
    let top = sheet.y;
    let y = sheet.below(12);
    push_swatch(&mut sheet.text, None, MARGIN, middle)?;
    write!(
        sheet.text,
        "<text x=\"40\" y=\"{y}\">minutes in which a run may go on</text>\n\
         <path stroke=\"#000\" stroke-width=\"1.2\" d=\"M256 {top}v16\"/>\
         <text x=\"264\" y=\"{y}\">due</text>\n\
         <path stroke=\"#000\" stroke-width=\"3\" d=\"M304 {middle}h24\"/>\
         <path stroke=\"#000\" stroke-width=\"1.2\" d=\"M304 {top}v16M328 {top}v16\"/>\
         <text x=\"336\" y=\"{y}\">due many times from here to there</text>\n"
    )?;
    sheet.down(KEY_LINE);
    Ok(())
}

/// Adds the colours and names of the groups, and moves below them.
pub(crate) fn push_groups(sheet: &mut Sheet, groups: &[Group]) -> Result<(), AllocError> {
    if groups.is_empty() {
        return Ok(());
    }
    sheet.text.push_str("<g font-family=\"monospace\">\n")?;
    for (place, group) in groups.iter().enumerate() {
        let column = place % GROUPS_OF_LINE;
        if column == 0 && 0 < place {
            sheet.down(KEY_LINE);
        }
        let x = MARGIN + GROUP_WIDTH * (column as u32);
        let (middle, y) = (sheet.below(8), sheet.below(12));
        push_swatch(&mut sheet.text, u8::try_from(place).ok(), x, middle)?;
        push_label(&mut sheet.text, x + 30, y, group.name())?;
    }
    sheet.down(KEY_LINE);
    sheet.text.push_str("</g>\n")
}
