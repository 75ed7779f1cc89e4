//! The dates and hours along a picture, and their lines.
ghost use Rattle.std.specs.Prelude.{◌≤◌};

use crate::sheet::{HOURS, PLOT_LEFT, PLOT_WIDTH, ROWS_OF_HOURS, Sheet, begin_plot, place_of};
use crate::span::DaySpan;
use crate::text::push_day;
use cs_civil::MINUTES_OF_DAY;
use std::alloc::{AllocError, Global};
use std::fmt::Write;

const MINUTES_OF_HOUR: u32 = 60;

/// The step between hours with a number and a line.
fn hours_apart(days: u8) -> u32
    ensures { (1 ≤ result) × (result ≤ 6) }
{
    match days {
        1 => 1,
        2 => 2,
        3 | 4 => 3,
        _ => 6,
    }
}

fn push_numbers(text: &mut String, span: DaySpan, y: u32) -> Result<(), AllocError> {
    let apart = hours_apart(span.days());
    let hours = 24 * u32::from(span.days());
    for count in 0..=hours / apart {
        let hour = apart * count;
        let x = place_of(MINUTES_OF_HOUR * hour, span);
        let named = if hour == hours { 24 } else { hour % 24 };
        write!(text, "<text x=\"{x}\" y=\"{y}\">{named:02}</text>")?;
    }
    Ok(())
}

/// Adds the dates and hours, and moves below them.
pub(crate) fn push_axis(sheet: &mut Sheet, span: DaySpan) -> Result<(), AllocError> {
    let (upper, lower) = (sheet.below(12), sheet.below(26));
    sheet.text.push_str("<g text-anchor=\"middle\">\n")?;
    for place in 0..span.days() {
        let noon = u32::from(MINUTES_OF_DAY) * u32::from(place) + u32::from(MINUTES_OF_DAY) / 2;
        let x = place_of(noon, span);
        write!(sheet.text, "<text x=\"{x}\" y=\"{upper}\">")?;
        push_day(&mut sheet.text, span.day(place))?;
        sheet.text.push_str("</text>\n")?;
    }
    push_numbers(&mut sheet.text, span, lower)?;
    sheet.text.push_str("\n</g>\n")?;
    sheet.down(30);
    Ok(())
}

/// Adds the hours once more, below the rows or the load.
pub(crate) fn push_hours(text: &mut String, span: DaySpan, top: u32) -> Result<(), AllocError> {
    text.push_str("<g text-anchor=\"middle\">")?;
    push_numbers(text, span, top.saturating_add(12))?;
    text.push_str("\n</g>\n")
}

/// The hours above a row, after every 40 rows. A white background keeps the lines of the hours out
/// of the numbers.
pub(crate) fn hours_above(
    alloc: Global,
    span: DaySpan,
    place: usize,
    y: u32,
) -> Result<String, AllocError> {
    let mut text = String::new(alloc);
    if 0 < place && place % (ROWS_OF_HOURS as usize) == 0 {
        let top = y.saturating_sub(HOURS);
        write!(
            text,
            "<g class=\"hours\" font-family=\"sans-serif\">\
             <rect x=\"{PLOT_LEFT}\" y=\"{top}\" width=\"{PLOT_WIDTH}\" height=\"{HOURS}\" fill=\"#FFF\"/>\n"
        )?;
        push_hours(&mut text, span, top)?;
        text.push_str("</g>\n")?;
    }
    Ok(text)
}

/// Adds lines from top to foot, so many hours apart.
fn push_lines(text: &mut String, span: DaySpan, apart: u32, colour: &str) -> Result<(), AllocError>
    requires { (1 ≤ apart) × (apart ≤ 24) }
{
    let width = span.days();
    let hours = 24 * u32::from(width);
    write!(
        text,
        "<path stroke=\"{colour}\" stroke-width=\"{width}\" d=\""
    )?;
    for count in 0..=hours / apart {
        let minute = MINUTES_OF_HOUR * (apart * count);
        write!(text, "M{minute} 0v1")?;
    }
    text.push_str("\"/>")
}

/// Adds the lines of the hours and days behind what is drawn next, so high.
pub(crate) fn push_grid(sheet: &mut Sheet, span: DaySpan, height: u32) -> Result<(), AllocError> {
    let apart = hours_apart(span.days());
    begin_plot(&mut sheet.text, span, sheet.y, height, 1)?;
    push_lines(&mut sheet.text, span, apart, "#DDD")?;
    push_lines(&mut sheet.text, span, 24, "#888")?;
    sheet.text.push_str("</svg>\n")
}
