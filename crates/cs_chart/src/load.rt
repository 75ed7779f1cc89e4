//! The load: the weight of all jobs that may run, minute by minute.
use crate::axis::push_grid;
use crate::bar::{Bar, bars_of};
use crate::job::{PLACE_CELLS, push_name};
use crate::row::Row;
use crate::sheet::{MARGIN, PLOT_LEFT, PLOT_WIDTH, Sheet, begin_plot};
use crate::span::DaySpan;
use crate::text::push_minute;
use cs_plan::Plan;
use std::alloc::{AllocError, Global};
use std::fmt::Write;

const HEIGHT: u32 = 100;

/// How many of the jobs that make the highest load are named.
const MOST_JOBS: usize = 6;

/// What is found while rows are drawn.
#[derive(Drop)]
pub(crate) struct Found {
    /// The load of each minute of the picture.
    pub(crate) loads: Vec<u32>,
    /// Whether something is drawn coarser than it is.
    pub(crate) is_coarse: bool,
    pub(crate) meets: bool,
    /// Whether some job may have to wait for its lock.
    pub(crate) waits: bool,
}

fn add_bar(loads: &mut [u32], bar: Bar, weight: u8) {
    for minute in bar.from..bar.to {
        if let Some(load) = loads.get_mut(minute as usize) {
            *load = load.saturating_add(u32::from(weight));
        }
    }
}

/// Adds a job of this weight over its bars, which have no minute in common.
pub(crate) fn add_weight(loads: &mut [u32], bars: &[Bar], weight: u8) {
    for bar in bars {
        add_bar(loads, *bar, weight);
    }
}

/// Adds the area under the load, or of the load above a floor; `start` begins the element.
fn push_area(
    text: &mut String,
    loads: &[u32],
    start: &str,
    top: u32,
    floor: u32,
) -> Result<(), AllocError> {
    let foot = top.saturating_sub(floor);
    write!(text, "{start} d=\"M0 {foot}")?;
    let mut last = foot;
    for (minute, load) in loads.iter().enumerate() {
        let height = top.saturating_sub((*load).max(floor));
        if height != last {
            write!(text, "H{minute}V{height}")?;
            last = height;
        }
    }
    let end = loads.len();
    write!(text, "H{end}V{foot}z\"/>")
}

/// The highest load, and the first minute that has it.
fn peak_of(loads: &[u32]) -> (u32, u32) {
    let (mut most, mut first) = (0, 0);
    for (minute, load) in loads.iter().enumerate() {
        if most < *load {
            most = *load;
            first = u32::try_from(minute).unwrap_or(0);
        }
    }
    (most, first)
}

/// Whether windows of a row hold the minute.
fn is_over(alloc: Global, span: DaySpan, row: &Row<'_>, minute: u32) -> Result<bool, AllocError> {
    let Some(occupied) = row.occupied else {
        return Ok(false);
    };
    let bars = bars_of(alloc, occupied, span)?;
    Ok(bars.iter().any(|bar| bar.from <= minute && minute < bar.to))
}

/// Adds the highest load, its first minute, and the jobs that make it.
pub(crate) fn push_peak(
    alloc: Global,
    sheet: &mut Sheet,
    span: DaySpan,
    loads: &[u32],
    rows: &[Row<'_>],
    plan: Option<&Plan>,
) -> Result<(), AllocError> {
    let (most, first) = peak_of(loads);
    if most == 0 {
        return Ok(());
    }
    let mut note = format!(in alloc; "highest load: {most}, first on ")?;
    push_minute(alloc, &mut note, span, first, plan)?;
    let mut count = 0usize;
    for row in rows {
        if is_over(alloc, span, row, first)? {
            if count < MOST_JOBS {
                note.push_str(if count == 0 { ", by " } else { ", " })?;
                push_name(&mut note, row, PLACE_CELLS)?;
            }
            count = count.saturating_add(1);
        }
    }
    if MOST_JOBS < count {
        let more = count - MOST_JOBS;
        write!(note, " and {more} more")?;
    }
    sheet.push_line(12, note.as_str())?;
    sheet.down(15);
    Ok(())
}

/// Adds the load with the line of the capacity, in another colour above it, and moves below.
pub(crate) fn push_load(
    sheet: &mut Sheet,
    span: DaySpan,
    loads: &[u32],
    capacity: u8,
) -> Result<(), AllocError> {
    let floor = u32::from(capacity);
    let (most, _) = peak_of(loads);
    let highest = most.max(floor).max(1);
    let top = highest.saturating_add(highest / 8).saturating_add(1);
    let up = u64::from(HEIGHT) * u64::from(capacity) / u64::from(top);
    let (first, second, foot) = (sheet.below(12), sheet.below(26), sheet.below(HEIGHT));
    let line = foot.saturating_sub(up as u32);
    push_grid(sheet, span, HEIGHT)?;
    begin_plot(&mut sheet.text, span, sheet.y, HEIGHT, top)?;
    let load = "<path class=\"load\" fill=\"#999999\"";
    push_area(&mut sheet.text, loads, load, top, 0)?;
    let over = "<path class=\"over\" fill=\"#D55E00\"";
    push_area(&mut sheet.text, loads, over, top, floor)?;
    let (beside, y) = (PLOT_LEFT - 6, line.saturating_add(4));
    write!(
        sheet.text,
        "</svg>\n\
         <path stroke=\"#888\" d=\"M{PLOT_LEFT} {foot}h{PLOT_WIDTH}\"/>\n\
         <path class=\"capacity\" stroke=\"#000\" stroke-dasharray=\"6 3\" d=\"M{PLOT_LEFT} {line}h{PLOT_WIDTH}\"/>\n\
         <text x=\"{MARGIN}\" y=\"{first}\">load: the weights of jobs</text>\n\
         <text x=\"{MARGIN}\" y=\"{second}\">that may run, at most {most}</text>\n\
         <text x=\"{beside}\" y=\"{y}\" text-anchor=\"end\">capacity {capacity}</text>\n"
    )?;
    sheet.down(HEIGHT);
    Ok(())
}
