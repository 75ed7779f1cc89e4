//! A sheet on which a part of a picture is drawn, from top to foot.
use crate::span::DaySpan;
use std::alloc::AllocError;
use std::fmt::Write;

/// The left edge of the rows' names; all lengths here are pixels.
pub(crate) const MARGIN: u32 = 10;

/// The left edge of the first day.
pub(crate) const PLOT_LEFT: u32 = 256;

/// The width of all days.
pub(crate) const PLOT_WIDTH: u32 = 840;

/// The right edge of the last day.
pub(crate) const PLOT_RIGHT: u32 = PLOT_LEFT + PLOT_WIDTH;

/// How many cells of a name fit before the first day.
pub(crate) const NAME_CELLS: usize = 36;

/// The height of a row.
pub(crate) const ROW: u32 = 18;

/// How many rows are between two lines of hours.
pub(crate) const ROWS_OF_HOURS: u32 = 40;

/// The height of a line of hours.
pub(crate) const HOURS: u32 = 16;

/// A part of a picture without rows: its text and how far down it goes.
#[derive(Drop)]
pub(crate) struct Sheet {
    pub(crate) text: String,
    /// The top of what is drawn next.
    pub(crate) y: u32,
}

impl Sheet {
    pub(crate) fn down(&mut self, by: u32) {
        self.y = self.y.saturating_add(by);
    }

    /// The place so far below the top of what is drawn next.
    pub(crate) fn below(&self, by: u32) -> u32 {
        self.y.saturating_add(by)
    }

    /// Adds a line of text at the margin.
    pub(crate) fn push_line(&mut self, below: u32, text: &str) -> Result<(), AllocError> {
        let y = self.below(below);
        write!(self.text, "<text x=\"{MARGIN}\" y=\"{y}\">{text}</text>\n")
    }
}

/// Begins a part with its own scales: minutes of the picture from left to right, and steps from top
/// to foot.
pub(crate) fn begin_plot(
    text: &mut String,
    span: DaySpan,
    top: u32,
    height: u32,
    steps: u32,
) -> Result<(), AllocError> {
    let minutes = span.minutes();
    write!(
        text,
        "<svg x=\"{PLOT_LEFT}\" y=\"{top}\" width=\"{PLOT_WIDTH}\" height=\"{height}\" \
         viewBox=\"0 0 {minutes} {steps}\" preserveAspectRatio=\"none\">"
    )
}

/// The distance of a minute of the picture from the left.
pub(crate) fn place_of(minute: u32, span: DaySpan) -> u32 {
    let minutes = span.minutes();
    let along = u64::from(PLOT_WIDTH) * u64::from(minute.min(minutes)) / u64::from(minutes.max(1));
    PLOT_LEFT + (along as u32)
}
