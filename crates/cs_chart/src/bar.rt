//! The bars of a job: its windows, joined where they touch.
ghost use Rattle.std.specs.Prelude.{◌≡◌, ◌≤◌, ◌||◌, ◌++◌, ℕ, [], ◌∷◌, IfOk, OnOk, codes, flat_map};
ghost use Rattle.std.specs.Prelude.{string_bytes};
ghost use Rattle.cs_windows.specs.Occupied.{job_of};
ghost use Rattle.cs_chart.specs.Bars.{covers, is_covered, is_held, is_held_on};
ghost use Rattle.cs_chart.specs.Chart.{bar_text};

use crate::span::DaySpan;
use cs_civil::{MINUTES_OF_DAY, four_days};
use cs_windows::{Occupied, Window, windows_on};
use std::alloc::{AllocError, Global};
use std::fmt::Write;

/// A range of minutes, counted from the start of the picture's first day; `to` is the first after
/// it.
#[derive(Clone, Copy)]
pub(crate) struct Bar {
    pub(crate) from: u32,
    pub(crate) to: u32,
}

/// Adds the minutes of a bar; to the last bar, if the two touch.
pub(crate) fn add_bar(bars: &mut Vec<Bar>, bar: Bar) -> Result<(), AllocError>
    ensures { OnOk result ((minute : ℕ) → is_covered bars.new.items minute
        ≡ (is_covered bars.old.items minute || covers bar minute)) }
{
    let Some(last) = bars.pop() else {
        bars.push(bar)?;
        return Ok(());
    };
    if last.from <= bar.to && bar.from <= last.to {
        bars.push(Bar {
            from: last.from.min(bar.from),
            to: last.to.max(bar.to),
        })?;
        return Ok(());
    }
    bars.push(last)?;
    bars.push(bar)?;
    Ok(())
}

/// The minutes of the day beginning at `start` that a window holds.
fn bar_on(window: &Window, start: u32) -> Bar
    requires { start ≤ 100_000 }
    ensures { (minute : ℕ) → covers result minute ≡ is_held_on start (window.now ∷ []) minute }
{
    let before = u32::from(MINUTES_OF_DAY) * u32::from(window.day_back);
    let from = u32::from(window.from);
    let to = from + u32::from(window.reach);
    Bar {
        from: start + from.saturating_sub(before),
        to: start + to.saturating_sub(before).min(u32::from(MINUTES_OF_DAY)),
    }
}

/// Adds the minutes of the day beginning at `start` that windows hold.
fn add_windows(bars: &mut Vec<Bar>, windows: &[Window], start: u32) -> Result<(), AllocError>
    requires { start ≤ 100_000 }
    ensures { OnOk result ((minute : ℕ) → is_covered bars.new.items minute
        ≡ (is_covered bars.old.items minute || is_held_on start windows.now minute)) }
{
    for window in windows {
        add_bar(bars, bar_on(window, start))?;
    }
    Ok(())
}

/// The bars of a job on the days of the picture: the minutes that its windows hold, also those that
/// began up to three days before. Windows that touch make one bar.
#[tactic(auto, using(crate::proofs::Shown::next_day), unfolding(crate::specs::Bars::is_held))]
pub(crate) fn bars_of(
    alloc: Global,
    occupied: Occupied<'_>,
    span: DaySpan,
) -> Result<Vec<Bar>, AllocError>
    ensures { IfOk result (λ bars. (minute : ℕ)
        → is_covered bars.items minute ≡ is_held span (job_of occupied.entry) minute) }
{
    let mut bars = Vec::new(alloc);
    for place in 0..span.days() {
        let days = four_days(span.day(place));
        let windows = windows_on(alloc, [occupied].as_slice(), days.as_slice())?;
        let start = u32::from(MINUTES_OF_DAY) * u32::from(place);
        add_windows(&mut bars, windows.as_slice(), start)?;
    }
    Ok(bars)
}

/// Adds a line along a row for each bar; `start` begins the element.
pub(crate) fn push_stretches(text: &mut String, start: &str, bars: &[Bar]) -> Result<(), AllocError>
    ensures { OnOk result (string_bytes text.new ≡ string_bytes text.old
        ++ (start.now ++ (flat_map bar_text bars.now ++ codes "\"/>"))) }
{
    text.push_str(start)?;
    for bar in bars {
        let from = bar.from;
        if from < bar.to {
            let length = bar.to - from;
            write!(text, "M{from} 9h{length}")?;
        }
    }
    text.push_str("\"/>")
}
