//! Bars and due minutes as a picture can show them.
ghost use Rattle.std.specs.Prelude.{◌≡◌, ◌||◌, ℕ, Bool, true, All, IfOk, OnOk};
ghost use Rattle.cs_chart.specs.Bars.{AreBarsOf, IsBarOf, covers, is_covered};

use crate::bar::Bar;
use crate::span::DaySpan;
use cs_civil::{MINUTES_OF_DAY, kind_of};
use cs_schedule::{MinuteSet, Schedule};
use cs_zone::Zone;
use std::alloc::{AllocError, Global};

/// Bars or marks as they are drawn.
#[derive(Drop)]
pub(crate) struct Drawn {
    pub(crate) bars: Vec<Bar>,
    /// Whether some were nearer than the picture can show, and are drawn as one.
    pub(crate) is_coarse: bool,
}

impl Drawn {
    /// Adds a bar; to the last one, if it begins no sooner and fewer than `gap` minutes are between
    /// both.
    fn push(&mut self, bar: Bar, gap: u32) -> Result<(), AllocError>
        ensures whole { OnOk result ((minute : ℕ)
            → (is_covered self.old.bars.items minute || covers bar minute) ≡ true
            → is_covered self.new.bars.items minute ≡ true) }
        ensures each { OnOk result ((held : ℕ → Bool) → All (IsBarOf held gap) self.old.bars.items
            → IsBarOf held gap bar → All (IsBarOf held gap) self.new.bars.items) }
    {
        let Some(last) = self.bars.pop() else {
            self.bars.push(bar)?;
            return Ok(());
        };
        if last.from <= bar.from && bar.from < last.to.saturating_add(gap) {
            self.is_coarse = true;
            self.bars.push(Bar {
                from: last.from,
                to: last.to.max(bar.to),
            })?;
            return Ok(());
        }
        self.bars.push(last)?;
        self.bars.push(bar)?;
        Ok(())
    }

    /// Adds the due minutes of the day that begins at this minute of the picture.
    fn push_day(&mut self, due: &MinuteSet, start: u32, gap: u32) -> Result<(), AllocError> {
        for minute in due.iter() {
            let at = start.saturating_add(u32::from(minute));
            self.push(Bar { from: at, to: at }, gap)?;
        }
        Ok(())
    }
}

/// The bars, joined over gaps of fewer than so many minutes.
pub(crate) fn without_gaps(alloc: Global, bars: &[Bar], gap: u32) -> Result<Drawn, AllocError>
    ensures { IfOk result (λ drawn. AreBarsOf (is_covered bars.now) gap drawn.bars.items) }
{
    let mut drawn = Drawn {
        bars: Vec::new(alloc),
        is_coarse: false,
    };
    for bar in bars {
        if bar.from < bar.to {
            drawn.push(*bar, gap)?;
        }
    }
    Ok(drawn)
}

/// The due minutes of a schedule on the days of the picture: a bar from a minute to itself, or to
/// the last of several, if each is less than `gap` minutes after the one before.
pub(crate) fn marks_of(
    alloc: Global,
    schedule: &Schedule,
    zone: Zone,
    span: DaySpan,
    gap: u32,
) -> Result<Drawn, AllocError> {
    let mut drawn = Drawn {
        bars: Vec::new(alloc),
        is_coarse: false,
    };
    for place in 0..span.days() {
        let due = zone.minutes_of(schedule, kind_of(span.day(place)));
        let start = u32::from(MINUTES_OF_DAY) * u32::from(place);
        drawn.push_day(&due, start, gap)?;
    }
    Ok(drawn)
}
