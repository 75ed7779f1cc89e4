//! Where a range of minutes is cut in two, so that few windows have to be listed on both sides.
use cs_civil::MINUTES_OF_DAY;
use cs_windows::Window;
use std::alloc::{AllocError, Global};

/// How many windows begin to hold minutes of a range at one minute, and how many hold none from it
/// on.
#[derive(Clone, Copy)]
pub(crate) struct Turn {
    begun: u32,
    ended: u32,
}

#[derive(Clone, Copy)]
pub(crate) struct Cut {
    /// How many windows hold minutes on both sides.
    pub(crate) across: u32,
    /// By how many minutes one side is longer than the other.
    uneven: u16,
    pub(crate) at: u16,
}

/// The first minute of `[lo, hi)` that a window holds and the one after the last, counted from
/// `lo`.
fn held_minutes(window: &Window, lo: u16, hi: u16) -> (u32, u32) {
    let day = u32::from(MINUTES_OF_DAY) * u32::from(window.day_back);
    let start = day + u32::from(lo);
    let from = u32::from(window.from);
    let to = from + u32::from(window.reach);
    let length = u32::from(hi.saturating_sub(lo));
    (
        from.saturating_sub(start),
        to.saturating_sub(start).min(length),
    )
}

/// What begins and ends at each minute of `[lo, hi)`, and at `hi`.
pub(crate) fn turns(
    alloc: Global,
    windows: &[Window],
    lo: u16,
    hi: u16,
) -> Result<Vec<Turn>, AllocError> {
    let none = Turn { begun: 0, ended: 0 };
    let mut turns = Vec::from_elem(alloc, none, usize::from(hi.saturating_sub(lo)) + 1)?;
    for window in windows {
        let (from, to) = held_minutes(window, lo, hi);
        if let Some(turn) = turns.get_mut(from as usize) {
            turn.begun = turn.begun.saturating_add(1);
        }
        if let Some(turn) = turns.get_mut(to as usize) {
            turn.ended = turn.ended.saturating_add(1);
        }
    }
    Ok(turns)
}

/// The most windows that hold one minute.
pub(crate) fn most_at_once(turns: &[Turn]) -> u32 {
    let mut held: u32 = 0;
    let mut most = 0;
    for turn in turns {
        held = held.saturating_sub(turn.ended).saturating_add(turn.begun);
        most = held.max(most);
    }
    most
}

/// The cut of `[lo, hi)` in its middle third with the fewest windows across, and of several the one
/// nearest to the middle. Neither side is empty.
pub(crate) fn best_cut(turns: &[Turn], lo: u16, hi: u16) -> Option<Cut> {
    let third = (hi.saturating_sub(lo) / 3).max(1);
    let mut held: u32 = 0;
    let mut best: Option<Cut> = None;
    for (at, turn) in (lo..hi).zip(turns) {
        let across = held.saturating_sub(turn.ended);
        let before = at.saturating_sub(lo);
        let after = hi.saturating_sub(at);
        let uneven = before.abs_diff(after);
        let is_better = match best {
            Some(cut) if across == cut.across => uneven < cut.uneven,
            Some(cut) => across < cut.across,
            None => true,
        };
        if before >= third && after >= third && is_better {
            best = Some(Cut { across, uneven, at });
        }
        held = across.saturating_add(turn.begun);
    }
    best
}
