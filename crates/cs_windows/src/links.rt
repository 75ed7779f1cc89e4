ghost use Rattle.std.specs.Prelude.{◌≡◌, ◌==◌, ◌&&◌, ℕ, ◌+◌, ◌<◌, ◌≤◌, ◌∷◌, Bool, ◌++◌, List, OnOk, if◌then◌else◌, slice_index};
ghost use Rattle.cs_schedule.specs.Numbers.{has_bit};
ghost use Rattle.cs_windows.specs.Links.{AreLinked, with_own};
ghost use Rattle.cs_windows.specs.Window.{reaches};

use crate::window::{Window, reaches};
use cs_civil::MINUTES_OF_DAY;
use cs_schedule::MINUTES_OF_BLOCK;
use std::alloc::AllocError;

pub(crate) const MINUTES: usize = MINUTES_OF_DAY as usize;

/// A window, and which link has the next that begins at its minute: they are counted from 1, and
/// it is 0 at the last.
#[derive(Clone, Copy)]
pub(crate) struct Link {
    window: Window,
    next: usize,
}

/// Puts the window before those that begin at its minute, if it reaches the day looked at.
fn put_first(
    links: &mut Vec<Link>,
    firsts: &mut [usize; MINUTES],
    window: Window,
) -> Result<(), AllocError>
    requires { window.from < MINUTES_OF_DAY }
    ensures { OnOk result ((minute : ℕ) → (ws : List Window)
        → AreLinked links.old.items (slice_index firsts.old minute) ws
        → AreLinked links.new.items (slice_index firsts.new minute)
        (if minute == window.from && reaches window then window ∷ ws else ws)) }
{
    if reaches(&window) {
        let first = &mut firsts[window.from as usize];
        links.push(Link {
            window,
            next: *first,
        })?;
        *first = links.len();
    }
    Ok(())
}

/// Puts the windows of one job in a block of minutes, of which the given one would be the first,
/// before the others. Each start is a bit, the lowest for the first minute.
pub(crate) fn link_block(
    links: &mut Vec<Link>,
    firsts: &mut [usize; MINUTES],
    first: Window,
    starts: u32,
) -> Result<(), AllocError>
    requires { first.from + MINUTES_OF_BLOCK ≤ MINUTES_OF_DAY }
    ensures { OnOk result ((begins : ℕ → Bool) (minute : ℕ) (ws : List Window)
        → ((place : ℕ) → place < MINUTES_OF_BLOCK
        → has_bit starts place ≡ begins (first.from + place))
        → AreLinked links.old.items (slice_index firsts.old minute)
        (with_own begins first first.from minute ws)
        → AreLinked links.new.items (slice_index firsts.new minute)
        (with_own begins first (first.from + MINUTES_OF_BLOCK) minute ws)) }
{
    let mut place: u32 = 0;
    while place < 32 {
        let next = place + (starts >> place).trailing_zeros();
        if next >= 32 {
            return Ok(());
        }
        let mut window = first;
        window.from += next as u16;
        put_first(links, firsts, window)?;
        place = next + 1;
    }
    Ok(())
}

/// Adds the windows from this link on.
pub(crate) fn add_linked(
    windows: &mut Vec<Window>,
    links: &[Link],
    first: usize,
) -> Result<(), AllocError>
    requires { (ws : List Window) × AreLinked links.now first ws }
    ensures { OnOk result ((ws : List Window) → AreLinked links.now first ws
        → windows.new.items ≡ windows.old.items ++ ws) }
{
    let mut next = first;
    while next > 0 {
        let link = links[next - 1];
        windows.push(link.window)?;
        next = link.next;
    }
    Ok(())
}
