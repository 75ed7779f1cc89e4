ghost use Rattle.std.specs.Prelude.{◌≡◌, ℕ, ◌+◌, ◌*◌, ◌≤◌, ◌<◌, ◌↔◌, IsTrue};
ghost use Rattle.cs_windows.specs.Window.{reaches, touches, Holds};

use cs_civil::MINUTES_OF_DAY;

/// The minutes in which one run of a job may go on: `[from, from + reach)` of the day `day_back`
/// days before the day looked at. It may hold minutes of several days.
///
/// It takes eight bytes: a stretch of a table of 256 lines may have a million of them.
#[derive(Clone, Copy, PartialEq, Eq, Hash)]
pub struct Window {
    /// The job's index in the list that the window was made from.
    pub job: u16,
    /// How many days before the day looked at it begins.
    pub day_back: u8,
    /// The minute of that day at which it begins, from 0.
    pub from: u16,
    /// Its length in minutes. A window of reach 0 holds no minute.
    pub reach: u16,
}

pub(crate) fn reaches(window: &Window) -> bool
    ensures { result ≡ reaches window.now }
{
    0 < window.reach && first_minute(window.day_back) < end(window)
}

/// Checks whether the window holds a minute of `[lo, hi)` of the day looked at, in minutes of that
/// day. An empty range has no minute, nor has a window of reach 0.
pub fn touches(window: &Window, lo: u16, hi: u16) -> bool
    ensures value { result ≡ touches window.now lo hi }
    ensures held { IsTrue result
        ↔ ((minute : ℕ) × (lo ≤ minute) × (minute < hi) × Holds window.now minute) }
{
    let day = first_minute(window.day_back);
    let first = (u32::from(lo) + day).max(u32::from(window.from));
    first < (u32::from(hi) + day).min(end(window))
}

pub(crate) fn first_minute(day_back: u8) -> u32
    ensures { result ≡ MINUTES_OF_DAY * day_back }
{
    u32::from(MINUTES_OF_DAY) * u32::from(day_back)
}

fn end(window: &Window) -> u32
    ensures { result ≡ window.now.from + window.now.reach }
{
    u32::from(window.from) + u32::from(window.reach)
}

pub(crate) fn may_reach(day_back: u8, reach: u16) -> bool
    ensures { IsTrue result
        ↔ ((0 < reach) × (MINUTES_OF_DAY * day_back + 1 < MINUTES_OF_DAY + reach)) }
{
    0 < reach && first_minute(day_back) + 1 < u32::from(MINUTES_OF_DAY) + u32::from(reach)
}
