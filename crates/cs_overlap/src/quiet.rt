//! What a quick test of the windows of one stretch finds.
ghost use Rattle.std.specs.Prelude.{◌≡◌, ◌*◌, ◌≤◌, ◌&&◌};

use cs_civil::MINUTES_OF_DAY;
use cs_windows::Window;

/// The rules that a quick test finds kept by the windows of a stretch. For any other rule its
/// finder decides whether there is a fault.
#[derive(Clone, Copy, PartialEq, Eq)]
pub struct Quiet {
    /// No two windows overlap that may not.
    pub is_apart: bool,
    /// No minute weighs more than the capacity.
    pub is_within: bool,
    /// No due skip job finds its lock held.
    pub is_free: bool,
}

impl Quiet {
    /// Checks whether all three rules are kept.
    pub fn by_all(self) -> bool
        ensures { result ≡ (self.is_apart && (self.is_within && self.is_free)) }
    {
        self.is_apart && self.is_within && self.is_free
    }
}

/// The start of the last day, in minutes from the start of the day on which the window begins.
pub(crate) fn day_start(window: &Window) -> u32
    ensures value { result ≡ 1440 * window.now.day_back }
    ensures small { result ≤ 367200 }
{
    u32::from(MINUTES_OF_DAY) * u32::from(window.day_back)
}
