//! The max of a job.
ghost use Rattle.std.specs.Prelude.{◌≡◌, ◌<◌, ◌≤◌, ℕ, IfSome, IsNone};
ghost use Rattle.cs_table.specs.SettingReading.{quoted_at};
ghost use Rattle.cs_learn.specs.Max.{factor_in, in_hundredths, hundredths_in, IsMax, IsEnough};

use cs_retrace::LONGEST_MAX;
use cs_retrace::words::{number, split};
use std::marker::Model;

/// What the longest run is multiplied by for a max: from 1 to 10, in hundredths.
#[derive(Clone, Copy)]
pub struct Factor {
    hundredths: u64,
}

impl Model for Factor {
    ghost use Rattle.std.specs.Prelude.{ℕ, ◌≤◌};

    ghost Value = { ℕ };

    ghost view = { λ f. f.hundredths };

    ghost invariant = { λ f. (100 ≤ f.hundredths) × (f.hundredths ≤ 1_000) };

    ghost inverse = { λ n. record { hundredths = n } };
}

#[tactic(auto, unfolding(crate::specs::Max::hundredths_in))]
fn hundredths(text: &[u8]) -> Option<u64>
    ensures value { result ≡ hundredths_in text.now }
    ensures small { IfSome result (λ n. n ≤ 10_000_000_000_000) }
{
    let number = number(text)?;
    match text.len() {
        1 => Some(number * 10),
        2 => Some(number),
        _ => None,
    }
}

fn in_hundredths(text: &[u8]) -> Option<u64>
    ensures { result ≡ in_hundredths text.now (quoted_at 46 text.now) }
{
    match split(b'.', text) {
        None => Some(number(text)? * 100),
        Some((whole, behind)) => Some(number(whole)? * 100 + hundredths(behind)?),
    }
}

impl Factor {
    /// Reads a factor from 1 to 10 with at most two digits after the point, such as `1.5`.
    #[tactic(auto, unfolding(crate::specs::Max::factor_in))]
    pub fn read(text: &[u8]) -> Option<Factor>
        ensures { result ≡ factor_in text.now }
    {
        let hundredths = in_hundredths(text)?;
        if hundredths < 100 || hundredths > 1_000 {
            return None;
        }
        Some(Factor { hundredths })
    }

    /// Returns the factor in hundredths.
    pub fn hundredths(self) -> u64
        ensures value { result ≡ self }
        ensures in_range { (100 ≤ result) × (result ≤ 1_000) }
    {
        self.hundredths
    }
}

/// Returns the max in minutes for a longest run of `longest` seconds, and `since` seconds since a
/// start without an end; none if it is more than [`LONGEST_MAX`](cs_retrace::LONGEST_MAX).
pub fn max_for(longest: u64, since: u64, factor: Factor) -> Option<u64>
    ensures value { IfSome result (IsMax longest since factor) }
    ensures none { IsNone result → (minutes : ℕ) → IsEnough longest since factor minutes
        → LONGEST_MAX < minutes }
{
    let least = longest.max(since) / 60 + 1;
    if least > LONGEST_MAX {
        return None;
    }
    let minutes = (longest * factor.hundredths()).div_ceil(6_000).max(least);
    if minutes > LONGEST_MAX {
        return None;
    }
    Some(minutes)
}
