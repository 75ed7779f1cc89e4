//! Durations of timeout(1): a number and a unit.
ghost use Rattle.std.specs.Prelude.{◌≡◌, ◌≤◌, ◌*◌, ◌+◌, ◌^◌, IfSome, drop, if◌then◌else◌, min};
ghost use Rattle.std.specs.Int.{div_ceil};
ghost use Rattle.cs_table.specs.Text.{begins_with};
ghost use Rattle.cs_command.specs.Timeouts.{MOST, seconds_of, unit_of};

use cs_table::text::digits;

/// More than eleven days, in seconds: longer durations count as this.
const MOST: u64 = 1_000_000;

#[tactic(auto, unfolding(crate::specs::Timeouts::unit_of))]
fn unit_of(suffix: &[u8]) -> Option<u32>
    ensures unit { result ≡ unit_of suffix.now }
    ensures small { IfSome result (λ unit. unit ≤ 86_400) }
{
    match suffix {
        b"" | b"s" => Some(1),
        b"m" => Some(60),
        b"h" => Some(3_600),
        b"d" => Some(86_400),
        _ => None,
    }
}

fn behind_point(text: &[u8]) -> &[u8]
    ensures { result.now ≡ drop (if begins_with 46 text.now then 1 else 0) text.now }
{
    match text {
        [b'.', behind @ ..] => behind,
        _ => text,
    }
}

fn power_of_ten(exponent: usize) -> u64
    requires { exponent ≤ 6 }
    ensures power { result ≡ 10 ^ exponent }
    ensures positive { 1 ≤ result }
{
    match exponent {
        0 => 1,
        1 => 10,
        2 => 100,
        3 => 1_000,
        4 => 10_000,
        5 => 100_000,
        _ => 1_000_000,
    }
}

/// The seconds of a number of units, rounded up; `count` is the number of decimals.
fn seconds_in(whole: u32, decimals: u32, count: usize, unit: u32) -> u32
    requires whole { whole ≤ MOST }
    requires decimals { decimals ≤ MOST }
    requires count { count ≤ 6 }
    requires unit { unit ≤ 86_400 }
    ensures { result
        ≡ min MOST (whole * unit + div_ceil (decimals * unit) (10 ^ count)) }
{
    let whole = u64::from(whole) * u64::from(unit);
    let decimals = u64::from(decimals) * u64::from(unit);
    (whole + decimals.div_ceil(power_of_ten(count))).min(MOST) as u32
}

#[tactic(auto, unfolding(crate::specs::Timeouts::seconds_of, cs_table::specs::Text::front))]
pub(crate) fn seconds_of(word: &[u8]) -> Option<u32>
    ensures { result ≡ seconds_of word.now }
{
    let [first, ..] = word else {
        return None;
    };
    if !first.is_ascii_digit() {
        return None;
    }
    let (whole, rest) = digits(word);
    let behind = behind_point(rest);
    let (decimals, suffix) = digits(behind);
    let count = behind.len() - suffix.len();
    if count > 6 {
        return None;
    }
    let unit = unit_of(suffix)?;
    Some(seconds_in(whole, decimals, count, unit))
}
