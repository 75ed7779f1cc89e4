ghost use Rattle.std.specs.Prelude.{◌≡◌, ◌≢◌, ◌<◌, ◌≤◌, Err, ◌↔◌, ◌∷◌, [], ℕ, pos, ◌+ℤ◌, ◌*ℤ◌, ◌++◌, decimal, OnOk, IfOk, IfErr, IsOk, IfSome, IsNone, IsSome};
ghost use Rattle.std.specs.Int.{int_div_euclid};
ghost use Rattle.jiff_core.specs.Calendar.{IsBetween};
ghost use Rattle.cs_civil.specs.Calendar.{first_minute, last_minute, last_day};
ghost use Rattle.cs_civil.specs.Text.{minute_bytes, minute_text, day_text, IsDateText, IsMinuteText, IsGregorian};

use crate::date::Gregorian;
use crate::digits::{read_two, write_two};
use crate::minute::MINUTES_OF_DAY;
use crate::{CivilFault, Day, Minute};
use std::alloc::{AllocError, Global};

/// Returns the civil minute of a moment in seconds since 1970-01-01 00:00 UTC, rounded down;
/// `offset` is the minutes by which the clock is ahead of UTC.
/// [`OutOfRange`](CivilFault::OutOfRange) before [`FIRST_MINUTE`](crate::FIRST_MINUTE) and after
/// [`LAST_MINUTE`](crate::LAST_MINUTE) (this profile).
pub fn minute_at(unix_seconds: i64, offset: i16) -> Result<Minute, CivilFault>
    ensures in_range { IsOk result
        ↔ IsBetween (pos first_minute) (pos last_minute)
        (int_div_euclid (unix_seconds +ℤ pos 60 *ℤ offset) (pos 60)) }
    ensures value { IfOk result
        (λ minute. pos minute ≡ int_div_euclid (unix_seconds +ℤ pos 60 *ℤ offset) (pos 60)) }
    ensures err { IfErr result (λ e. e ≡ CivilFault.OutOfRange) }
{
    minute_from(minutes_at(unix_seconds, offset)).ok_or(CivilFault::OutOfRange)
}

/// Formats a minute as `YYYY-MM-DD HH:MM`, on a 24-hour clock (this profile).
pub fn date_text(minute: Minute) -> [u8; 16]
    ensures { result ≡ minute_text minute }
{
    let date = Gregorian::of_day(minute.day());
    let clock = minute.minute_of_day();
    let [y1, y2, y3, y4, s1, m1, m2, s2, d1, d2] = date.bytes();
    let [h1, h2] = write_two((clock / 60) as u8);
    let [n1, n2] = write_two((clock % 60) as u8);
    [
        y1, y2, y3, y4, s1, m1, m2, s2, d1, d2, b' ', h1, h2, b':', n1, n2,
    ]
}

/// Formats a day as `YYYY-MM-DD`.
pub fn day_text(day: Day) -> [u8; 10]
    ensures { result ≡ day_text day }
{
    Gregorian::of_day(day).bytes()
}

/// Adds a number in decimal digits.
pub fn push_number(alloc: Global, text: &mut Vec<u8>, number: u128) -> Result<(), AllocError>
    ensures { OnOk result (text.new.items ≡ text.old.items ++ decimal number) }
{
    text.extend_from_slice(number.to_string(alloc)?.as_bytes())
}

/// Reads a day, `YYYY-MM-DD` (this profile).
///
/// [`NotADate`](CivilFault::NotADate) for any other text, and for a date that the Gregorian
/// calendar of the years 0000 to 9999 doesn't have; [`OutOfRange`](CivilFault::OutOfRange) before
/// 1970-01-02.
#[tactic(auto, using(crate::proofs::Texts::no_day, crate::proofs::Texts::one_day))]
pub fn read_day(text: &[u8]) -> Result<Day, CivilFault>
    ensures ok { IfOk result (λ day. (1 ≤ day) × (day ≤ last_day) × (text.now ≡ day_text day)) }
    ensures only { IfOk result (λ day. (n : ℕ) → text.now ≡ day_text n → n ≡ day) }
    ensures is_date { IsOk result → IsDateText text.now }
    ensures not_a_date { (result ≡ Err CivilFault.NotADate) ↔ ¬ (IsDateText text.now) }
    ensures out_of_range { (result ≡ Err CivilFault.OutOfRange)
        ↔ (IsDateText text.now × ((n : ℕ) → 1 ≤ n → n ≤ last_day → text.now ≢ day_text n)) }
{
    let Some(date) = Gregorian::read(text) else {
        return Err(CivilFault::NotADate);
    };
    match date.later_day() {
        Some(day) => Ok(day),
        None => Err(CivilFault::OutOfRange),
    }
}

/// Reads a minute, `YYYY-MM-DD HH:MM` from 00:00 to 23:59 (this profile). The faults are those of
/// [`read_day`].
#[tactic(auto, using(crate::proofs::Texts::one_minute))]
pub fn read_minute(text: &[u8]) -> Result<Minute, CivilFault>
    ensures ok { IfOk result
        (λ minute. (first_minute ≤ minute) × (minute ≤ last_minute)
        × (text.now ≡ minute_text minute)) }
    ensures only { IfOk result (λ minute. (t : ℕ) → text.now ≡ minute_text t → t ≡ minute) }
    ensures is_minute { IsOk result → IsMinuteText text.now }
    ensures not_a_date { (result ≡ Err CivilFault.NotADate) ↔ ¬ (IsMinuteText text.now) }
    ensures out_of_range { (result ≡ Err CivilFault.OutOfRange)
        ↔ (IsMinuteText text.now
        × ((t : ℕ) → first_minute ≤ t → t ≤ last_minute → text.now ≢ minute_text t)) }
{
    let Some((date, clock)) = read_date_and_clock(text) else {
        return Err(CivilFault::NotADate);
    };
    match later_minute(date, clock) {
        Some(minute) => Ok(minute),
        None => Err(CivilFault::OutOfRange),
    }
}

/// `None` before 1970-01-02.
#[tactic(auto, using(crate::proofs::Texts::no_minute, crate::proofs::Texts::the_minute))]
fn later_minute(date: Gregorian, clock: u16) -> Option<Minute>
    requires { clock ≤ 1_439 }
    ensures value { IfSome result
        (λ t. (first_minute ≤ t) × (t ≤ last_minute) × (minute_bytes date clock ≡ minute_text t)) }
    ensures none { IsNone result → (t : ℕ) → first_minute ≤ t
        → minute_bytes date clock ≢ minute_text t }
{
    let day = date.later_day()?;
    Some(Minute::new(day.number() * u64::from(MINUTES_OF_DAY) + u64::from(clock)).unwrap())
}

fn read_date_and_clock(text: &[u8]) -> Option<(Gregorian, u16)>
    ensures value { IfSome result
        (λ p. IsGregorian p.0 × (p.1 ≤ 1_439) × (text.now ≡ minute_bytes p.0 p.1)) }
    ensures none { IsNone result → ¬ (IsMinuteText text.now) }
{
    let (day, clock) = text.split_at_checked(10)?;
    let &[b' ', h1, h2, b':', m1, m2] = clock else {
        return None;
    };
    let hour = read_two(h1, h2)?;
    let minute = read_two(m1, m2)?;
    if hour > 23 || minute > 59 {
        return None;
    }
    Some((
        Gregorian::read(day)?,
        u16::from(hour) * 60 + u16::from(minute),
    ))
}

/// Minutes since 1970-01-01 00:00 at the offset, rounded down.
fn minutes_at(unix_seconds: i64, offset: i16) -> i64
    ensures { result ≡ int_div_euclid (unix_seconds +ℤ pos 60 *ℤ offset) (pos 60) }
{
    unix_seconds.div_euclid(60) + i64::from(offset)
}

fn minute_from(minutes: i64) -> Option<Minute>
    ensures in_range { IsSome result ↔ IsBetween (pos first_minute) (pos last_minute) minutes }
    ensures value { IfSome result (λ minute. pos minute ≡ minutes) }
{
    Minute::new(u64::try_from(minutes).ok()?)
}
