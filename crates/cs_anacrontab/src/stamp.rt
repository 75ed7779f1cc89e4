ghost use Rattle.std.specs.Prelude.{◌≡◌, ◌≢◌, ◌≤◌, ◌↔◌, ℕ, IsSome, IfSome, IsNone};
ghost use Rattle.cs_civil.specs.Calendar.{CivilDate, date_of, last_day};
ghost use Rattle.cs_civil.specs.Text.{date_bytes};
ghost use Rattle.cs_anacrontab.specs.Stamp.{date_digits, stamp_text, HasDigits, IsStampText};

use cs_civil::{Day, Gregorian, day_text};

/// Formats a stamp file: the date as `YYYYMMDD`, and a newline (anacron(8)).
pub fn stamp_text(day: Day) -> [u8; 9]
    ensures { result ≡ stamp_text day }
{
    let [y1, y2, y3, y4, _, m1, m2, _, d1, d2] = day_text(day);
    [y1, y2, y3, y4, m1, m2, d1, d2, b'\n']
}

/// Reads the day in a stamp file, `YYYYMMDD` with or without a newline (anacron(8)).
///
/// `None` for any other text, and for a date before 1970-01-01 or not in the Gregorian calendar.
pub fn read_stamp(text: &[u8]) -> Option<Day>
    ensures possible { IsSome result ↔ ((n : ℕ) × (n ≤ last_day) × IsStampText text.now n) }
    ensures value { IfSome result (λ day. IsStampText text.now day) }
    ensures only { IfSome result (λ day. (n : ℕ) → IsStampText text.now n → n ≡ day) }
{
    read_date(date_part(text))
}

fn date_part(text: &[u8]) -> &[u8]
    ensures { (d : CivilDate) → (result.now ≡ date_digits d) ↔ HasDigits text.now d }
{
    match text {
        [date @ .., b'\n'] => date,
        [] | [.., _] => text,
    }
}

#[tactic(auto, using(crate::proofs::Stamps::no_such_date))]
fn read_date(text: &[u8]) -> Option<Day>
    ensures value { IfSome result (λ n. (n ≤ last_day) × (text.now ≡ date_digits (date_of n))) }
    ensures none { IsNone result → (n : ℕ) → n ≤ last_day → text.now ≢ date_digits (date_of n) }
{
    Gregorian::read(&with_hyphens(text)?)?.day()
}

/// `None` if the text has another length than `YYYYMMDD`.
fn with_hyphens(text: &[u8]) -> Option<[u8; 10]>
    ensures same { IfSome result
        (λ hyphened. (d : CivilDate) → (hyphened ≡ date_bytes d) ↔ (text.now ≡ date_digits d)) }
    ensures none { IsNone result → (d : CivilDate) → text.now ≢ date_digits d }
{
    let &[y1, y2, y3, y4, m1, m2, d1, d2] = text else {
        return None;
    };
    Some([y1, y2, y3, y4, b'-', m1, m2, b'-', d1, d2])
}
