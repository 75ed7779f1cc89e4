ghost use Rattle.std.specs.Prelude.{◌≡◌, ◌++◌, ◌<◌, ◌≤◌, ◌/◌, ◌↔◌, OnOk, IfSome, IsSome};
ghost use Rattle.cs_civil.specs.Calendar.{last_day};
ghost use Rattle.cs_civil.specs.Text.{two_digits};
ghost use Rattle.std.specs.Prelude.{ℕ, List};
ghost use Rattle.cs_machine.specs.RunLog.{moment_text, time_text, span_text, line_text};
ghost use Rattle.cs_machine.specs.RunLog.{Follows, peers_text};

use crate::setup::{JobNote, peers_of};
use cs_civil::{Day, day_text, push_number};
use cs_place::push_shown;
use std::alloc::{AllocError, Global};

fn two_digits(number: u64) -> [u8; 2]
    requires { number < 100 }
    ensures { result ≡ two_digits number }
{
    [b'0' + (number / 10) as u8, b'0' + (number % 10) as u8]
}

/// Of seconds since 1970-01-01 00:00 UTC; none after the year 9999.
pub(crate) fn moment_text(seconds: u64) -> Option<[u8; 20]>
    ensures dated { IsSome result ↔ (seconds / 86_400 ≤ last_day) }
    ensures text { IfSome result (λ text. text ≡ moment_text seconds) }
{
    let [y1, y2, y3, y4, s1, m1, m2, s2, d1, d2] = day_text(Day::new(seconds / 86_400)?);
    let [h1, h2] = two_digits(seconds / 3_600 % 24);
    let [n1, n2] = two_digits(seconds / 60 % 60);
    let [c1, c2] = two_digits(seconds % 60);
    Some([
        y1, y2, y3, y4, s1, m1, m2, s2, d1, d2, b'T', h1, h2, b':', n1, n2, b':', c1, c2, b'Z',
    ])
}

fn push_time(text: &mut Vec<u8>, at: Option<u64>) -> Result<(), AllocError>
    ensures { OnOk result (text.new.items ≡ text.old.items ++ time_text at) }
{
    let Some(seconds) = at else {
        return Ok(());
    };
    let Some(moment) = moment_text(seconds) else {
        return Ok(());
    };
    text.extend_from_slice(&moment)?;
    text.extend_from_slice(b" ")
}

fn push_span(alloc: Global, text: &mut Vec<u8>, span: Option<u64>) -> Result<(), AllocError>
    ensures { OnOk result (text.new.items ≡ text.old.items ++ span_text span) }
{
    let Some(seconds) = span else {
        return Ok(());
    };
    text.extend_from_slice(b" after ")?;
    push_number(alloc, text, u128::from(seconds))?;
    text.extend_from_slice(b" s")
}

/// The time is in seconds since 1970-01-01 00:00 UTC.
pub(crate) fn push_line(
    alloc: Global,
    text: &mut Vec<u8>,
    at: Option<u64>,
    words: &[u8],
    span: Option<u64>,
) -> Result<(), AllocError>
    ensures { OnOk result (text.new.items ≡ text.old.items ++ line_text at words.now span) }
{
    push_time(text, at)?;
    push_shown(text, words)?;
    push_span(alloc, text, span)?;
    text.extend_from_slice(b"\n")
}

fn push_peers(
    alloc: Global,
    text: &mut Vec<u8>,
    at: Option<u64>,
    run: &[u8],
    peers: &[u8],
) -> Result<(), AllocError>
    ensures { OnOk result (text.new.items ≡ text.old.items ++ peers_text at run.now peers.now) }
{
    if peers.is_empty() {
        return Ok(());
    }
    let mut words = Vec::from_slice(alloc, run)?;
    words.extend_from_slice(b" may meet ")?;
    words.extend_from_slice(peers)?;
    push_line(alloc, text, at, words.as_slice(), None)
}

/// For a late run only.
pub(crate) fn push_meeting(
    alloc: Global,
    text: &mut Vec<u8>,
    at: Option<u64>,
    words: &[u8],
    jobs: &[JobNote],
) -> Result<(), AllocError>
    ensures { OnOk result ((meeting : List ℕ) × Follows at words.now jobs.now meeting
        × (text.new.items ≡ text.old.items ++ meeting)) }
{
    match words.strip_prefix(b"overrun ") {
        Some(run) => push_peers(alloc, text, at, run, peers_of(jobs, run)),
        None => Ok(()),
    }
}
