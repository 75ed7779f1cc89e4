//! When a line was written, as syslog, RFC 3339 and `journalctl -o short-iso` write it.
ghost use Rattle.std.specs.Prelude.{◌≤◌, IfSome};

use crate::moment::Moment;
use crate::words::{behind, is_word, number, split};
use cs_civil::read_day;
use cs_table::text::digits;

const DAY: u64 = 86_400;

/// The seconds from 1970-01-01 00:00 to a time `10:17:01` of a day `2024-09-13`. A minute may have
/// a 61st second, the leap second.
fn seconds(date: &[u8], clock: &[u8]) -> Option<u64>
    ensures { IfSome result (λ seconds. seconds ≤ 1_000_000_000_000) }
{
    let &[h1, h2, b':', m1, m2, b':', s1, s2] = clock else {
        return None;
    };
    let day = read_day(date).ok()?;
    let (hour, minute, second) = (number(&[h1, h2])?, number(&[m1, m2])?, number(&[s1, s2])?);
    if hour > 23 || minute > 59 || second > 60 {
        return None;
    }
    Some(day.number() * DAY + hour * 3600 + minute * 60 + second)
}

fn month(name: &[u8]) -> Option<[u8; 2]> {
    match name {
        _ if is_word(name, b"Jan") => Some([b'0', b'1']),
        _ if is_word(name, b"Feb") => Some([b'0', b'2']),
        _ if is_word(name, b"Mar") => Some([b'0', b'3']),
        _ if is_word(name, b"Apr") => Some([b'0', b'4']),
        _ if is_word(name, b"May") => Some([b'0', b'5']),
        _ if is_word(name, b"Jun") => Some([b'0', b'6']),
        _ if is_word(name, b"Jul") => Some([b'0', b'7']),
        _ if is_word(name, b"Aug") => Some([b'0', b'8']),
        _ if is_word(name, b"Sep") => Some([b'0', b'9']),
        _ if is_word(name, b"Oct") => Some([b'1', b'0']),
        _ if is_word(name, b"Nov") => Some([b'1', b'1']),
        _ if is_word(name, b"Dec") => Some([b'1', b'2']),
        _ => None,
    }
}

/// Returns the moment at the front, such as `Nov  7 10:17:01`, and what follows the blank after it.
/// The year is 2000, which has a 29 February.
pub fn moment_of_year(text: &[u8]) -> Option<(Moment, &[u8])> {
    let (name, rest) = split(b' ', text)?;
    let [tens, ones, b' ', rest @ ..] = rest else {
        return None;
    };
    let (clock, rest) = split(b' ', rest)?;
    let tens = if *tens == b' ' { b'0' } else { *tens };
    let [m1, m2] = month(name)?;
    let date = [b'2', b'0', b'0', b'0', b'-', m1, m2, b'-', tens, *ones];
    Some((Moment::OfYear(seconds(&date, clock)?), rest))
}

/// The seconds by UTC, of those by a clock with an offset such as `Z`, `+02:00` or `+0200`.
fn by_utc(local: u64, zone: &[u8]) -> Option<u64> {
    let (sign, hours, minutes) = match zone {
        &[b'Z'] => return Some(local),
        &[sign, h1, h2, b':', m1, m2] => (sign, [h1, h2], [m1, m2]),
        &[sign, h1, h2, m1, m2] => (sign, [h1, h2], [m1, m2]),
        _ => return None,
    };
    let (hours, minutes) = (number(&hours)?, number(&minutes)?);
    if hours > 23 || minutes > 59 {
        return None;
    }
    let offset = hours * 3600 + minutes * 60;
    match sign {
        b'+' => Some(local.saturating_sub(offset)),
        b'-' => Some(local.saturating_add(offset)),
        _ => None,
    }
}

/// The moment of a stamp such as `2024-09-13T23:30:01.123456+02:00`.
fn universal(text: &[u8]) -> Option<Moment> {
    let (date, rest) = split(b'T', text)?;
    let (clock, rest) = rest.split_at_checked(8)?;
    let local = seconds(date, clock)?;
    let zone = match behind(b".", rest) {
        Some(fraction) => digits(fraction).1,
        None => rest,
    };
    Some(Moment::Universal(by_utc(local, zone)?))
}

/// Returns the moment at the front, and what follows the blank after it.
pub fn time_and_rest(text: &[u8]) -> Option<(Moment, &[u8])> {
    let (stamp, rest) = split(b' ', text)?;
    Some((universal(stamp)?, rest))
}
