//! The beginning of a run, as a text.
use cs_civil::{Day, Gregorian, Minute, date_text};
use cs_retrace::Moment;
use std::alloc::AllocError;

const MONTHS: [&str; 12] = [
    "Jan", "Feb", "Mar", "Apr", "May", "Jun", "Jul", "Aug", "Sep", "Oct", "Nov", "Dec",
];

fn month_name(day: Day) -> &'static str {
    let months = MONTHS;
    let month = usize::from(Gregorian::of_day(day).month()).saturating_sub(1);
    match months.as_slice().get(month) {
        Some(name) => *name,
        None => "",
    }
}

/// Adds a moment as logs write it: `Nov  7 09:17:01`, or `2024-09-13 23:30:01 UTC` if the log has
/// the year.
pub(crate) fn push_moment(text: &mut Vec<u8>, at: Moment) -> Result<(), AllocError> {
    let (seconds, is_universal) = match at {
        Moment::OfYear(seconds) => (seconds, false),
        Moment::Universal(seconds) => (seconds, true),
    };
    let Some(minute) = Minute::new(seconds / 60) else {
        return Ok(());
    };
    let date = date_text(minute);
    if is_universal {
        text.extend_from_slice(&date)?;
    } else {
        let tens = if date[8] == b'0' { b' ' } else { date[8] };
        text.extend_from_slice(month_name(minute.day()).as_bytes())?;
        text.extend_from_slice(&[b' ', tens])?;
        text.extend_from_slice(&date[9..])?;
    }
    let second = (seconds % 60) as u8;
    text.extend_from_slice(&[b':', b'0' + second / 10, b'0' + second % 10])?;
    text.extend_from_slice(if is_universal {
        b" UTC".as_slice()
    } else {
        b""
    })
}
