//! The first day on which jobs may meet.
use cs_civil::{CivilFault, Day, read_day};

/// The first day that may be asked for, 1970-01-04: windows may begin three days before it.
const FIRST_DAY: u64 = 3;

/// The words' day, else this one.
pub(crate) fn first_day(since: Option<&str>, today: Day) -> Result<Day, CivilFault> {
    let Some(text) = since else {
        return Ok(today);
    };
    let day = read_day(text.as_bytes())?;
    if day.number() < FIRST_DAY {
        return Err(CivilFault::OutOfRange);
    }
    Ok(day)
}
