//! The minute from which starts are counted.

ghost use Rattle.std.specs.Prelude.{◌≡◌, IfOk};

use cs_civil::{CivilFault, Minute, read_minute};
use cs_files::{Response, Status};
use std::alloc::{AllocError, Global};

const HINT: &[u8] = b"\ncronsafe: a date-time is YYYY-MM-DDTHH:MM, from 1970-01-02T00:00 to \
    9999-12-31T23:59, as $(date +%FT%R) prints it";

/// Reads a minute, `YYYY-MM-DDTHH:MM`.
pub(crate) fn read_from(text: &str) -> Result<Minute, CivilFault> {
    let Some((date, clock)) = text.split_once('T') else {
        return Err(CivilFault::NotADate);
    };
    let (date, clock) = (date.as_bytes(), clock.as_bytes());
    if date.len() != 10 || clock.len() != 5 {
        return Err(CivilFault::NotADate);
    }
    let mut spaced = [b' '; 16];
    spaced[..10].copy_from_slice(date);
    spaced[11..].copy_from_slice(clock);
    read_minute(spaced.as_slice())
}

/// The answer where the text is no minute.
pub(crate) fn refuse_from(alloc: Global, fault: CivilFault) -> Result<Response, AllocError>
    ensures { IfOk result (λ r. r.status ≡ 3) }
{
    let mut text = Vec::from_slice(alloc, b"date-time: ".as_slice())?;
    text.extend_from_slice(fault.text().as_bytes())?;
    text.extend_from_slice(HINT)?;
    Response::fault(alloc, Status::BadInput, b"".as_slice(), text.as_slice())
}
