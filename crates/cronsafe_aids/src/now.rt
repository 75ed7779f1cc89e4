//! The time, the offset of local time, and its zone.
use cs_civil::{Bytes, FIRST_MINUTE, LAST_MINUTE, Minute};
use cs_table::MAX_TABLE;
use jiff_core::{Error, Timestamp};
use jiff_tz::{TimeZone, Tzif, posix};
use std::alloc::AllocError;
use std::io::ErrorKind;
use std::rt::{Clock, Env, Files};
use std::time::SystemTime;
use std::{env, fs, io};

/// The time of a call.
#[derive(Clone, Copy)]
pub(crate) struct Now<'a> {
    /// How many minutes local time is ahead of UTC.
    pub(crate) offset: i16,
    /// The rule of its zone (POSIX, TZ), if it has summer time and a plan can follow it.
    pub(crate) zone: &'a Option<Bytes>,
    /// The instant, in whole seconds.
    pub(crate) instant: Timestamp,
}

impl Now<'_> {
    /// The civil minute; the nearest that there is.
    pub(crate) fn minute(self) -> Minute {
        let minutes = self
            .instant
            .floor_second()
            .div_euclid(60)
            .saturating_add(i64::from(self.offset));
        let number = u64::try_from(minutes).unwrap_or(0);
        Minute::new(number.clamp(FIRST_MINUTE, LAST_MINUTE)).unwrap()
    }
}

/// The machine's clock, if it can be read.
pub(crate) fn read_clock<R: Clock>(rt: &R) -> Option<Timestamp> {
    let now = SystemTime::now(rt).ok()?;
    let since = now.duration_since(SystemTime::UNIX_EPOCH).ok()?;
    Timestamp::from_nanosecond(i128::from(since.as_secs()) * 1_000_000_000).ok()
}

/// Local time at an instant.
#[derive(Clone, Copy)]
pub(crate) struct Local {
    /// How many minutes it is ahead of UTC.
    pub(crate) offset: i16,
    /// The rule by which it goes on, if there is one.
    pub(crate) rule: Option<posix::TimeZone>,
}

pub(crate) const UTC: Local = Local {
    offset: 0,
    rule: None,
};

/// Local time at an instant: by `TZ` as in `tzset(3)`, else by `/etc/localtime`, else UTC. `TZ` is
/// the name of a zone's file or a POSIX rule, with or without a colon before it; an empty name is
/// UTC. None where `TZ` is neither.
pub(crate) fn local_time<R: Env + Files + AllocGlobal>(
    rt: &R,
    at: Timestamp,
) -> Result<Option<Local>, AllocError> {
    let value = match env::var(rt, "TZ") {
        Ok(value) => value,
        Err(env::VarError::NotPresent) => {
            return Ok(Some(time_by_file(rt, "/etc/localtime", at)?.unwrap_or(UTC)));
        }
        Err(env::VarError::NotUnicode) => return Ok(None),
        Err(env::VarError::OutOfMemory) => return Err(AllocError),
    };
    let name = value.as_str().strip_prefix(':').unwrap_or(value.as_str());
    if name.is_empty() || name == "UTC" {
        return Ok(Some(UTC));
    }
    if let Some(path) = zone_path(rt, name)? {
        if let Some(local) = time_by_file(rt, path.as_str(), at)? {
            return Ok(Some(local));
        }
    }
    match posix::TimeZone::parse(name.as_bytes()) {
        Ok(rule) => Ok(time_by(TimeZone::Posix(rule), Some(rule), at)),
        Err(_) => Ok(None),
    }
}

/// The path of a time zone's file: an absolute name itself, another below `TZDIR` or
/// `/usr/share/zoneinfo`; none with `..`.
fn zone_path<R: Env + AllocGlobal>(rt: &R, name: &str) -> Result<Option<String>, AllocError> {
    if name.starts_with('/') {
        return Ok(Some(String::from_str(rt.alloc(), name)?));
    }
    if name.contains("..") {
        return Ok(None);
    }
    let mut path = match env::var(rt, "TZDIR") {
        Ok(folder) if !folder.is_empty() => folder,
        Err(env::VarError::OutOfMemory) => return Err(AllocError),
        _ => String::from_str(rt.alloc(), "/usr/share/zoneinfo")?,
    };
    path.push('/')?;
    path.push_str(name)?;
    Ok(Some(path))
}

/// A file that can't be read has no zone, unless memory ran out.
fn unread(error: &io::Error) -> Result<Option<Local>, AllocError> {
    match error.kind() {
        ErrorKind::OutOfMemory => Err(AllocError),
        _ => Ok(None),
    }
}

/// The time by a time zone's file (TZif, RFC 9636); none for another file. Files without a length
/// are skipped, as the kernel has some whose read never ends.
fn time_by_file<R: Files + AllocGlobal>(
    rt: &R,
    path: &str,
    at: Timestamp,
) -> Result<Option<Local>, AllocError> {
    let found = match fs::metadata(rt, path) {
        Ok(found) => found,
        Err(error) => return unread(&error),
    };
    if !found.is_file() || found.len() == 0 || found.len() > MAX_TABLE as u64 {
        return Ok(None);
    }
    let bytes = match fs::read(rt, path) {
        Ok(bytes) => bytes,
        Err(error) => return unread(&error),
    };
    match Tzif::parse(rt.alloc(), None, bytes.as_slice()) {
        Ok(zone) => Ok(time_by(TimeZone::Tzif(&zone), zone.posix_tz(), at)),
        Err(Error::OutOfMemory) => Err(AllocError),
        Err(_) => Ok(None),
    }
}

/// The time by a zone that goes on by this rule.
fn time_by(zone: TimeZone<'_>, rule: Option<posix::TimeZone>, at: Timestamp) -> Option<Local> {
    let offset = i16::try_from(zone.to_offset(at).seconds / 60).ok()?;
    Some(Local { offset, rule })
}
