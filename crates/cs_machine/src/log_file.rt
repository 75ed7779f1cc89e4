use std::fs::{Metadata, OpenFile, OpenOptions};
use std::io::ErrorKind;
use std::os::unix::fs::{FileTypeExt, MetadataExt};
use std::rt::Files;
use std::{fs, io};

/// 1 and 3 (null(4)), as Linux holds both in one.
const NULL_DEVICE: u64 = 0x103;

/// Only a file and the null device take lines without a wait.
fn checked(found: &Metadata) -> io::Result<()> {
    let is_null = found.file_type().is_char_device() && found.rdev() == NULL_DEVICE;
    if found.is_file() || is_null {
        return Ok(());
    }
    Err(io::Error::from(ErrorKind::InvalidInput))
}

/// Opens a log to write at its end, or makes it. An error where anything but a file or the null
/// device is there.
pub fn open_log<R: Files>(rt: &R, path: &str) -> io::Result<R::File> {
    match fs::metadata(rt, path) {
        Ok(found) => checked(&found)?,
        Err(error) if error.kind() == ErrorKind::NotFound => {}
        Err(error) => return Err(error),
    }
    // reading too, since a pipe opened to write alone waits for its reader
    let log = OpenOptions::new()
        .read(true)
        .append(true)
        .create(true)
        .open(rt, path)?;
    checked(&log.metadata()?)?;
    Ok(log)
}
