ghost use Rattle.std.specs.Prelude.{◌≤ℤ◌, pos, IfSome};
ghost use Rattle.std.specs.Fd.{file_raw_fd};

use std::fs::{File, OpenOptions};
use std::os::fd::AsRawFd;
use std::rt::Files;

/// The greatest descriptor of a standard stream: that of standard error.
const LAST_STREAM: i32 = 2;

/// The null device in place of each standard stream with which this process was started closed.
/// While it lives, no other file gets the number of a standard stream.
#[derive(Drop)]
pub struct HeldStreams {
    first: Option<File>,
    second: Option<File>,
    third: Option<File>,
}

/// Opens the null device in place of each standard stream that is closed. Call it before anything
/// else is opened.
pub fn hold_streams<R: Files<File = File>>(rt: &R) -> HeldStreams {
    HeldStreams {
        first: held(rt),
        second: held(rt),
        third: held(rt),
    }
}

/// The null device, if its descriptor is that of a standard stream.
fn held<R: Files<File = File>>(rt: &R) -> Option<File>
    ensures { IfSome result (λ file. file_raw_fd file ≤ℤ pos 2) }
{
    let file = OpenOptions::new()
        .read(true)
        .write(true)
        .open(rt, "/dev/null")
        .ok()?;
    if file.as_raw_fd() > LAST_STREAM {
        return None;
    }
    Some(file)
}
