ghost use Rattle.std.specs.Prelude.{◌≡◌, ◌≢◌, ◌≤◌, ℕ, [], IfOk, IsErr, MatchOption};
ghost use Rattle.cs_anacrontab.specs.Stamp.{IsStampText};
ghost use Rattle.cs_civil.specs.Calendar.{last_day};

use crate::paths::{file_name, new_path_in, path_in};
use crate::replacing::{Readers, read_first, replace_file};
use cs_anacrontab::{read_stamp, stamp_text};
use cs_civil::Day;
use cs_device::{Failures, Stamp, StampStore};
use std::alloc::Global;
use std::io::ErrorKind;
use std::os::unix::fs::MetadataExt;
use std::rt::Files;
use std::{fs, io};

/// The path names no folder, or can't be looked at.
#[derive(Clone, Copy)]
pub struct NoFolder;

/// A folder of stamps: each identifier's file holds `YYYYMMDD` and a newline (anacron(8)).
///
/// An empty file, as anacron(8) makes them, is no stamp; one with anything else can't be read (this
/// profile). An identifier that can't be a file's name can't be read or written. No contract says
/// what a file holds.
///
/// After 2^64 - 1 failures, another is reported as no stamp, and as written.
#[derive(Drop)]
pub struct StampsFolder<'r, 'f, R> {
    rt: &'r R,
    alloc: Global,
    folder: &'f str,
    /// The folder's device, and its number there.
    place: (u64, u64),
    failures: Failures,
}

/// The bytes of the longest stamp, and one more.
const ENOUGH: u64 = 10;

fn day_in(text: &[u8]) -> io::Result<Option<Day>>
    ensures said { IfOk result (λ found.
        MatchOption found (text.now ≡ []) (IsStampText text.now)) }
    ensures fault { IsErr result → text.now ≢ [] }
    ensures no_stamp { IsErr result → (n : ℕ) → n ≤ last_day → ¬ IsStampText text.now n }
{
    if text.is_empty() {
        return Ok(None);
    }
    match read_stamp(text) {
        Some(day) => Ok(Some(day)),
        None => Err(io::Error::from(ErrorKind::InvalidData)),
    }
}

impl<'r, 'f, R: Files> StampsFolder<'r, 'f, R> {
    /// Opens the folder at that path, without failures.
    pub fn open(
        rt: &'r R,
        alloc: Global,
        folder: &'f str,
    ) -> Result<StampsFolder<'r, 'f, R>, NoFolder>
        ensures fresh { IfOk result (λ store. store.failures ≡ 0) }
        ensures folder { IfOk result (λ store. store.folder.now ≡ folder.now) }
    {
        match fs::metadata(rt, folder) {
            Ok(found) if found.is_dir() => Ok(StampsFolder {
                rt,
                alloc,
                folder,
                place: (found.dev(), found.ino()),
                failures: Failures::none(),
            }),
            Ok(_) | Err(_) => Err(NoFolder),
        }
    }

    /// Forgets its failures, for another daemon.
    pub fn begin_anew(&mut self)
        ensures { self.new ≡ record self.old { failures = 0 } }
    {
        self.failures = Failures::none();
    }

    /// None if it is empty or absent. Only a file is opened: a pipe would keep the daemon waiting.
    fn look(&self, identifier: &[u8]) -> io::Result<Option<Day>> {
        let path = path_in(self.alloc, self.folder, file_name(identifier)?)?;
        match fs::metadata(self.rt, path.as_str()) {
            Ok(found) if found.is_file() => {}
            Ok(_) => return Err(io::Error::from(ErrorKind::InvalidData)),
            Err(error) if error.kind() == ErrorKind::NotFound => return Ok(None),
            Err(error) => return Err(error),
        }
        let text = read_first(self.rt, self.alloc, path.as_str(), ENOUGH)?;
        day_in(text.as_slice())
    }

    /// Another daemon may use a folder that has been put there since.
    fn is_there(&self) -> bool {
        match fs::metadata(self.rt, self.folder) {
            Ok(found) => (found.dev(), found.ino()) == self.place,
            Err(_) => false,
        }
    }

    fn replace(&self, identifier: &[u8], day: Day) -> io::Result<()> {
        if !self.is_there() {
            return Err(io::Error::from(ErrorKind::NotFound));
        }
        let name = file_name(identifier)?;
        let path = path_in(self.alloc, self.folder, name)?;
        let new_path = new_path_in(self.alloc, self.folder, name)?;
        replace_file(
            self.rt,
            Readers::Usual,
            self.folder,
            new_path.as_str(),
            path.as_str(),
            &stamp_text(day),
        )
    }
}

impl<'r, 'f, R: Files> StampStore for StampsFolder<'r, 'f, R> {
    ghost use Rattle.std.specs.Prelude.{⊤};

    // nothing is known of what the folder holds
    ghost reads = { λ before identifier answer behind. ⊤ };

    ghost writes = { λ before identifier day answer behind. ⊤ };

    ghost failures = { λ s. s.failures };

    fn read(&mut self, identifier: &[u8]) -> Stamp {
        match self.look(identifier) {
            Ok(Some(day)) => Stamp::On(day),
            Ok(None) => Stamp::Absent,
            Err(_) if self.failures.count() => Stamp::Failed,
            Err(_) => Stamp::Absent,
        }
    }

    fn write(&mut self, identifier: &[u8], day: Day) -> bool {
        match self.replace(identifier, day) {
            Ok(()) => true,
            Err(_) => !self.failures.count(),
        }
    }
}
