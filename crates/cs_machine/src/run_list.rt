ghost use Rattle.std.specs.Prelude.{◌≡◌, ◌++◌, IfOk, codes, string_bytes};
ghost use Rattle.cs_machine.specs.Files.{new_file_of, runs_file_of};

use crate::listed_run::{ListedRun, push_runs, read_runs};
use crate::paths::{new_path_in, path_in};
use crate::process::{boot_of_machine, has_ended, start_of};
use crate::replacing::{read_first, remove_file, swap_file};
use cs_civil::{Bytes, push_number};
use std::alloc::{AllocError, Global};
use std::io::ErrorKind;
use std::os::unix::fs::MetadataExt;
use std::rt::Files;
use std::sync::{Mutex, Wait};
use std::{fs, io};

/// The blank in its name sets it apart from every stamp.
#[derive(Drop)]
struct ListFile {
    folder: String,
    path: String,
    new_path: String,
    /// The folder's device, and its number there.
    place: (u64, u64),
    /// What identifies this start of the machine; empty if unknown.
    boot: Bytes,
}

/// In bytes, of a list.
const MOST: u64 = 1_048_576;

fn place_of<R: Files>(rt: &R, folder: &str) -> io::Result<(u64, u64)> {
    let found = fs::metadata(rt, folder)?;
    Ok((found.dev(), found.ino()))
}

/// The folder, the list, and where it is written first.
fn paths_in(alloc: Global, folder: &str) -> Result<(String, String, String), AllocError>
    ensures folder { IfOk result (λ paths. string_bytes paths.0 ≡ folder.now) }
    ensures path { IfOk result (λ paths. string_bytes paths.1 ≡ runs_file_of folder.now) }
    ensures new_path { IfOk result
        (λ paths. string_bytes paths.2 ≡ runs_file_of folder.now ++ codes " new") }
{
    let path = path_in(alloc, folder, "cronsafe runs")?;
    let new_path = new_path_in(alloc, folder, "cronsafe runs")?;
    Ok((String::from_str(alloc, folder)?, path, new_path))
}

impl ListFile {
    fn open<R: Files>(rt: &R, alloc: Global, folder: &str) -> io::Result<ListFile> {
        let place = place_of(rt, folder)?;
        let (folder, path, new_path) = paths_in(alloc, folder)?;
        let boot = match boot_of_machine(rt, alloc) {
            Ok(boot) => boot,
            Err(_) => Bytes::new(alloc),
        };
        Ok(ListFile {
            folder,
            path,
            new_path,
            place,
            boot,
        })
    }

    /// Anything but a file isn't opened.
    fn read<R: Files>(&self, rt: &R, alloc: Global) -> io::Result<Vec<ListedRun>> {
        match fs::symlink_metadata(rt, self.path.as_str()) {
            Ok(found) if found.is_file() => {}
            Ok(_) => return Err(io::Error::from(ErrorKind::InvalidInput)),
            Err(error) if error.kind() == ErrorKind::NotFound => return Ok(Vec::new(alloc)),
            Err(error) => return Err(error),
        }
        let text = read_first(rt, alloc, self.path.as_str(), MOST)?;
        Ok(read_runs(alloc, text.as_slice())?)
    }

    /// An empty list is removed. A folder that has been replaced gets none: another daemon may use
    /// it.
    fn write<R: Files>(&self, rt: &R, text: &[u8]) -> io::Result<()> {
        if place_of(rt, self.folder.as_str())? != self.place {
            return Err(io::Error::from(ErrorKind::NotFound));
        }
        if text.is_empty() {
            return remove_file(rt, self.path.as_str());
        }
        swap_file(rt, self.new_path.as_str(), self.path.as_str(), text)
    }
}

#[derive(Drop)]
struct Listing {
    /// None until it is opened.
    file: Option<ListFile>,
    /// Of earlier daemons.
    earlier: Vec<ListedRun>,
    own: Vec<ListedRun>,
}

impl Listing {
    /// None without a file. An error if it isn't known.
    fn boot(&self, alloc: Global) -> io::Result<Option<Bytes>> {
        let Some(file) = &self.file else {
            return Ok(None);
        };
        if file.boot.is_empty() {
            return Err(io::Error::from(ErrorKind::Unsupported));
        }
        Ok(Some(Bytes::from_slice(alloc, file.boot.as_slice())?))
    }

    fn write<R: Files>(&self, rt: &R, alloc: Global) -> io::Result<()> {
        let Some(file) = &self.file else {
            return Ok(());
        };
        let mut text = Vec::new(alloc);
        push_runs(&mut text, self.earlier.as_slice())?;
        push_runs(&mut text, self.own.as_slice())?;
        file.write(rt, text.as_slice())
    }

    /// The machine has been started anew since then, or the process has ended.
    fn is_over<R: Files>(&self, rt: &R, alloc: Global, run: &ListedRun) -> bool {
        match &self.file {
            Some(file) if file.boot.as_slice() == run.boot.as_slice() => {
                has_ended(rt, alloc, run.process.as_slice(), run.start.as_slice())
            }
            Some(_) => true,
            None => false,
        }
    }

    fn first_over<R: Files>(&self, rt: &R, alloc: Global) -> Option<usize> {
        for place in 0..self.earlier.len() {
            if self.is_over(rt, alloc, &self.earlier[place]) {
                return Some(place);
            }
        }
        None
    }
}

/// The runs that go on, in the file `cronsafe runs` of a folder of stamps: the next daemon waits
/// for those that a crash of this one leaves.
///
/// A process is known by its number, its start and the machine's start, since numbers are used
/// again.
#[derive(Drop)]
pub struct RunList {
    alloc: Global,
    listing: Mutex<Listing>,
}

impl RunList {
    pub(crate) fn new(alloc: Global) -> RunList {
        RunList {
            alloc,
            listing: Mutex::new(Listing {
                file: None,
                earlier: Vec::new(alloc),
                own: Vec::new(alloc),
            }),
        }
    }

    /// Keeps the list in that folder, with the runs that an earlier daemon left there. An error if
    /// these can't be read, or if there are any and `/proc` can't be read.
    pub fn open<R: Files + Wait>(&self, rt: &R, folder: &str) -> io::Result<()> {
        let file = ListFile::open(rt, self.alloc, folder)?;
        let earlier = file.read(rt, self.alloc)?;
        if file.boot.is_empty() && !earlier.is_empty() {
            return Err(io::Error::from(ErrorKind::Unsupported));
        }
        let mut listing = self.listing.lock(rt);
        listing.earlier = earlier;
        listing.file = Some(file);
        Ok(())
    }

    /// How many runs of earlier daemons may go on.
    pub fn left<R: Wait>(&self, rt: &R) -> usize {
        self.listing.lock(rt).earlier.len()
    }

    /// Their names and processes, such as `line 3 due 2024-09-13 23:30, process 4711`, as far as
    /// memory lasts.
    pub fn left_texts<R: Wait>(&self, rt: &R) -> Vec<Bytes> {
        let listing = self.listing.lock(rt);
        let mut texts = Vec::new(self.alloc);
        for run in listing.earlier.as_slice() {
            if let Ok(text) = run.left_text(self.alloc) {
                let _ = texts.push(Bytes::from_vec(text));
            }
        }
        texts
    }

    /// Removes a run of an earlier daemon that has ended, if there is one, and returns its name.
    pub fn take_ended<R: Files + Wait>(&self, rt: &R) -> Option<Bytes> {
        let mut listing = self.listing.lock(rt);
        let place = listing.first_over(rt, self.alloc)?;
        if place >= listing.earlier.len() {
            return None;
        }
        let run = listing.earlier.remove(place);
        // one that stays in the file is looked at again
        let _ = listing.write(rt, self.alloc);
        Some(run.name)
    }

    /// A process that is gone isn't listed.
    pub(crate) fn add<R: Files + Wait>(&self, rt: &R, name: &[u8], process: u32) -> io::Result<()> {
        let mut listing = self.listing.lock(rt);
        let Some(boot) = listing.boot(self.alloc)? else {
            return Ok(());
        };
        let mut digits = Vec::new(self.alloc);
        push_number(self.alloc, &mut digits, u128::from(process))?;
        let start = match start_of(rt, self.alloc, digits.as_slice()) {
            Ok(start) => start,
            Err(error) if error.kind() == ErrorKind::NotFound => return Ok(()),
            Err(error) => return Err(error),
        };
        listing.own.push(ListedRun {
            process: Bytes::from_vec(digits),
            start,
            boot,
            name: Bytes::from_slice(self.alloc, name)?,
        })?;
        listing.write(rt, self.alloc)
    }

    pub(crate) fn remove<R: Files + Wait>(&self, rt: &R, name: &[u8]) {
        let mut listing = self.listing.lock(rt);
        listing.own.retain(|run| run.name.as_slice() != name);
        // a line too many does no harm: its process is gone
        let _ = listing.write(rt, self.alloc);
    }
}
