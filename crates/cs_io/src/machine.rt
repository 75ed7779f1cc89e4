ghost use Rattle.std.specs.Prelude.{◌≡◌, ◌==◌, ◌≤◌, IfOk, IfSome, bit_and, false, if◌then◌else◌, length};
ghost use Rattle.std.specs.Fs.{metadata_len, metadata_mode};
ghost use Rattle.cs_io.specs.Folders.{IsInByteOrder};
ghost use Rattle.cs_io.specs.declared.folders.FileKind.TheVariants.{Empty, Program, Regular};

use crate::folders::{FileKind, Folders, MOST_NAMES, names_in_order, read_list};
use crate::inputs::{CannotRead, Inputs, ReadFault};
use crate::links::Root;
use crate::reason::Reason;
use cs_civil::{Bytes, Sequence};
use std::alloc::{AllocError, Global};
use std::fs::Metadata;
use std::io::{ErrorKind, Read};
use std::os::unix::fs::PermissionsExt;
use std::rt::Files;
use std::{fs, io};

/// The machine's files and its standard input. A path is read to its end before another.
#[derive(Drop)]
pub struct Machine<'a, R: Files + Input> {
    rt: &'a R,
    open: Option<R::File>,
    root: Option<Root>,
    has_failed: bool,
}

impl<'a, R: Files + Input> Machine<'a, R> {
    /// Returns the machine's inputs, without failures.
    pub fn new(rt: &'a R) -> Machine<'a, R>
        ensures { result.has_failed ≡ false }
    {
        Machine {
            rt,
            open: None,
            root: None,
            has_failed: false,
        }
    }

    fn behind_links(&self, path: &str) -> io::Result<Option<String>> {
        match &self.root {
            Some(root) => root.behind_links(self.rt, path),
            None => Ok(None),
        }
    }

    fn read_file(&mut self, path: &str, buf: &mut [u8]) -> io::Result<usize>
        ensures bound { IfOk result (λ n. n ≤ length buf.new) }
        ensures flag { self.new.has_failed ≡ self.old.has_failed }
    {
        let mut file = match self.open.take() {
            Some(file) => file,
            None => {
                let file = self.behind_links(path)?;
                fs::open(self.rt, text_or(&file, path))?
            }
        };
        let n = file.read(buf)?;
        if n != 0 {
            self.open = Some(file);
        }
        Ok(n)
    }

    fn found_at(&self, path: &str) -> io::Result<Metadata> {
        let file = self.behind_links(path)?;
        fs::metadata(self.rt, text_or(&file, path))
    }

    fn kind_at(&self, path: &str) -> io::Result<FileKind> {
        let found = self.found_at(path)?;
        if found.is_file() {
            return Ok(file_kind(&found));
        }
        if found.is_dir() {
            return Ok(FileKind::Folder);
        }
        Ok(FileKind::Other)
    }

    fn folder_at(&self, alloc: Global, path: &str) -> io::Result<R::Dir> {
        let file = self.behind_links(path)?;
        let path = with_slash(alloc, text_or(&file, path))?;
        self.rt.open_dir(path.as_str())
    }

    fn open_folder(&self, alloc: Global, path: &str) -> Result<Option<R::Dir>, ReadFault> {
        match self.folder_at(alloc, path) {
            Ok(folder) => Ok(Some(folder)),
            Err(error) => match error.kind() {
                ErrorKind::NotFound => Ok(None),
                ErrorKind::NotADirectory => Err(ReadFault::CannotRead(Reason::NoFolder)),
                _ => Err(fault_of(&error)),
            },
        }
    }

    fn list(&self, alloc: Global, path: &str) -> Result<Option<Sequence<Bytes>>, ReadFault>
        ensures few { IfOk result (λ found. IfSome found (λ names. length names ≤ MOST_NAMES)) }
        ensures order { IfOk result (λ found. IfSome found IsInByteOrder) }
    {
        let Some(mut folder) = self.open_folder(alloc, path)? else {
            return Ok(None);
        };
        let list = read_list(alloc, &mut folder)?;
        Ok(Some(names_in_order(alloc, list.as_slice())?))
    }
}

fn text_or<'t>(text: &'t Option<String>, other: &'t str) -> &'t str {
    match text {
        Some(text) => text.as_str(),
        None => other,
    }
}

fn file_kind(found: &Metadata) -> FileKind
    ensures { result ≡ (if bit_and (metadata_mode found.now) 0o111 == 0
        then (if metadata_len found.now == 0 then Empty else Regular) else Program) }
{
    if found.permissions().mode() & 0o111 != 0 {
        return FileKind::Program;
    }
    if found.len() == 0 {
        FileKind::Empty
    } else {
        FileKind::Regular
    }
}

fn fault_of(error: &io::Error) -> ReadFault {
    match error.kind() {
        ErrorKind::OutOfMemory => ReadFault::OutOfMemory,
        _ => ReadFault::CannotRead(Reason::of(error)),
    }
}

/// A slash at the end, so that a link to a folder is followed.
fn with_slash(alloc: Global, path: &str) -> Result<String, AllocError> {
    let mut folder = String::from_str(alloc, path)?;
    if !path.is_empty() && !path.ends_with('/') {
        folder.push('/')?;
    }
    Ok(folder)
}

impl<'a, R: Files + Input> Inputs for Machine<'a, R> {
    // It keeps no paths: a failure of one is a failure of each.
    ghost failed = { λ s _. s.has_failed };

    fn read(&mut self, path: &str, buf: &mut [u8]) -> Result<usize, CannotRead> {
        let given = if path == "-" {
            self.rt.reader().read(buf)
        } else {
            self.read_file(path, buf)
        };
        match given {
            Ok(n) => Ok(n),
            Err(error) => {
                self.has_failed = true;
                Err(CannotRead {
                    reason: Reason::of(&error),
                })
            }
        }
    }
}

impl<'a, R: Files + Input> Folders for Machine<'a, R> {
    fn look_below(&mut self, alloc: Global, root: &str) -> Result<(), AllocError> {
        self.root = if root.is_empty() {
            None
        } else {
            Some(Root::new(alloc, root)?)
        };
        Ok(())
    }

    fn kind_of(&mut self, path: &str) -> Result<Option<FileKind>, ReadFault> {
        match self.kind_at(path) {
            Ok(kind) => Ok(Some(kind)),
            Err(error) => match error.kind() {
                ErrorKind::NotFound | ErrorKind::NotADirectory => Ok(None),
                ErrorKind::FilesystemLoop => Ok(Some(FileKind::Other)),
                _ => {
                    self.has_failed = true;
                    Err(fault_of(&error))
                }
            },
        }
    }

    fn is_open_to_others(&self, path: &str) -> bool {
        match self.found_at(path) {
            Ok(found) => found.permissions().mode() & 0o022 != 0,
            Err(_) => false,
        }
    }

    fn names(&mut self, alloc: Global, path: &str) -> Result<Option<Sequence<Bytes>>, ReadFault> {
        match self.list(alloc, path) {
            Err(ReadFault::CannotRead(reason)) => {
                self.has_failed = true;
                Err(ReadFault::CannotRead(reason))
            }
            given => given,
        }
    }
}
