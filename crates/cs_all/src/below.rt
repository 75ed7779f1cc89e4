//! The tables below folders, and what lies beside each.
use cs_io::{FileKind, Folders, ReadFault, Reason};
use std::alloc::{AllocError, Global};
use std::rt::Files;
use std::str;

/// What was found at a path.
#[derive(Clone, Copy)]
pub(crate) enum Kind {
    /// A table.
    Table,
    /// A file that belongs to a table, which isn't there.
    Stray,
    /// Something that can't be read, and why.
    Unread(Reason),
    /// A folder of the call, where none has a table below it.
    Bare,
}

#[derive(Drop)]
pub(crate) struct Found {
    pub(crate) path: String,
    pub(crate) kind: Kind,
    /// The path of the declarations beside a table, if they are there.
    pub(crate) declarations: Option<String>,
    pub(crate) anacrontab: Option<String>,
    pub(crate) certificate: Option<String>,
}

impl Found {
    fn alone(path: String, kind: Kind) -> Found {
        Found {
            path,
            kind,
            declarations: None,
            anacrontab: None,
            certificate: None,
        }
    }
}

/// How the name of a table ends.
const TABLE: &str = ".cron";

/// How the names of the files end that may be beside it.
const BESIDE: [&str; 3] = [".json", ".anacrontab", ".cert"];

/// The most folders that are listed.
const MOST_FOLDERS: usize = 65_536;

/// A walk through folders.
#[derive(Drop)]
struct Walk {
    alloc: Global,
    found: Vec<Found>,
    /// The folders that are still to be listed.
    left: Vec<String>,
}

impl Walk {
    fn push_unread(&mut self, path: String, reason: Reason) -> Result<(), AllocError> {
        self.found.push(Found::alone(path, Kind::Unread(reason)))?;
        Ok(())
    }

    /// Adds a table or a file that belongs to one; other files are ignored.
    fn push_file<I: Folders>(&mut self, inputs: &mut I, path: &str) -> Result<(), AllocError> {
        let alloc = self.alloc;
        if let Some(stem) = path.strip_suffix(TABLE) {
            self.found.push(table_at(alloc, inputs, path, stem)?)?;
            return Ok(());
        }
        let Some(stem) = stem_of(path) else {
            return Ok(());
        };
        if beside(alloc, inputs, stem, TABLE)?.is_none() {
            let path = String::from_str(alloc, path)?;
            self.found.push(Found::alone(path, Kind::Stray))?;
        }
        Ok(())
    }

    /// Adds what is at a path below a folder. Links to folders aren't followed.
    fn push_path<R: Files, I: Folders>(
        &mut self,
        rt: &R,
        inputs: &mut I,
        path: String,
    ) -> Result<(), AllocError> {
        match inputs.kind_of(path.as_str()) {
            Ok(Some(FileKind::Folder)) if is_link(rt, path.as_str()) => Ok(()),
            Ok(Some(FileKind::Folder)) => {
                self.left.push(path)?;
                Ok(())
            }
            Ok(Some(FileKind::Other)) if path.ends_with(TABLE) => {
                self.push_unread(path, Reason::Unknown)
            }
            Ok(Some(FileKind::Other)) => Ok(()),
            Ok(Some(_)) => self.push_file(inputs, path.as_str()),
            Ok(None) if path.ends_with(TABLE) => self.push_unread(path, Reason::Absent),
            Ok(None) => Ok(()),
            Err(ReadFault::CannotRead(reason)) => self.push_unread(path, reason),
            Err(ReadFault::OutOfMemory) => Err(AllocError),
        }
    }

    /// Names that begin with a dot are ignored, and those that aren't UTF-8 can't be read.
    fn push_name<R: Files, I: Folders>(
        &mut self,
        rt: &R,
        inputs: &mut I,
        folder: &str,
        name: &[u8],
    ) -> Result<(), AllocError> {
        if name.starts_with(b".".as_slice()) {
            return Ok(());
        }
        let alloc = self.alloc;
        let front = folder.strip_suffix('/').unwrap_or(folder);
        match str::from_utf8(name) {
            Ok(name) => {
                let path = format!(in alloc; "{front}/{name}")?;
                self.push_path(rt, inputs, path)
            }
            Err(_) => {
                let name = String::from_utf8_lossy(alloc, name)?;
                let path = format!(in alloc; "{front}/{name}")?;
                self.push_unread(path, Reason::Unknown)
            }
        }
    }

    fn list<R: Files, I: Folders>(
        &mut self,
        rt: &R,
        inputs: &mut I,
        folder: &str,
    ) -> Result<(), AllocError> {
        let alloc = self.alloc;
        let reason = match inputs.names(alloc, folder) {
            Ok(Some(names)) => {
                for name in names.as_slice() {
                    self.push_name(rt, inputs, folder, name.as_slice())?;
                }
                return Ok(());
            }
            Ok(None) => Reason::Absent,
            Err(ReadFault::CannotRead(reason)) => reason,
            Err(ReadFault::OutOfMemory) => return Err(AllocError),
        };
        self.push_unread(String::from_str(alloc, folder)?, reason)
    }

    fn list_all<R: Files, I: Folders>(&mut self, rt: &R, inputs: &mut I) -> Result<(), AllocError> {
        for _folder in 0..MOST_FOLDERS {
            let Some(folder) = self.left.pop() else {
                return Ok(());
            };
            self.list(rt, inputs, folder.as_str())?;
        }
        match self.left.pop() {
            Some(folder) => self.push_unread(folder, Reason::TooManyNames),
            None => Ok(()),
        }
    }
}

/// Whether a path is itself a link.
fn is_link<R: Files>(rt: &R, path: &str) -> bool {
    match rt.symlink_metadata(path) {
        Ok(found) => found.is_symlink(),
        Err(_) => false,
    }
}

/// The path of a file that belongs to a table, without its ending.
fn stem_of(path: &str) -> Option<&str> {
    for ending in BESIDE {
        if let Some(stem) = path.strip_suffix(ending) {
            return Some(stem);
        }
    }
    None
}

/// The path of a regular file, if it is there; also if the machine doesn't say what is there, so
/// that a read says why.
fn beside<I: Folders>(
    alloc: Global,
    inputs: &mut I,
    stem: &str,
    ending: &str,
) -> Result<Option<String>, AllocError> {
    let path = format!(in alloc; "{stem}{ending}")?;
    match inputs.kind_of(path.as_str()) {
        Ok(Some(FileKind::Folder | FileKind::Other)) => Ok(None),
        Ok(None) => Ok(None),
        Ok(Some(_)) => Ok(Some(path)),
        Err(ReadFault::CannotRead(_)) => Ok(Some(path)),
        Err(ReadFault::OutOfMemory) => Err(AllocError),
    }
}

fn table_at<I: Folders>(
    alloc: Global,
    inputs: &mut I,
    path: &str,
    stem: &str,
) -> Result<Found, AllocError> {
    let mut found = Found::alone(String::from_str(alloc, path)?, Kind::Table);
    found.declarations = beside(alloc, inputs, stem, ".json")?;
    found.anacrontab = beside(alloc, inputs, stem, ".anacrontab")?;
    found.certificate = beside(alloc, inputs, stem, ".cert")?;
    Ok(found)
}

/// Whether nothing is a table, or may hide one.
fn is_bare(found: &[Found]) -> bool {
    for one in found {
        if matches!(one.kind, Kind::Table | Kind::Unread(_)) {
            return false;
        }
    }
    true
}

/// Finds the tables below folders, in the order of their paths, with what can't be read and with
/// files whose table isn't there; each folder too if there is no table and all could be read. The
/// only error is out of memory.
pub(crate) fn found_below<R: Files, I: Folders>(
    rt: &R,
    alloc: Global,
    inputs: &mut I,
    folders: &[&str],
) -> Result<Vec<Found>, AllocError> {
    let mut walk = Walk {
        alloc,
        found: Vec::new(alloc),
        left: Vec::new(alloc),
    };
    for folder in folders {
        walk.left.push(String::from_str(alloc, folder)?)?;
    }
    walk.list_all(rt, inputs)?;
    if is_bare(walk.found.as_slice()) {
        for folder in folders {
            let path = String::from_str(alloc, folder)?;
            walk.found.push(Found::alone(path, Kind::Bare))?;
        }
    }
    let mut found = walk.found;
    found.sort_by(|one, other| one.path.cmp(&other.path))?;
    Ok(found)
}
