ghost use Rattle.std.specs.Prelude.{◌≡◌, IfOk, string_bytes};
ghost use Rattle.cs_machine.specs.Files.{lock_file_of};

use crate::last_word::filled;
use crate::paths::path_in;
use std::alloc::{AllocError, Global};
use std::fs::{File, Metadata, OpenFile, OpenOptions, TryLockError};
use std::io::ErrorKind;
use std::os::unix::fs::{FileExt, MetadataExt, OpenOptionsExt};
use std::rt::Files;
use std::{fs, io};

/// Why a folder can't be locked.
#[derive(Clone, Copy)]
pub enum LockFault {
    /// Another process has locked it.
    InUse,
    /// It can't be opened or locked.
    Failed,
}

/// Exclusive locks (flock(2)) on the file `cronsafe lock` of a folder, which its owner alone can
/// open, and on the folder, as earlier versions lock it. The machine frees them when the process
/// ends, however that ends.
#[derive(Drop)]
pub struct FolderLock {
    path: String,
    lock: File,
    folder: File,
}

/// Others may write (chmod(2)).
const OTHERS_WRITE: u32 = 0o002;

fn lock_path(alloc: Global, folder: &str) -> Result<String, AllocError>
    ensures { IfOk result (λ path. string_bytes path ≡ lock_file_of folder.now) }
{
    path_in(alloc, folder, "cronsafe lock")
}

/// Whether another file is there now, or none.
fn is_elsewhere(found: io::Result<Metadata>, file: &File) -> bool {
    let Ok(own) = file.metadata() else {
        return false;
    };
    match found {
        Ok(found) => found.dev() != own.dev() || found.ino() != own.ino(),
        Err(error) => error.kind() == ErrorKind::NotFound,
    }
}

/// A link isn't opened.
fn open_lock<R: Files<File = File>>(rt: &R, path: &str) -> io::Result<File> {
    if !fs::symlink_metadata(rt, path)?.is_file() {
        return Err(io::Error::from(ErrorKind::InvalidInput));
    }
    let file = OpenOptions::new().read(true).write(true).open(rt, path)?;
    if is_elsewhere(fs::symlink_metadata(rt, path), &file) {
        return Err(io::Error::from(ErrorKind::InvalidInput));
    }
    Ok(file)
}

/// Its owner alone can open a new one.
fn make_lock<R: Files<File = File>>(rt: &R, path: &str) -> io::Result<File> {
    let made = OpenOptions::new()
        .write(true)
        .create_new(true)
        .mode(0o600)
        .open(rt, path);
    match made {
        Err(error) if error.kind() == ErrorKind::AlreadyExists => open_lock(rt, path),
        made => made,
    }
}

fn locked(opened: io::Result<File>) -> Result<File, LockFault> {
    let Ok(file) = opened else {
        return Err(LockFault::Failed);
    };
    match file.try_lock() {
        Ok(()) => Ok(file),
        Err(TryLockError::WouldBlock) => Err(LockFault::InUse),
        Err(TryLockError::Error(_)) => Err(LockFault::Failed),
    }
}

impl FolderLock {
    /// Locks a folder for a daemon, without waiting. [`LockFault::Failed`] also if memory runs out.
    pub fn take<R: Files<File = File>>(
        rt: &R,
        alloc: Global,
        folder: &str,
    ) -> Result<FolderLock, LockFault> {
        let Ok(path) = lock_path(alloc, folder) else {
            return Err(LockFault::Failed);
        };
        let lock = locked(make_lock(rt, path.as_str()))?;
        let folder = locked(fs::open(rt, folder))?;
        Ok(FolderLock { path, lock, folder })
    }

    /// Locks for a moment what a daemon of that folder locks: the file, or the folder if that can't
    /// be opened. It makes no file.
    pub fn probe<R: Files<File = File>>(
        rt: &R,
        alloc: Global,
        folder: &str,
    ) -> Result<File, LockFault> {
        let Ok(path) = lock_path(alloc, folder) else {
            return Err(LockFault::Failed);
        };
        match open_lock(rt, path.as_str()) {
            Ok(lock) => locked(Ok(lock)),
            Err(_) => locked(fs::open(rt, folder)),
        }
    }

    /// Leaves a text in the lock's file, if that takes it and has no other name.
    pub fn leave(&self, what: &[u8]) {
        if let Ok(found) = self.lock.metadata() {
            if found.nlink() == 1 {
                let _ = self.lock.write_all_at(&filled(what), 0);
            }
        }
    }

    /// Whether the folder or the lock's file is gone or another one. False where that can't be
    /// seen.
    pub fn is_lost<R: Files>(&self, rt: &R, folder: &str) -> bool {
        is_elsewhere(fs::metadata(rt, folder), &self.folder)
            || is_elsewhere(fs::symlink_metadata(rt, self.path.as_str()), &self.lock)
    }
}

/// Whether others than its owner and its group can write to a folder.
pub fn is_exposed<R: Files>(rt: &R, folder: &str) -> bool {
    match fs::metadata(rt, folder) {
        Ok(found) => found.mode() & OTHERS_WRITE != 0,
        Err(_) => false,
    }
}
