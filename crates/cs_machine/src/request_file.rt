ghost use Rattle.std.specs.Prelude.{◌≡◌, IfOk, string_bytes};
ghost use Rattle.cs_machine.specs.Files.{drain_file_of, reload_file_of, stop_file_of};

use crate::paths::path_in;
use crate::replacing::remove_file;
use std::alloc::{AllocError, Global};
use std::fs::OpenOptions;
use std::io::ErrorKind;
use std::rt::Files;
use std::{fs, io};

/// A file that asks the daemon of a folder of stamps for something. The blank in its name sets it
/// apart from every stamp.
#[derive(Drop)]
pub struct RequestFile {
    path: String,
}

impl RequestFile {
    /// Returns the file that asks a folder's daemon to end, whether it's there or not.
    pub fn to_stop(alloc: Global, folder: &str) -> Result<RequestFile, AllocError>
        ensures { IfOk result (λ file. string_bytes file.path ≡ stop_file_of folder.now) }
    {
        let path = path_in(alloc, folder, "cronsafe stop")?;
        Ok(RequestFile { path })
    }

    /// Returns the file that asks the daemon to read its tables again.
    pub fn to_reload(alloc: Global, folder: &str) -> Result<RequestFile, AllocError>
        ensures { IfOk result (λ file. string_bytes file.path ≡ reload_file_of folder.now) }
    {
        let path = path_in(alloc, folder, "cronsafe reload")?;
        Ok(RequestFile { path })
    }

    /// Returns the file that, beside that for reload, asks the daemon to start nothing more before.
    pub fn to_drain(alloc: Global, folder: &str) -> Result<RequestFile, AllocError>
        ensures { IfOk result (λ file. string_bytes file.path ≡ drain_file_of folder.now) }
    {
        let path = path_in(alloc, folder, "cronsafe drain")?;
        Ok(RequestFile { path })
    }

    /// Whether anything is there, even a link that leads nowhere.
    pub fn is_there<R: Files>(&self, rt: &R) -> bool {
        fs::symlink_metadata(rt, self.path.as_str()).is_ok()
    }

    /// Makes the file, unless it is there already.
    pub fn make<R: Files>(&self, rt: &R) -> io::Result<()> {
        let made = OpenOptions::new()
            .write(true)
            .create_new(true)
            .open(rt, self.path.as_str());
        match made {
            Ok(_) => Ok(()),
            Err(error) if error.kind() == ErrorKind::AlreadyExists => Ok(()),
            Err(error) => Err(error),
        }
    }

    /// Removes the file, if it is there.
    pub fn remove<R: Files>(&self, rt: &R) -> io::Result<()> {
        remove_file(rt, self.path.as_str())
    }
}
