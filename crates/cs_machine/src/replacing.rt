ghost use Rattle.std.specs.Prelude.{◌≡◌, ◌++◌, IfOk, codes, string_bytes};

use std::alloc::{AllocError, Global};
use std::fs::{OpenFile, OpenOptions};
use std::io::{ErrorKind, Read, Write};
use std::os::unix::fs::OpenOptionsExt;
use std::rt::Files;
use std::{fs, io};

/// Succeeds if there is none.
pub(crate) fn remove_file<R: Files>(rt: &R, path: &str) -> io::Result<()> {
    match fs::remove_file(rt, path) {
        Err(error) if error.kind() == ErrorKind::NotFound => Ok(()),
        removed => removed,
    }
}

pub(crate) fn read_first<R: Files>(
    rt: &R,
    alloc: Global,
    path: &str,
    most: u64,
) -> io::Result<Vec<u8>> {
    let mut start = fs::open(rt, path)?.take(most);
    let mut text = Vec::new(alloc);
    start.read_to_end(&mut text)?;
    Ok(text)
}

/// Who may read a new file.
#[derive(Clone, Copy)]
pub(crate) enum Readers {
    /// Those whom the umask allows.
    Usual,
    /// Its owner alone.
    Owner,
}

impl Readers {
    fn mode(self) -> u32 {
        match self {
            Readers::Usual => 0o666,
            Readers::Owner => 0o600,
        }
    }
}

/// What stands there is removed, not opened: it may be a pipe or a link.
fn write_new<R: Files>(rt: &R, readers: Readers, path: &str, text: &[u8]) -> io::Result<R::File> {
    remove_file(rt, path)?;
    let mut file = OpenOptions::new()
        .write(true)
        .create_new(true)
        .mode(readers.mode())
        .open(rt, path)?;
    file.write_all(text)?;
    Ok(file)
}

/// The end of this process leaves the old file or the new one. It doesn't wait for the disk.
pub(crate) fn swap_file<R: Files>(
    rt: &R,
    new_path: &str,
    path: &str,
    text: &[u8],
) -> io::Result<()> {
    write_new(rt, Readers::Usual, new_path, text)?;
    fs::rename(rt, new_path, path)
}

/// A crash leaves the old file or the new one: both file and folder are flushed to the disk.
pub(crate) fn replace_file<R: Files>(
    rt: &R,
    readers: Readers,
    folder: &str,
    new_path: &str,
    path: &str,
    text: &[u8],
) -> io::Result<()> {
    let file = write_new(rt, readers, new_path, text)?;
    file.sync_all()?;
    fs::rename(rt, new_path, path)?;
    fs::open(rt, folder)?.sync_all()
}

/// The folder of a path.
fn folder_of(path: &str) -> &str {
    match path.rsplit_once('/') {
        Some(("", _)) => "/",
        Some((folder, _)) => folder,
        None => ".",
    }
}

fn new_path_of(alloc: Global, path: &str) -> Result<String, AllocError>
    ensures { IfOk result (λ new. string_bytes new ≡ path.now ++ codes " new") }
{
    let mut new_path = String::from_str(alloc, path)?;
    new_path.push_str(" new")?;
    Ok(new_path)
}

/// Puts a text in place of a file, or makes it. A crash leaves the old file or the new one; beside
/// it may stay another with ` new` at the end of its name.
pub fn put_file<R: Files>(rt: &R, alloc: Global, path: &str, text: &[u8]) -> io::Result<()> {
    let new_path = new_path_of(alloc, path)?;
    replace_file(
        rt,
        Readers::Usual,
        folder_of(path),
        new_path.as_str(),
        path,
        text,
    )
}
