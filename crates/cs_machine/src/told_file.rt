ghost use Rattle.std.specs.Prelude.{◌≡◌, ◌++◌, IfOk, codes, string_bytes};
ghost use Rattle.cs_machine.specs.Files.{accepted_file_of, answer_file_of, file_of, new_file_of};
ghost use Rattle.cs_machine.specs.Files.{state_file_of};

use crate::paths::{new_path_in, path_in};
use crate::replacing::{Readers, read_first, remove_file, replace_file};
use std::alloc::{AllocError, Global};
use std::io::ErrorKind;
use std::rt::Files;
use std::{fs, io};

/// A file in which the daemon of a folder of stamps writes its state, an answer, or the files that
/// it accepted. The blank in its name sets it apart from every stamp.
#[derive(Drop)]
pub struct ToldFile<'f> {
    folder: &'f str,
    path: String,
    new_path: String,
    readers: Readers,
    /// In bytes: what is longer isn't read.
    most: u64,
}

/// In bytes.
pub(crate) const MEBIBYTE: u64 = 1_048_576;

impl<'f> ToldFile<'f> {
    /// Returns the file of the state of a folder's daemon, whether it's there or not.
    pub fn state(alloc: Global, folder: &'f str) -> Result<ToldFile<'f>, AllocError>
        ensures path { IfOk result (λ file. string_bytes file.path ≡ state_file_of folder.now) }
        ensures new_path { IfOk result
            (λ file. string_bytes file.new_path ≡ state_file_of folder.now ++ codes " new") }
        ensures folder { IfOk result (λ file. file.folder.now ≡ folder.now) }
    {
        ToldFile::of(alloc, folder, "cronsafe state", Readers::Usual, MEBIBYTE)
    }

    /// Returns the file in which the daemon answers a request.
    pub fn answer(alloc: Global, folder: &'f str) -> Result<ToldFile<'f>, AllocError>
        ensures path { IfOk result (λ file. string_bytes file.path ≡ answer_file_of folder.now) }
        ensures new_path { IfOk result
            (λ file. string_bytes file.new_path ≡ answer_file_of folder.now ++ codes " new") }
        ensures folder { IfOk result (λ file. file.folder.now ≡ folder.now) }
    {
        ToldFile::of(alloc, folder, "cronsafe answer", Readers::Usual, MEBIBYTE)
    }

    /// Returns the file in which the daemon keeps the files that it accepted last. They may hold
    /// what isn't meant for other users, and they are longer than the other texts.
    pub fn accepted(alloc: Global, folder: &'f str) -> Result<ToldFile<'f>, AllocError>
        ensures path { IfOk result (λ file. string_bytes file.path ≡ accepted_file_of folder.now) }
        ensures new_path { IfOk result
            (λ file. string_bytes file.new_path ≡ accepted_file_of folder.now ++ codes " new") }
        ensures folder { IfOk result (λ file. file.folder.now ≡ folder.now) }
    {
        ToldFile::of(
            alloc,
            folder,
            "cronsafe accepted",
            Readers::Owner,
            64 * MEBIBYTE,
        )
    }

    fn of(
        alloc: Global,
        folder: &'f str,
        name: &str,
        readers: Readers,
        most: u64,
    ) -> Result<ToldFile<'f>, AllocError>
        ensures path { IfOk result
            (λ file. string_bytes file.path ≡ file_of folder.now name.now) }
        ensures new_path { IfOk result
            (λ file. string_bytes file.new_path ≡ new_file_of folder.now name.now) }
        ensures folder { IfOk result (λ file. file.folder.now ≡ folder.now) }
    {
        let path = path_in(alloc, folder, name)?;
        let new_path = new_path_in(alloc, folder, name)?;
        Ok(ToldFile {
            folder,
            path,
            new_path,
            readers,
            most,
        })
    }

    /// Writes the file: a crash leaves the old text or the new one.
    pub fn replace<R: Files>(&self, rt: &R, text: &[u8]) -> io::Result<()> {
        replace_file(
            rt,
            self.readers,
            self.folder,
            self.new_path.as_str(),
            self.path.as_str(),
            text,
        )
    }

    /// Reads the file. An error if it has more than a mebibyte, or 64 with the accepted files, or is
    /// a folder, a pipe, a device or a link, which isn't opened.
    pub fn read<R: Files>(&self, rt: &R, alloc: Global) -> io::Result<Vec<u8>> {
        if !fs::symlink_metadata(rt, self.path.as_str())?.is_file() {
            return Err(io::Error::from(ErrorKind::InvalidInput));
        }
        let text = read_first(rt, alloc, self.path.as_str(), self.most.saturating_add(1))?;
        if text.len() as u64 > self.most {
            return Err(io::Error::from(ErrorKind::InvalidData));
        }
        Ok(text)
    }

    /// Removes the file, if it is there.
    pub fn remove<R: Files>(&self, rt: &R) -> io::Result<()> {
        remove_file(rt, self.path.as_str())
    }
}
