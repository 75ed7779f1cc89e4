//! The files that a daemon accepted last, in place of those of the machine.
ghost use Rattle.std.specs.Prelude.{◌≤◌, length};

use crate::anew::{has_no_files, paths_of};
use crate::kept_text::{Texts, files_in};
use cs_args::{CheckWords, RunWords};
use cs_civil::Bytes;
use cs_io::{CannotRead, Inputs, Reason};
use cs_machine::ToldFile;
use std::alloc::{AllocError, Global};
use std::rt::Files;

#[derive(Drop)]
struct KeptFile<'a> {
    path: &'a str,
    text: Bytes,
    /// How many of its bytes were read.
    at: usize,
}

impl KeptFile<'_> {
    fn read(&mut self, buf: &mut [u8]) -> usize
        ensures { result ≤ length buf.new }
    {
        let rest = self
            .text
            .as_slice()
            .get(self.at..)
            .unwrap_or(b"".as_slice());
        let n = rest.len().min(buf.len());
        buf[..n].copy_from_slice(&rest[..n]);
        self.at = if n == 0 { 0 } else { self.at.saturating_add(n) };
        n
    }
}

/// The files of `run` that a daemon of its folder of stamps accepted last, at the paths of the
/// words.
#[derive(Drop)]
pub struct KeptFiles<'a> {
    files: Vec<KeptFile<'a>>,
    has_failed: bool,
}

/// Whether they can be read again: none is standard input, a pipe, a device or a folder.
pub(crate) fn are_files<R: Files>(rt: &R, words: &CheckWords<'_>) -> bool {
    let paths = paths_of(words);
    !paths.contains(&"-") && !has_no_files(rt, &paths)
}

impl<'a> KeptFiles<'a> {
    fn add(&mut self, alloc: Global, path: &'a str, text: &[u8]) -> Result<(), AllocError> {
        let text = Bytes::from_slice(alloc, text)?;
        self.files.push(KeptFile { path, text, at: 0 })?;
        Ok(())
    }

    /// None too if there is an anacrontab at no path, or none at a path.
    fn of(alloc: Global, words: &CheckWords<'a>, texts: &Texts<'_>) -> Option<KeptFiles<'a>> {
        let mut kept = KeptFiles {
            files: Vec::new(alloc),
            has_failed: false,
        };
        kept.add(alloc, words.table, texts.table).ok()?;
        kept.add(alloc, words.declarations, texts.declarations)
            .ok()?;
        kept.add(alloc, words.certificate, texts.certificate).ok()?;
        match (words.anacrontab, texts.anacrontab) {
            (Some(path), Some(text)) => kept.add(alloc, path, text).ok()?,
            (None, None) => {}
            _ => return None,
        }
        Some(kept)
    }

    /// Reads them. None if there are none for words with these files, if a file of the words can't
    /// be read twice, or if memory runs out.
    pub fn read<R: Files>(rt: &R, alloc: Global, words: &RunWords<'a>) -> Option<KeptFiles<'a>> {
        if !are_files(rt, &words.check) {
            return None;
        }
        let file = ToldFile::accepted(alloc, words.stamps).ok()?;
        let text = file.read(rt, alloc).ok()?;
        let texts = files_in(alloc, text.as_slice())?;
        KeptFiles::of(alloc, &words.check, &texts)
    }
}

impl Inputs for KeptFiles<'_> {
    // It keeps no paths: a failure of one is a failure of each.
    ghost failed = { λ s _. s.has_failed };

    fn read(&mut self, path: &str, buf: &mut [u8]) -> Result<usize, CannotRead> {
        for file in &mut self.files {
            if file.path == path {
                return Ok(file.read(buf));
            }
        }
        self.has_failed = true;
        Err(CannotRead {
            reason: Reason::Absent,
        })
    }
}
