ghost use Rattle.std.specs.Prelude.{◌≡◌, ◌++◌, Some, drop, string_bytes};
ghost use Rattle.std.specs.Prelude.{IfOk, OnOk, length, map, option_map, take, true, ◌+◌};
ghost use Rattle.cs_machine.specs.Files.{file_of};
ghost use Rattle.cs_machine.specs.Output.{AreOld, AreOthers, dashed, is_moment, job_text, name_in};
ghost use Rattle.cs_machine.specs.Output.{is_other_of, named_job, output_name, output_text};
ghost use Rattle.cs_machine.specs.Output.{plain, zeroed};

use crate::paths::{file_name, path_in};
use crate::pieces::piece;
use crate::setup::JobNote;
use crate::start_text::push_place;
use cs_civil::Bytes;
use std::alloc::{AllocError, Global};
use std::fs::{OpenFile, OpenOptions};
use std::io::ErrorKind;
use std::rt::Files;
use std::{fs, io};

/// A folder in which the output of each run has a file of its own: that of the run
/// `line 3 due 2024-09-13 23:30` of the job `backup` is `2024-09-13T23-30-line-3-backup`. So a job's
/// files have the same end, and are in the order of their minutes.
#[derive(Drop)]
pub struct OutputFolder {
    pub(crate) path: String,
    keep: u64,
    /// Of each job how the names of its runs begin, and its name.
    names: Vec<(Bytes, Bytes)>,
}

/// How a file's name begins, with `0` for each digit.
const SHAPE: &[u8] = b"0000-00-00T00-00";

/// So many bytes of a job's name are in that of a file.
const SHOWN: usize = 60;

fn dashed(byte: u8) -> u8
    ensures { result ≡ dashed byte }
{
    if byte == b':' { b'-' } else { byte }
}

fn plain(byte: u8) -> u8
    ensures { result ≡ plain byte }
{
    if byte.is_ascii_alphanumeric() || matches!(byte, b'.' | b'_' | b'-') {
        byte
    } else {
        b'_'
    }
}

fn push_dashed(text: &mut Vec<u8>, time: &[u8]) -> Result<(), AllocError>
    ensures { OnOk result (text.new.items ≡ text.old.items ++ map dashed time.now) }
{
    for byte in time {
        text.push(dashed(*byte))?;
    }
    Ok(())
}

fn push_plain(text: &mut Vec<u8>, name: &[u8]) -> Result<(), AllocError>
    ensures { OnOk result (text.new.items ≡ text.old.items ++ map plain name.now) }
{
    for byte in name {
        text.push(plain(*byte))?;
    }
    Ok(())
}

/// That of an anacron job is in the name of its runs.
fn push_job(text: &mut Vec<u8>, kind: &[u8], name: &[u8]) -> Result<(), AllocError>
    ensures { OnOk result (text.new.items ≡ text.old.items ++ job_text kind.now name.now) }
{
    if kind != b"line".as_slice() {
        return Ok(());
    }
    let (shown, _) = parts(name, SHOWN);
    text.push(b'-')?;
    push_plain(text, shown)
}

/// The name of the file for the output of a run, of a job with this name. An error too if the run's
/// name has fewer than five words.
pub(crate) fn output_name(alloc: Global, run: &[u8], name: &[u8]) -> io::Result<Bytes>
    ensures { IfOk result (λ file. output_name run.now name.now ≡ Some file) }
{
    let (Some(day), Some(time)) = (piece(run, b' ', 3), piece(run, b' ', 4)) else {
        return Err(io::Error::from(ErrorKind::InvalidInput));
    };
    let (Some(kind), Some(job)) = (piece(run, b' ', 0), piece(run, b' ', 1)) else {
        return Err(io::Error::from(ErrorKind::InvalidInput));
    };
    let mut file = Vec::from_slice(alloc, day)?;
    file.push(b'T')?;
    push_dashed(&mut file, time)?;
    file.push(b'-')?;
    file.extend_from_slice(kind)?;
    file.push(b'-')?;
    file.extend_from_slice(job)?;
    push_job(&mut file, kind, name)?;
    Ok(Bytes::from_vec(file))
}

/// An error too if that can't be a file's name.
fn path_of(alloc: Global, folder: &str, file: &[u8]) -> io::Result<String>
    ensures { IfOk result (λ path. string_bytes path ≡ file_of folder.now file.now) }
{
    Ok(path_in(alloc, folder, file_name(file)?)?)
}

/// Returns the path of the file for the output of a run, of a job with this name. An error if the
/// run's name has fewer than five words, its file can't have its name, or memory runs out.
pub fn output_path(alloc: Global, folder: &str, run: &[u8], name: &[u8]) -> io::Result<String>
    ensures { IfOk result (λ path. option_map (file_of folder.now) (output_name run.now name.now)
        ≡ Some (string_bytes path)) }
{
    let file = output_name(alloc, run, name)?;
    path_of(alloc, folder, file.as_slice())
}

fn names_of(alloc: Global, jobs: &[JobNote]) -> Result<Vec<(Bytes, Bytes)>, AllocError>
    ensures { IfOk result (λ names. names.items ≡ map named_job jobs.now) }
{
    let mut names = Vec::new(alloc);
    for note in jobs {
        let front = Bytes::from_slice(alloc, note.front.as_slice())?;
        let name = Bytes::from_slice(alloc, note.name.as_slice())?;
        names.push((front, name))?;
    }
    Ok(names)
}

fn name_in<'a>(names: &'a [(Bytes, Bytes)], run: &[u8]) -> &'a [u8]
    ensures { result.now ≡ name_in run.now names.now }
{
    for job in names {
        if run.starts_with(job.0.as_slice()) {
            return job.1.as_slice();
        }
    }
    b"".as_slice()
}

fn zeroed(byte: u8) -> u8
    ensures { result ≡ zeroed byte }
{
    if byte.is_ascii_digit() { b'0' } else { byte }
}

fn is_moment(text: &[u8]) -> bool
    ensures { result ≡ is_moment text.now }
{
    if text.len() != SHAPE.len() {
        return false;
    }
    for at in 0..SHAPE.len() {
        if zeroed(text[at]) != SHAPE[at] {
            return false;
        }
    }
    true
}

fn parts(text: &[u8], count: usize) -> (&[u8], &[u8])
    ensures front { result.0.now ≡ take count text.now }
    ensures behind { result.1.now ≡ drop count text.now }
{
    match text.split_at_checked(count) {
        Some(parts) => parts,
        None => (text, b"".as_slice()),
    }
}

fn is_other_of(file: &[u8], name: &[u8]) -> bool
    ensures { result ≡ is_other_of file.now name.now }
{
    let (moment, behind) = parts(name, SHAPE.len());
    let (_, wanted) = parts(file, SHAPE.len());
    name != file && is_moment(moment) && behind == wanted
}

fn add_other(
    alloc: Global,
    names: &mut Vec<String>,
    file: &[u8],
    name: &str,
) -> Result<(), AllocError>
    ensures others { AreOthers file.now names.old.items → AreOthers file.now names.new.items }
    ensures added { OnOk result (is_other_of file.now name.now ≡ true
        → length names.new.items ≡ length names.old.items + 1) }
{
    if !is_other_of(file, name.as_bytes()) {
        return Ok(());
    }
    let name = String::from_str(alloc, name)?;
    names.push(name)?;
    Ok(())
}

/// A name that can't be read or isn't UTF-8 is ignored.
fn add_others<R: Files>(
    rt: &R,
    alloc: Global,
    names: &mut Vec<String>,
    folder: &str,
    file: &[u8],
) -> io::Result<()>
    ensures { AreOthers file.now names.old.items → AreOthers file.now names.new.items }
{
    for entry in fs::read_dir(&(rt, alloc), folder)? {
        if let Ok(entry) = entry {
            add_other(alloc, names, file, entry.file_name())?;
        }
    }
    Ok(())
}

/// With two handles, for appending. Only a file is opened: a pipe would keep the daemon waiting.
fn open_twice<R: Files>(rt: &R, path: &str) -> io::Result<(R::File, R::File)> {
    match fs::symlink_metadata(rt, path) {
        Ok(found) => if !found.is_file() {
            return Err(io::Error::new(ErrorKind::InvalidInput, "no regular file is there"));
        },
        Err(error) => if error.kind() != ErrorKind::NotFound {
            return Err(error);
        },
    }
    let file = OpenOptions::new().append(true).create(true).open(rt, path)?;
    let other = file.try_clone()?;
    Ok((file, other))
}

impl OutputFolder {
    /// Returns the folder at that path, there or not, with `keep` files of each of these jobs, at
    /// least one.
    pub fn new(
        alloc: Global,
        path: &str,
        keep: u64,
        jobs: &[JobNote],
    ) -> Result<OutputFolder, AllocError>
        ensures path { IfOk result (λ folder. string_bytes folder.path ≡ path.now) }
        ensures keep { IfOk result (λ folder. folder.keep ≡ keep) }
        ensures names { IfOk result (λ folder. folder.names.items ≡ map named_job jobs.now) }
    {
        let path = String::from_str(alloc, path)?;
        let names = names_of(alloc, jobs)?;
        Ok(OutputFolder { path, keep, names })
    }

    fn old<R: Files>(&self, rt: &R, alloc: Global, file: &[u8]) -> io::Result<Vec<String>>
        ensures { IfOk result (λ names. AreOld file.now self.now.keep names.items) }
    {
        let mut names = Vec::new(alloc);
        add_others(rt, alloc, &mut names, self.path.as_str(), file)?;
        names.sort()?;
        let left = self.keep.saturating_sub(1);
        names.truncate((names.len() as u64).saturating_sub(left) as usize);
        Ok(names)
    }

    /// What can't be removed stays.
    fn make_room<R: Files>(&self, rt: &R, alloc: Global, file: &[u8]) -> io::Result<()> {
        for name in &self.old(rt, alloc, file)? {
            let path = path_of(alloc, self.path.as_str(), name.as_bytes())?;
            let _ = fs::remove_file(rt, path.as_str());
        }
        Ok(())
    }

    /// Opens the file of a run with two handles, after removing its job's oldest files, as many as
    /// needed. What can't be listed or removed stays.
    pub(crate) fn open<R: Files>(
        &self,
        rt: &R,
        alloc: Global,
        run: &[u8],
    ) -> io::Result<(R::File, R::File)> {
        let file = output_name(alloc, run, name_in(self.names.as_slice(), run))?;
        let path = path_of(alloc, self.path.as_str(), file.as_slice())?;
        let _ = self.make_room(rt, alloc, file.as_slice());
        open_twice(rt, path.as_str())
    }
}

pub(crate) fn push_output_fault(
    text: &mut Vec<u8>,
    run: &[u8],
    folder: &[u8],
    why: &[u8],
) -> Result<(), AllocError>
    ensures { OnOk result (text.new.items
        ≡ text.old.items ++ output_text run.now folder.now why.now) }
{
    text.extend_from_slice(b"can't keep the output of ")?;
    text.extend_from_slice(run)?;
    push_place(text, Some(folder))?;
    text.extend_from_slice(b": ")?;
    text.extend_from_slice(why)
}
