//! Processes of this machine, as `/proc` shows them (proc(5)).
ghost use Rattle.std.specs.Prelude.{◌≡◌, ◌++◌, ◌==◌, codes, false, IfSome, IsTrue};
ghost use Rattle.std.specs.List.{list_any};
ghost use Rattle.cs_machine.specs.Runs.{HasGone, IsStat, is_over};

use crate::paths::{file_name, path_in};
use crate::pieces::piece;
use crate::replacing::read_first;
use cs_civil::Bytes;
use memchr::memrchr;
use std::alloc::Global;
use std::io;
use std::io::ErrorKind;
use std::rt::Files;

/// In bytes, of a file of `/proc`.
const MOST: u64 = 4_096;

/// By their places after the program's name.
const STATE: usize = 1;

const START: usize = 20;

fn around_last_bracket(text: &[u8]) -> Option<(&[u8], &[u8])>
    ensures last { IfSome result (λ p. list_any (λ b. b == 41) p.1.now ≡ false) }
    ensures parts { IfSome result (λ p. text.now ≡ p.0.now ++ codes ")" ++ p.1.now) }
{
    let at = memrchr(b')', text)?;
    Some((&text[..at], &text[at + 1..]))
}

fn stat_of(text: &[u8]) -> Option<(&[u8], &[u8])>
    ensures { IfSome result (λ p. IsStat text.now p.0.now p.1.now) }
{
    let (_, behind) = around_last_bracket(text)?;
    let state = piece(behind, b' ', STATE)?;
    let start = piece(behind, b' ', START)?;
    Some((state, start))
}

fn is_over(state: &[u8]) -> bool
    ensures { result ≡ is_over state.now }
{
    state == b"Z".as_slice() || state == b"X".as_slice()
}

/// False where the text can't be read.
fn is_gone(start: &[u8], text: &[u8]) -> bool
    ensures { IsTrue result → HasGone start.now text.now }
{
    match stat_of(text) {
        Some((state, began)) => is_over(state) || began != start,
        None => false,
    }
}

fn read_stat<R: Files>(rt: &R, alloc: Global, process: &[u8]) -> io::Result<Vec<u8>> {
    let folder = path_in(alloc, "/proc", file_name(process)?)?;
    let path = path_in(alloc, folder.as_str(), "stat")?;
    read_first(rt, alloc, path.as_str(), MOST)
}

/// In clock ticks since the machine started.
pub(crate) fn start_of<R: Files>(rt: &R, alloc: Global, process: &[u8]) -> io::Result<Bytes> {
    match stat_of(read_stat(rt, alloc, process)?.as_slice()) {
        Some((_, start)) => Ok(Bytes::from_slice(alloc, start)?),
        None => Err(io::Error::from(ErrorKind::InvalidData)),
    }
}

/// False where that can't be found out.
pub(crate) fn has_ended<R: Files>(rt: &R, alloc: Global, process: &[u8], start: &[u8]) -> bool {
    match read_stat(rt, alloc, process) {
        Ok(text) => is_gone(start, text.as_slice()),
        Err(error) => error.kind() == ErrorKind::NotFound,
    }
}

/// What identifies this start of the machine (random(4)).
pub(crate) fn boot_of_machine<R: Files>(rt: &R, alloc: Global) -> io::Result<Bytes> {
    let text = read_first(rt, alloc, "/proc/sys/kernel/random/boot_id", MOST)?;
    Ok(Bytes::from_slice(alloc, text.as_slice().trim_ascii())?)
}
