ghost use Rattle.std.specs.Prelude.{◌≡◌, IfOk, option_map};
ghost use Rattle.std.specs.List.{find};
ghost use Rattle.cs_machine.specs.Home.{home_of, home_on, is_entry, lines_of};

use crate::pieces::{piece, piece_count};
use crate::replacing::read_first;
use cs_civil::{Bytes, push_number};
use std::alloc::{AllocError, Global};
use std::fs;
use std::os::unix::fs::MetadataExt;
use std::rt::Files;

/// A user's name and folder, as `/etc/passwd` has them (passwd(5)).
#[derive(Drop)]
pub struct Home {
    pub(crate) user: Bytes,
    pub(crate) folder: Bytes,
}

/// The most bytes of a file of users.
pub(crate) const MOST: u64 = 1_048_576;

pub(crate) const COLON: u8 = b':';

pub(crate) const FIELDS: usize = 7;

/// The place of a field, from 0 (passwd(5)), as the next two.
pub(crate) const USER: usize = 0;

const NUMBER: usize = 2;

const FOLDER: usize = 5;

impl Home {
    /// Returns this process's effective user, by the first entry of seven fields in `/etc/passwd`
    /// with the user's number. None if the first mebibyte has none, if the file or the process
    /// can't be looked at, or if memory runs out.
    pub fn of_process<R: Files>(rt: &R, alloc: Global) -> Option<Home> {
        let user = fs::metadata(rt, "/proc/self").ok()?.uid();
        let text = read_first(rt, alloc, "/etc/passwd", MOST).ok()?;
        home_of(alloc, user, text.as_slice()).ok()?
    }
}

fn home_of(alloc: Global, user: u32, text: &[u8]) -> Result<Option<Home>, AllocError>
    ensures { IfOk result (λ home. home ≡ home_of user text.now) }
{
    let mut number = Vec::new(alloc);
    push_number(alloc, &mut number, u128::from(user))?;
    match entry_of(text, FIELDS, NUMBER, number.as_slice()) {
        Some(line) => home_on(alloc, line),
        None => Ok(None),
    }
}

pub(crate) fn home_on(alloc: Global, line: &[u8]) -> Result<Option<Home>, AllocError>
    ensures { IfOk result (λ home. home ≡ home_on line.now) }
{
    let (Some(user), Some(folder)) = (piece(line, COLON, USER), piece(line, COLON, FOLDER)) else {
        return Ok(None);
    };
    Ok(Some(Home {
        user: Bytes::from_slice(alloc, user)?,
        folder: Bytes::from_slice(alloc, folder)?,
    }))
}

pub(crate) fn entry_of<'t>(
    text: &'t [u8],
    fields: usize,
    place: usize,
    wanted: &[u8],
) -> Option<&'t [u8]>
    ensures { option_map (λ line. line.now) result
        ≡ find (is_entry fields place wanted.now) (lines_of text.now) }
{
    text.split(|byte| *byte == b'\n')
        .find(|line| is_entry(line, fields, place, wanted))
}

fn is_entry(line: &[u8], fields: usize, place: usize, wanted: &[u8]) -> bool
    ensures { result ≡ is_entry fields place wanted.now line.now }
{
    if piece_count(line, COLON) != fields {
        return false;
    }
    match piece(line, COLON, place) {
        Some(field) => field == wanted,
        None => false,
    }
}
