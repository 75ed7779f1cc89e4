ghost use Rattle.std.specs.Prelude.{◌≡◌, IfOk};
ghost use Rattle.cs_machine.specs.LastWord.{left_in};

use cs_civil::Bytes;
use cs_table::text::trim_end;
use std::alloc::{AllocError, Global};
use std::fs::File;
use std::io::ErrorKind;
use std::os::unix::fs::FileExt;

/// Which stamps a daemon that has ended left unwritten.
#[derive(Drop)]
pub enum StampsLeft {
    /// None, as far as it says.
    AllWritten,
    /// Those of these jobs, with commas between.
    Unwritten(Bytes),
    /// It ended before it could say, or that can't be read.
    Unknown,
}

/// So many bytes each time, so that a full disk has room for the last.
pub(crate) const ROOM: usize = 4_096;

const GOES_ON: &[u8] = b"a daemon goes on";

const UNWRITTEN: &[u8] = b"stamps not written: ";

#[tactic(auto, unfolding(crate::specs::LastWord::left_in))]
fn left_in(alloc: Global, text: &[u8]) -> Result<StampsLeft, AllocError>
    ensures { IfOk result (λ left. left ≡ left_in text.now) }
{
    if text.starts_with(GOES_ON) {
        return Ok(StampsLeft::Unknown);
    }
    if text.starts_with(UNWRITTEN) {
        let names = trim_end(&text[UNWRITTEN.len()..]);
        return Ok(StampsLeft::Unwritten(Bytes::from_slice(alloc, names)?));
    }
    Ok(StampsLeft::AllWritten)
}

/// Cut, or with blanks after it.
pub(crate) fn filled(what: &[u8]) -> [u8; 4_096] {
    let mut text = [b' '; ROOM];
    let len = what.len().min(ROOM);
    text[..len].copy_from_slice(&what[..len]);
    text
}

/// Reads what the daemon that had this lock has left there. Earlier versions left nothing.
pub fn read_left(alloc: Global, lock: &File) -> StampsLeft {
    let mut text = [b' '; ROOM];
    match lock.read_at(&mut text, 0) {
        Ok(len) => match left_in(alloc, &text[..len]) {
            Ok(left) => left,
            Err(AllocError) => StampsLeft::Unknown,
        },
        // earlier versions lock the folder
        Err(error) if error.kind() == ErrorKind::IsADirectory => StampsLeft::AllWritten,
        Err(_) => StampsLeft::Unknown,
    }
}
