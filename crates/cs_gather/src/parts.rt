//! The parts that the commands of tables run by run-parts(8).
ghost use Rattle.cs_gather.specs.Listing.{NoneRead};

use crate::below::{Shelf, Unlisted, found_at, joined, names_at};
use crate::line::Gathered;
use crate::note::{push_at, push_ignored};
use crate::root::front;
use cs_civil::{Bytes, Sequence};
use cs_command::{RunParts, run_parts};
use cs_io::{FileKind, Folders};
use std::alloc::{AllocError, Global};

/// The names of the parts in a folder, in their order; none if there is no folder. Notes what
/// run-parts(8) doesn't run.
fn names_in<I: Folders>(
    alloc: Global,
    inputs: &mut I,
    path: &str,
    notes: &mut Vec<u8>,
) -> Result<Option<Vec<Bytes>>, Unlisted>
    ensures stays { NoneRead I.whole I.left I.reads inputs.old inputs.new }
{
    let Some(found) = names_at(alloc, inputs, path)? else {
        return Ok(None);
    };
    let slash = if path.ends_with('/') { "" } else { "/" };
    let folder = joined(alloc, path, slash)?;
    let mut names = Vec::new(alloc);
    for name in found.as_slice() {
        let why = match Shelf::CronD.name(name.as_slice()) {
            Ok(text) => match found_at(alloc, inputs, folder.as_str(), text)?.1 {
                Some(FileKind::Program) => None,
                Some(FileKind::Regular | FileKind::Empty) => Some("no one may execute it"),
                _ => Some("it is no regular file"),
            },
            Err(why) => Some(why),
        };
        match why {
            None => names.push(Bytes::from_slice(alloc, name.as_slice())?)?,
            Some(why) => push_ignored(notes, folder.as_str(), name.as_slice(), why)?,
        }
    }
    Ok(Some(names))
}

/// The parts of a command; empty if they are unknown.
fn parts_of<I: Folders>(
    alloc: Global,
    inputs: &mut I,
    front: &str,
    table: &str,
    command: &Gathered,
    notes: &mut Vec<u8>,
) -> Result<Sequence<Bytes>, AllocError>
    ensures stays { NoneRead I.whole I.left I.reads inputs.old inputs.new }
{
    let line = command.number;
    let none = Sequence::new(alloc);
    let unknown = b"warning: the parts of the command".as_slice();
    let (path, is_reversed) = match run_parts(command.command.as_slice()) {
        RunParts::Absent => return Ok(none),
        RunParts::Folder { path, is_reversed } => (path, is_reversed),
        RunParts::Unread(why) => {
            let rest: [&[u8]; 2] = [b" aren't known: ", why.as_bytes()];
            push_at(alloc, notes, unknown, line, table, &rest)?;
            return Ok(none);
        }
    };
    let folder = joined(alloc, front, path)?;
    match names_in(alloc, inputs, folder.as_str(), notes) {
        Ok(Some(names)) => {
            let mut names = names;
            if is_reversed {
                names.reverse();
            }
            return Ok(Sequence::from_vec(names));
        }
        Ok(None) => {
            let start = b"note: there are no parts of the command".as_slice();
            let rest: [&[u8]; 2] = [b": there is no folder ", folder.as_bytes()];
            push_at(alloc, notes, start, line, table, &rest)?;
        }
        Err(Unlisted::CannotRead(path, reason)) => {
            let why = reason.text().as_bytes();
            let rest: [&[u8]; 3] = [b" aren't known: can't read ", path.as_bytes(), why];
            push_at(alloc, notes, unknown, line, table, &rest)?;
        }
        Err(Unlisted::OutOfMemory) => return Err(AllocError),
    }
    Ok(none)
}

/// Whether the command runs the rest only where there is no anacron.
fn is_without_anacron(command: &[u8]) -> bool {
    command.starts_with(b"test -x /usr/sbin/anacron ||".as_slice())
        || command.starts_with(b"[ -x /usr/sbin/anacron ] ||".as_slice())
}

/// Notes a command that runs nothing, since anacron is there.
fn push_anacron<I: Folders>(
    alloc: Global,
    inputs: &mut I,
    front: &str,
    table: &str,
    command: &Gathered,
    notes: &mut Vec<u8>,
) -> Result<(), AllocError>
    ensures stays { NoneRead I.whole I.left I.reads inputs.old inputs.new }
{
    if !is_without_anacron(command.command.as_slice()) {
        return Ok(());
    }
    match found_at(alloc, inputs, front, "/usr/sbin/anacron") {
        Ok((path, Some(FileKind::Program))) => {
            let start = b"note: the command".as_slice();
            let end = b" is there: declare its parts at the job of anacron".as_slice();
            let rest: [&[u8]; 3] = [b" runs nothing, since ", path.as_bytes(), end];
            push_at(alloc, notes, start, command.number, table, &rest)
        }
        Ok(_) | Err(Unlisted::CannotRead(_, _)) => Ok(()),
        Err(Unlisted::OutOfMemory) => Err(AllocError),
    }
}

/// The parts of each command, if a root folder is given. Warns of folders that can't be read.
pub(crate) fn parts_asked<I: Folders>(
    alloc: Global,
    inputs: &mut I,
    root: Option<&str>,
    table: &str,
    commands: &[Gathered],
    notes: &mut Vec<u8>,
) -> Result<Vec<Sequence<Bytes>>, AllocError>
    ensures stays { NoneRead I.whole I.left I.reads inputs.old inputs.new }
{
    let mut parts = Vec::new(alloc);
    let Some(root) = root else {
        return Ok(parts);
    };
    let front = front(root);
    for command in commands {
        push_anacron(alloc, inputs, front, table, command, notes)?;
        parts.push(parts_of(alloc, inputs, front, table, command, notes)?)?;
    }
    Ok(parts)
}
