//! The root folder of a machine's tables.
ghost use Rattle.std.specs.Prelude.{◌≡◌, IfErr, IfOk, OnOk, Some};
ghost use Rattle.cs_io.specs.Files.{IsFresh};
ghost use Rattle.cs_gather.specs.Tables.{AreFound, IsFront};
ghost use Rattle.cs_gather.specs.Listing.{AreSomeRead, IsUnlisted};

use crate::below::{Shelf, Unlisted, names_at, push_crontab, push_shelf};
use crate::given::Given;
use crate::note::push_line;
use cs_io::{Folders, ReadFault, read_whole};
use std::alloc::Global;

/// How paths below the root folder begin.
pub(crate) fn front(root: &str) -> &str
    ensures { IsFront root.now result.now }
{
    if root == "-" {
        return "./-";
    }
    match root.strip_suffix('/') {
        Some(front) => front,
        None => root,
    }
}

/// Reads the root folder if it isn't there, for the error of the read.
fn confirm<I: Folders>(
    alloc: Global,
    inputs: &mut I,
    root: &str,
    is_there: bool,
) -> Result<(), Unlisted>
    ensures whole { I.whole inputs.new ≡ I.whole inputs.old }
    ensures fresh { OnOk result (IsFresh (I.whole inputs.old) (I.left inputs.old)
        → IsFresh (I.whole inputs.new) (I.left inputs.new)) }
    ensures fails { IfErr result (IsUnlisted (I.failed inputs.new) (I.reads inputs.new)) }
    ensures turn { AreSomeRead (I.reads inputs.old) (I.reads inputs.new) }
{
    if is_there {
        return Ok(());
    }
    match read_whole(alloc, inputs, root) {
        Ok(_) => Ok(()),
        Err(ReadFault::CannotRead(reason)) => {
            Err(Unlisted::CannotRead(String::from_str(alloc, root)?, reason))
        }
        Err(ReadFault::OutOfMemory) => Err(Unlisted::OutOfMemory),
    }
}

/// The tables below a root folder, in the order of gathering.
pub(crate) fn tables_below<I: Folders>(
    alloc: Global,
    inputs: &mut I,
    root: &str,
    notes: &mut Vec<u8>,
) -> Result<Vec<Given>, Unlisted>
    ensures found { IfOk result (λ found. AreFound I.tree (Some root.now) found.items) }
    ensures whole { I.whole inputs.new ≡ I.whole inputs.old }
    ensures fresh { OnOk result (IsFresh (I.whole inputs.old) (I.left inputs.old)
        → IsFresh (I.whole inputs.new) (I.left inputs.new)) }
    ensures fails { IfErr result (IsUnlisted (I.failed inputs.new) (I.reads inputs.new)) }
    ensures turn { AreSomeRead (I.reads inputs.old) (I.reads inputs.new) }
{
    // a folder named `-` is not standard input
    let folder = if root == "-" { "./-" } else { root };
    let is_there = names_at(alloc, inputs, folder)?.is_some();
    let front = front(root);
    inputs.look_below(alloc, front)?;
    let mut found = Vec::new(alloc);
    push_crontab(alloc, inputs, front, &mut found, notes)?;
    push_shelf(alloc, inputs, front, Shelf::CronD, &mut found, notes)?;
    push_shelf(alloc, inputs, front, Shelf::Crontabs, &mut found, notes)?;
    confirm(alloc, inputs, folder, is_there)?;
    if found.is_empty() {
        let note = b"note: there are no tables below ".as_slice();
        push_line(notes, &[note, root.as_bytes()])?;
    }
    Ok(found)
}
