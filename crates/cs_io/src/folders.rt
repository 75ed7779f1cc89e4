ghost use Rattle.std.specs.Prelude.{◌≡◌, ◌<◌, ◌≤◌, None, true, IfOk, IfErr, IfSome};
ghost use Rattle.std.specs.Prelude.{IsPermutation, OnOk, length, map};
ghost use Rattle.cs_io.specs.Folders.{IsInByteOrder, Tree, is_listed, names_in, unknown};
ghost use Rattle.cs_io.specs.Reasons.{IsCannotRead};

use crate::inputs::{Inputs, ReadFault};
use crate::reason::Reason;
use cs_civil::{Bytes, Sequence};
use std::alloc::{AllocError, Global};
use std::io::Read;

/// What a path leads to, after its links.
#[derive(Clone, Copy, PartialEq, Eq)]
pub enum FileKind {
    /// A regular file that no one may execute.
    Regular,
    /// A regular file that no one may execute, of 0 bytes as the machine says: also one of its
    /// kernel's, a read of which may wait for ever.
    Empty,
    /// A regular file that someone may execute: one of the bits 0o111 of its mode is set.
    Program,
    /// A folder.
    Folder,
    /// Something else: a FIFO, a socket, a device, or links in a circle.
    Other,
}

/// The most names of a folder that are listed.
pub const MOST_NAMES: usize = 65_536;

/// Folders by their paths. Only a folder is ever opened, so no name in one keeps a call waiting.
pub trait Folders: Inputs {
    /// What is known of them, which stays while the program runs.
    ghost tree: { Tree } = { unknown };

    /// From now on the links of each path that begins with this one are looked up below it: an
    /// absolute one begins there, and none leads above it. Nothing changes for an empty path.
    fn look_below(&mut self, alloc: Global, root: &str) -> Result<(), AllocError>
        ensures files { (Self.whole self.new ≡ Self.whole self.old)
            × (Self.left self.new ≡ Self.left self.old)
            × (Self.reads self.new ≡ Self.reads self.old) }
        ensures works { Self.failed self.new ≡ Self.failed self.old };

    /// What a path leads to, `None` if that is nothing.
    fn kind_of(&mut self, path: &str) -> Result<Option<FileKind>, ReadFault>
        ensures value { IfOk result (λ kind. IfSome (tree.kind path.now)
            (λ known. kind ≡ known)) }
        ensures files { (Self.whole self.new ≡ Self.whole self.old)
            × (Self.left self.new ≡ Self.left self.old)
            × (Self.reads self.new ≡ Self.reads self.old) }
        ensures works { OnOk result (Self.failed self.new ≡ Self.failed self.old) }
        ensures fails { IfErr result (λ e. IsCannotRead e
            → Self.failed self.new path.now ≡ true) };

    /// Whether others than its owner may write to what a path leads to, as the machine says: one of
    /// the bits 0o022 of its mode is set.
    fn is_open_to_others(&self, path: &str) -> bool;

    /// The names in a folder in the order of their bytes, `None` if there is nothing at its path.
    fn names(&mut self, alloc: Global, path: &str) -> Result<Option<Sequence<Bytes>>, ReadFault>
        ensures value { IfOk result (λ found. IfSome (tree.names path.now)
            (λ known. found ≡ known)) }
        ensures few { IfOk result (λ found. IfSome found (λ names. length names ≤ MOST_NAMES)) }
        ensures order { IfOk result (λ found. IfSome found IsInByteOrder) }
        ensures files { (Self.whole self.new ≡ Self.whole self.old)
            × (Self.left self.new ≡ Self.left self.old)
            × (Self.reads self.new ≡ Self.reads self.old) }
        ensures works { OnOk result (Self.failed self.new ≡ Self.failed self.old) }
        ensures fails { IfErr result (λ e. IsCannotRead e
            → Self.failed self.new path.now ≡ true) };
}

fn is_listed(name: &[u8]) -> bool
    ensures { result ≡ is_listed name.now }
{
    !name.is_empty() && name != b".".as_slice() && name != b"..".as_slice()
}

/// The most bytes of a folder's list, in which each name has 255 bytes and a NUL.
const MOST_BYTES: usize = 16_777_728;

/// The most reads of a folder's list, each of one name, and the one at its end.
const MOST_READS: usize = 65_539;

/// A NUL ends each name.
pub(crate) fn read_list<D: Read>(alloc: Global, folder: &mut D) -> Result<Vec<u8>, ReadFault>
    ensures { IfOk result (λ list. IfSome (D.remaining folder.old) (λ all. list.items ≡ all)) }
{
    let mut list = Vec::new(alloc);
    let mut buf = [0u8; 4096];
    for _reads in 0..MOST_READS {
        match folder.read(buf.as_mut_slice()) {
            Err(error) => return Err(ReadFault::CannotRead(Reason::of(&error))),
            Ok(0) => return Ok(list),
            Ok(n) => list.extend_from_slice(&buf[..n])?,
        }
        if list.len() > MOST_BYTES {
            break;
        }
    }
    Err(ReadFault::CannotRead(Reason::TooManyNames))
}

fn listed<'a>(alloc: Global, list: &'a [u8]) -> Result<Vec<&'a [u8]>, AllocError>
    ensures { IfOk result (λ names. map (λ name. name.now) names.items ≡ names_in list.now) }
{
    list.split(|byte| *byte == 0)
        .filter(|name| is_listed(name))
        .collect(alloc)
}

fn copied(alloc: Global, names: &[&[u8]]) -> Result<Sequence<Bytes>, AllocError>
    ensures { IfOk result (λ copies. copies ≡ map (λ name. name.now) names.now) }
{
    let mut copies = Sequence::new(alloc);
    for name in names {
        copies.push(Bytes::from_slice(alloc, name)?)?;
    }
    Ok(copies)
}

pub(crate) fn names_in_order(alloc: Global, list: &[u8]) -> Result<Sequence<Bytes>, ReadFault>
    ensures same { IfOk result (IsPermutation (names_in list.now)) }
    ensures few { IfOk result (λ names. length names ≤ MOST_NAMES) }
    ensures order { IfOk result IsInByteOrder }
    ensures fails { IfErr result (λ e. IsCannotRead e → MOST_NAMES < length (names_in list.now)) }
{
    let mut names = listed(alloc, list)?;
    if names.len() > MOST_NAMES {
        return Err(ReadFault::CannotRead(Reason::TooManyNames));
    }
    names.sort_unstable();
    Ok(copied(alloc, names.as_slice())?)
}
