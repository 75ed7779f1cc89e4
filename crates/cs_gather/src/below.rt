//! The tables below a root folder.
ghost use Rattle.std.specs.Prelude.{◌≡◌, ◌⊎◌, ◌++◌, [], ◌∷◌, All, Contains, IfErr, IfOk, IfSome, None, OnErr, OnOk, Some, codes, option_map, string_bytes};
ghost use Rattle.cs_files.specs.Trouble.{ends};
ghost use Rattle.cs_gather.specs.Tables.{IsBelow, IsFile, IsFileAt, found_table};
ghost use Rattle.cs_gather.specs.Listing.{AreAmong, FindsAllOn, FindsNamed, HasName, IsUnlisted, NoneRead};
ghost use Rattle.cs_gather.specs.Listing.{given_in, place_of, unlisted_trouble};

use crate::given::Given;
use crate::note::push_ignored;
use cs_civil::{Bytes, Sequence};
use cs_files::{Fault, Response};
use cs_io::{FileKind, Folders, ReadFault, Reason};
use cs_place::is_part_name;
use std::alloc::{AllocError, AllocFailed, Global};
use std::str;

/// Why the tables below a root folder are unknown.
#[derive(Drop)]
pub(crate) enum Unlisted {
    /// This path can't be read.
    CannotRead(String, Reason),
    OutOfMemory,
}

impl From<AllocError> for Unlisted {
    ghost use Rattle.cs_gather.specs.declared.below.Unlisted.TheVariants.{OutOfMemory};

    ghost from_gives = { λ _ e. e ≡ OutOfMemory };

    fn from(_error: AllocError) -> Unlisted {
        Unlisted::OutOfMemory
    }
}

impl<T: Drop> From<AllocFailed<T>> for Unlisted {
    ghost use Rattle.cs_gather.specs.declared.below.Unlisted.TheVariants.{OutOfMemory};

    ghost from_gives = { λ _ e. e ≡ OutOfMemory };

    fn from(_error: AllocFailed<T>) -> Unlisted {
        Unlisted::OutOfMemory
    }
}

impl Unlisted {
    /// The answer, after notes.
    pub(crate) fn response(&self, alloc: Global, notes: &[u8]) -> Result<Response, AllocError>
        ensures { IfOk result
            (λ r. option_map (ends notes.now) (unlisted_trouble self.now) ≡ Some r) }
    {
        match self {
            Unlisted::CannotRead(path, reason) => {
                Fault::CannotRead(path.as_str(), *reason).response(alloc, notes)
            }
            Unlisted::OutOfMemory => Err(AllocError),
        }
    }
}

/// A folder of tables below a root folder.
#[derive(Clone, Copy)]
pub(crate) enum Shelf {
    /// That of system tables.
    CronD,
    /// That of users' tables.
    Crontabs,
}

impl Shelf {
    /// Its path below the root folder, with a slash at the end.
    fn place(self) -> &'static str
        ensures { result.now ≡ place_of self }
    {
        match self {
            Shelf::CronD => "/etc/cron.d/",
            Shelf::Crontabs => "/var/spool/cron/crontabs/",
        }
    }

    /// The name of a table in it, or why a file of this name is ignored. Parts have names like
    /// those of system tables.
    pub(crate) fn name(self, name: &[u8]) -> Result<&str, &'static str>
        ensures name { IfOk result (λ text. text.now ≡ name.now) }
        ensures signs { OnOk result (HasName self name.now) }
        ensures refused { OnErr result (¬ (HasName self name.now)) }
    {
        match self {
            Shelf::CronD if !is_part_name(name) => {
                return Err("its name has other characters than letters, digits, _ and -");
            }
            Shelf::Crontabs if name.starts_with(b".".as_slice()) => {
                return Err("its name begins with a dot");
            }
            _ => {}
        }
        match str::from_utf8(name) {
            Ok(text) => Ok(text),
            Err(_) => Err("its name isn't UTF-8"),
        }
    }

    fn given(self, alloc: Global, path: String, name: &str) -> Result<Given, AllocError>
        ensures { IfOk result (λ given. given ≡ given_in self (string_bytes path) name.now) }
    {
        let below = joined(alloc, self.place(), name)?;
        match self {
            Shelf::CronD => Ok(Given::found(path, below, None)),
            Shelf::Crontabs => Ok(Given::found(path, below, Some(String::from_str(alloc, name)?))),
        }
    }
}

pub(crate) fn joined(alloc: Global, front: &str, rest: &str) -> Result<String, AllocError>
    ensures { IfOk result (λ path. string_bytes path ≡ front.now ++ rest.now) }
{
    let mut path = String::from_str(alloc, front)?;
    path.push_str(rest)?;
    Ok(path)
}

/// The path of a front and a name, and what it leads to; none if nothing is there.
pub(crate) fn found_at<I: Folders>(
    alloc: Global,
    inputs: &mut I,
    front: &str,
    name: &str,
) -> Result<(String, Option<FileKind>), Unlisted>
    ensures path { IfOk result (λ found. string_bytes found.0 ≡ front.now ++ name.now) }
    ensures kind { IfOk result (λ found. IfSome (I.tree.kind (front.now ++ name.now))
        (λ known. found.1 ≡ known)) }
    ensures stays { NoneRead I.whole I.left I.reads inputs.old inputs.new }
    ensures fails { IfErr result (IsUnlisted (I.failed inputs.new) (I.reads inputs.new)) }
{
    let path = joined(alloc, front, name)?;
    match inputs.kind_of(path.as_str()) {
        Ok(kind) => Ok((path, kind)),
        Err(ReadFault::CannotRead(reason)) => Err(Unlisted::CannotRead(path, reason)),
        Err(ReadFault::OutOfMemory) => Err(Unlisted::OutOfMemory),
    }
}

/// The names in a folder; none if there is no folder.
pub(crate) fn names_at<I: Folders>(
    alloc: Global,
    inputs: &mut I,
    path: &str,
) -> Result<Option<Sequence<Bytes>>, Unlisted>
    ensures value { IfOk result (λ found. IfSome (I.tree.names path.now)
        (λ known. found ≡ known)) }
    ensures stays { NoneRead I.whole I.left I.reads inputs.old inputs.new }
    ensures fails { IfErr result (IsUnlisted (I.failed inputs.new) (I.reads inputs.new)) }
{
    match inputs.names(alloc, path) {
        Ok(names) => Ok(names),
        Err(ReadFault::CannotRead(reason)) => {
            Err(Unlisted::CannotRead(String::from_str(alloc, path)?, reason))
        }
        Err(ReadFault::OutOfMemory) => Err(Unlisted::OutOfMemory),
    }
}

/// Adds the table, if a regular file is there; else notes that it is ignored.
fn push_found(
    kind: Option<FileKind>,
    given: Given,
    found: &mut Vec<Given>,
    notes: &mut Vec<u8>,
) -> Result<(), AllocError>
    ensures more { OnOk result
        ((found.new.items ≡ found.old.items) ⊎ (found.new.items ≡ found.old.items ++ given ∷ [])) }
    ensures file { IsFile kind → OnOk result (found.new.items ≡ found.old.items ++ given ∷ []) }
{
    let why = match kind {
        Some(FileKind::Regular | FileKind::Program) => {
            found.push(given)?;
            return Ok(());
        }
        Some(FileKind::Empty) => "it is empty",
        _ => "it is no regular file",
    };
    push_ignored(notes, given.path(), b"", why)
}

/// Adds the table `/etc/crontab`, if it is there.
pub(crate) fn push_crontab<I: Folders>(
    alloc: Global,
    inputs: &mut I,
    front: &str,
    found: &mut Vec<Given>,
    notes: &mut Vec<u8>,
) -> Result<(), Unlisted>
    ensures below { OnOk result (All (IsBelow front.now) found.old.items
        → All (IsBelow front.now) found.new.items) }
    ensures keeps { OnOk result (AreAmong found.old.items found.new.items) }
    ensures finds { OnOk result
        (IsFileAt I.tree (front.now ++ codes "/etc/crontab")
        → Contains found.new.items (found_table (front.now ++ codes "/etc/crontab")
        (codes "/etc/crontab") None)) }
    ensures stays { NoneRead I.whole I.left I.reads inputs.old inputs.new }
    ensures fails { IfErr result (IsUnlisted (I.failed inputs.new) (I.reads inputs.new)) }
{
    let below = String::from_str(alloc, "/etc/crontab")?;
    let (path, kind) = found_at(alloc, inputs, front, "/etc/crontab")?;
    match kind {
        Some(_) => Ok(push_found(kind, Given::found(path, below, None), found, notes)?),
        None => Ok(()),
    }
}

/// Adds the table, or notes that it is ignored.
fn push_named<I: Folders>(
    alloc: Global,
    inputs: &mut I,
    folder: &str,
    shelf: Shelf,
    name: &[u8],
    found: &mut Vec<Given>,
    notes: &mut Vec<u8>,
) -> Result<(), Unlisted>
    ensures below { (front : _) → folder.now ≡ front ++ place_of shelf
        → OnOk result (All (IsBelow front) found.old.items → All (IsBelow front) found.new.items) }
    ensures keeps { OnOk result (AreAmong found.old.items found.new.items) }
    ensures finds { OnOk result
        (FindsNamed I.tree folder.now shelf found.new.items name.now) }
    ensures stays { NoneRead I.whole I.left I.reads inputs.old inputs.new }
    ensures fails { IfErr result (IsUnlisted (I.failed inputs.new) (I.reads inputs.new)) }
{
    let name = match shelf.name(name) {
        Ok(name) => name,
        Err(why) => return Ok(push_ignored(notes, folder, name, why)?),
    };
    let (path, kind) = found_at(alloc, inputs, folder, name)?;
    let given = shelf.given(alloc, path, name)?;
    Ok(push_found(kind, given, found, notes)?)
}

/// Adds the tables in a folder, in the order of their names.
pub(crate) fn push_shelf<I: Folders>(
    alloc: Global,
    inputs: &mut I,
    front: &str,
    shelf: Shelf,
    found: &mut Vec<Given>,
    notes: &mut Vec<u8>,
) -> Result<(), Unlisted>
    ensures below { OnOk result (All (IsBelow front.now) found.old.items
        → All (IsBelow front.now) found.new.items) }
    ensures keeps { OnOk result (AreAmong found.old.items found.new.items) }
    ensures finds { OnOk result (FindsAllOn I.tree front.now shelf found.new.items) }
    ensures stays { NoneRead I.whole I.left I.reads inputs.old inputs.new }
    ensures fails { IfErr result (IsUnlisted (I.failed inputs.new) (I.reads inputs.new)) }
{
    let path = joined(alloc, front, shelf.place())?;
    let folder = path.as_str();
    let Some(names) = names_at(alloc, inputs, folder)? else {
        return Ok(());
    };
    for name in names.as_slice() {
        push_named(alloc, inputs, folder, shelf, name.as_slice(), found, notes)?;
    }
    Ok(())
}
