//! Looks up groups by their names.
ghost use Rattle.std.specs.Prelude.{◌≡◌, ℕ, List, IfOk, position, bytes_eq};
ghost use Rattle.std.specs.List.{list_any};
ghost use Rattle.cs_decl.specs.Faults.{is_unlisted};
ghost use Rattle.cs_decl.specs.NameSet.{is_unnamed};

use crate::entries::{AnacronEntry, CronEntry, Entries, GroupEntry};
use cs_civil::Bytes;
use indexmap::IndexSet;
use std::alloc::{AllocError, Global};

fn names_of<'a>(alloc: Global, groups: &'a [GroupEntry]) -> Result<IndexSet<&'a [u8]>, AllocError>
    ensures { IfOk result
        (λ names. (name : List ℕ)
        → list_any (λ k. bytes_eq name k.now) names.keys
        ≡ list_any (λ g. bytes_eq name g.name) groups.now) }
{
    let mut names = IndexSet::new(alloc);
    for group in groups {
        names.insert(group.name.as_slice())?;
    }
    Ok(names)
}

fn is_unnamed(names: &IndexSet<&[u8]>, group: &Option<Bytes>) -> bool
    ensures { result ≡ is_unnamed names.now.keys group.now }
{
    match group {
        Some(name) => !names.contains(name.as_slice()),
        None => false,
    }
}

fn unnamed_cron(names: &IndexSet<&[u8]>, cron: &[CronEntry]) -> Option<usize>
    ensures { result ≡ position (λ e. is_unnamed names.now.keys e.group) cron.now }
{
    cron.iter()
        .position(|entry| is_unnamed(names, &entry.group))
}

fn unnamed_anacron(names: &IndexSet<&[u8]>, anacron: &[AnacronEntry]) -> Option<usize>
    ensures { result ≡ position (λ e. is_unnamed names.now.keys e.group) anacron.now }
{
    anacron
        .iter()
        .position(|entry| is_unnamed(names, &entry.group))
}

pub(crate) fn unlisted_cron(alloc: Global, entries: &Entries) -> Result<Option<usize>, AllocError>
    ensures { IfOk result
        (λ o. o ≡ position (λ e. is_unlisted entries.now.groups e.group) entries.now.cron) }
{
    let names = names_of(alloc, entries.groups.as_slice())?;
    Ok(unnamed_cron(&names, entries.cron.as_slice()))
}

pub(crate) fn unlisted_anacron(
    alloc: Global,
    entries: &Entries,
) -> Result<Option<usize>, AllocError>
    ensures { IfOk result
        (λ o. o ≡ position (λ e. is_unlisted entries.now.groups e.group) entries.now.anacron) }
{
    let names = names_of(alloc, entries.groups.as_slice())?;
    Ok(unnamed_anacron(&names, entries.anacron.as_slice()))
}
