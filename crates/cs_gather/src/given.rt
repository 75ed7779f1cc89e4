//! Tables to gather.
ghost use Rattle.std.specs.Prelude.{◌≡◌, ◌++◌, OnOk, is_some, map, option_map, string_bytes};
ghost use Rattle.std.specs.List.{AllZip};
ghost use Rattle.cs_args.specs.Asked.{asked_gather};
ghost use Rattle.cs_gather.specs.Tables.{AreNamed, IsLastPart, IsUserFile, found_table, name_of};
ghost use Rattle.cs_gather.specs.Tables.{system_table, user_table};

use cs_args::GatherWords;
use std::alloc::{AllocError, Global};
use std::marker::Model;

/// A table to gather: a system table, or that of a user.
#[derive(Drop)]
pub(crate) struct Given {
    place: String,
    inner: Option<String>,
    whose: Option<String>,
}

impl Model for Given {
    ghost use Rattle.std.specs.Prelude.{option_map};
    ghost use Rattle.std.specs.Prelude.{string_bytes};
    ghost use Rattle.cs_gather.specs.Tables.{Given};

    ghost Value = { Given };

    ghost view = { λ a. record {
      path = string_bytes a.place;
      below = option_map string_bytes a.inner;
      user = option_map string_bytes a.whose;
    } };
}

impl Given {
    pub(crate) fn system(path: String) -> Given
        ensures { result ≡ system_table (string_bytes path) }
    {
        Given {
            place: path,
            inner: None,
            whose: None,
        }
    }

    pub(crate) fn user(path: String, user: String) -> Given
        ensures { result ≡ user_table (string_bytes path) (string_bytes user) }
    {
        Given {
            place: path,
            inner: None,
            whose: Some(user),
        }
    }

    /// A table below the root folder, with its path there; of this user, unless its lines name
    /// users.
    pub(crate) fn found(path: String, below: String, user: Option<String>) -> Given
        ensures { result ≡ found_table (string_bytes path) (string_bytes below)
            (option_map string_bytes user) }
    {
        Given {
            place: path,
            inner: Some(below),
            whose: user,
        }
    }

    pub(crate) fn path(&self) -> &str
        ensures { result.now ≡ self.now.path }
    {
        self.place.as_str()
    }

    /// Its name in comments.
    pub(crate) fn name(&self) -> &str
        ensures { result.now ≡ name_of self.now }
    {
        match &self.inner {
            Some(below) => below.as_str(),
            None => self.place.as_str(),
        }
    }

    pub(crate) fn is_found(&self) -> bool
        ensures { result ≡ is_some self.now.below }
    {
        self.inner.is_some()
    }

    /// Its user, unless its lines name users.
    pub(crate) fn owner(&self) -> Option<&str>
        ensures { option_map (λ user. user.now) result ≡ self.now.user }
    {
        match &self.whose {
            Some(user) => Some(user.as_str()),
            None => None,
        }
    }
}

/// What follows the last slash of a path, or all of it.
fn last_part(path: &str) -> &str
    ensures { IsLastPart path.now result.now }
{
    let mut part = path;
    while let Some((_, behind)) = part.split_once('/') {
        part = behind;
    }
    part
}

fn push_system(alloc: Global, paths: &[&str], tables: &mut Vec<Given>) -> Result<(), AllocError>
    ensures { OnOk result (tables.new.items
        ≡ tables.old.items ++ map system_table (map (λ path. path.now) paths.now)) }
{
    for path in paths {
        tables.push(Given::system(String::from_str(alloc, path)?))?;
    }
    Ok(())
}

/// The last part of each path is the user.
fn push_users(alloc: Global, paths: &[&str], tables: &mut Vec<Given>) -> Result<(), AllocError>
    ensures { OnOk result ((users : _) × (tables.new.items ≡ tables.old.items ++ users)
        × AllZip IsUserFile (map (λ path. path.now) paths.now) users) }
{
    for path in paths {
        let user = String::from_str(alloc, last_part(path))?;
        tables.push(Given::user(String::from_str(alloc, path)?, user))?;
    }
    Ok(())
}

/// Adds the tables of the words.
pub(crate) fn push_named(
    alloc: Global,
    request: &GatherWords<'_>,
    tables: &mut Vec<Given>,
) -> Result<(), AllocError>
    ensures { OnOk result ((named : _) × (tables.new.items ≡ tables.old.items ++ named)
        × AreNamed (asked_gather request.now) named) }
{
    push_system(alloc, &request.system, tables)?;
    push_users(alloc, &request.user, tables)
}
