ghost use Rattle.std.specs.Prelude.{◌≡◌, [], map, All, IfOk};
ghost use Rattle.cs_table.specs.Environment.{above, names_of, first_places, IsLast, put_all, shown};

use cs_civil::{Bytes, Sequence};
use indexmap::IndexMap;
use std::alloc::{AllocError, Global};
use std::marker::Model;

/// A setting of the environment.
#[derive(Drop)]
pub struct Setting {
    line: u32,
    key: Bytes,
    content: Bytes,
}

impl Model for Setting {
    ghost use Rattle.cs_table.specs.Setting.{SettingLine};

    ghost Value = { SettingLine };

    ghost view = { λ a. record { number = a.line; name = a.key; value = a.content } };
}

impl Setting {
    /// Returns the setting on that line, counted from 1.
    pub fn new(number: u32, name: Bytes, value: Bytes) -> Setting
        ensures { result ≡ record { number = number; name = name; value = value } }
    {
        Setting {
            line: number,
            key: name,
            content: value,
        }
    }

    /// Returns the number of the line, counted from 1 over all lines of the table.
    pub fn number(&self) -> u32
        ensures { result ≡ self.now.number }
    {
        self.line
    }

    /// Copies the setting.
    pub fn copy(&self, alloc: Global) -> Result<Setting, AllocError>
        ensures { IfOk result (λ setting. setting ≡ self.now) }
    {
        Ok(Setting {
            line: self.line,
            key: Bytes::from_slice(alloc, self.key.as_slice())?,
            content: Bytes::from_slice(alloc, self.content.as_slice())?,
        })
    }

    /// Returns the name, without its quotes.
    pub fn name(&self) -> &[u8]
        ensures { result.now ≡ self.now.name }
    {
        self.key.as_slice()
    }

    /// Returns the value, without its quotes.
    pub fn value(&self) -> &[u8]
        ensures { result.now ≡ self.now.value }
    {
        self.content.as_slice()
    }
}

/// Copies settings.
pub fn copy_settings(alloc: Global, settings: &[Setting]) -> Result<Sequence<Setting>, AllocError>
    ensures { IfOk result (λ copies. copies ≡ settings.now) }
{
    let mut copies = Sequence::new(alloc);
    for setting in settings {
        copies.push(setting.copy(alloc)?)?;
    }
    Ok(copies)
}

/// Each name once: in the place of its first setting, with the value of its last.
type Variables<'a> = IndexMap<&'a [u8], &'a [u8]>;

fn by_name<'a>(
    alloc: Global,
    settings: &'a [Setting],
    line: u32,
) -> Result<Variables<'a>, AllocError>
    ensures { IfOk result (λ variables.
        map shown variables.entries ≡ put_all line [] settings.now) }
{
    let mut variables = IndexMap::new(alloc);
    for setting in settings {
        if setting.number() < line {
            variables.insert(setting.name(), setting.value())?;
        }
    }
    Ok(variables)
}

fn copied(alloc: Global, variables: &Variables<'_>) -> Result<Vec<(Bytes, Bytes)>, AllocError>
    ensures { IfOk result (λ copies. copies.items ≡ map shown variables.now.entries) }
{
    let mut copies = Vec::new(alloc);
    for (name, value) in variables.iter() {
        copies.push((
            Bytes::from_slice(alloc, name)?,
            Bytes::from_slice(alloc, value)?,
        ))?;
    }
    Ok(copies)
}

/// Returns the environment of the line with that number: the settings above it (crontab(5)).
///
/// Each name comes once, in the place of its first setting, with the value of its last.
pub fn env_of(
    alloc: Global,
    settings: &[Setting],
    line: u32,
) -> Result<Sequence<(Bytes, Bytes)>, AllocError>
    ensures names { IfOk result
        (λ env. map (λ v. v.0) env ≡ first_places (names_of (above line settings.now))) }
    ensures values { IfOk result (All (IsLast (above line settings.now))) }
{
    let variables = by_name(alloc, settings, line)?;
    Ok(Sequence::from_vec(copied(alloc, &variables)?))
}
