ghost use Rattle.std.specs.Prelude.{◌≡◌, IfOk, MatchOption};
ghost use Rattle.std.specs.Option.{option_map};
ghost use Rattle.cs_table.specs.Setting.{SettingLine};
ghost use Rattle.cs_owner.specs.Owners.{IsNoteOf, noted};

use cs_civil::Bytes;
use cs_crontab::{Entry, read_line};
use cs_table::Setting;
use cs_table::text::digits;
use std::alloc::{AllocError, Global};

/// What stands after `# NAME:LINE`.
pub(crate) fn noted<'t>(table: &[u8], line: &'t [u8]) -> Option<&'t [u8]>
    ensures { option_map (λ note. note.now) result ≡ noted table.now line.now }
{
    let behind = line
        .strip_prefix(b"# ")?
        .strip_prefix(table)?
        .strip_prefix(b":")?;
    let (_, note) = digits(behind);
    Some(note)
}

/// None if it's no setting, holds a `\`, or env(1) would take its name otherwise.
pub(crate) fn setting_in(
    alloc: Global,
    number: u32,
    note: &[u8],
) -> Result<Option<Setting>, AllocError>
    ensures { IfOk result (λ found. MatchOption found
        ((setting : SettingLine) → ¬ (IsNoteOf (number, note.now) setting))
        (IsNoteOf (number, note.now))) }
{
    let (name, value) = match read_line(note) {
        Ok(Entry::Setting(name, value)) => (name, value),
        Ok(Entry::Nothing) | Ok(Entry::Command(_, _)) | Err(_) => return Ok(None),
    };
    if note.contains(&b'\\') || name.contains(&b'=') || name.starts_with(b"-") {
        return Ok(None);
    }
    let name = Bytes::from_slice(alloc, name)?;
    let value = Bytes::from_slice(alloc, value)?;
    Ok(Some(Setting::new(number, name, value)))
}
