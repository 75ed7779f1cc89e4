//! The setting by which a gathered table is known.
ghost use Rattle.std.specs.Prelude.{◌≡◌, ◌∷◌, [], IsTrue, bytes_eq};
ghost use Rattle.cs_place.specs.Mark.{is_gathered, mark, mark_name};

use cs_table::Setting;

/// The first line of a gathered table.
pub const MARK: &str = "CRONSAFE_TABLE=gathered\n";

/// Whether the name is that of the mark.
pub fn is_mark_name(name: &[u8]) -> bool
    ensures { result ≡ bytes_eq name.now mark_name }
{
    name == b"CRONSAFE_TABLE".as_slice()
}

/// Whether a table with these settings was gathered: one is named `CRONSAFE_TABLE` (this profile).
pub fn is_gathered(settings: &[Setting]) -> bool
    ensures { result ≡ is_gathered settings.now }
{
    settings.iter().any(|setting| is_mark_name(setting.name()))
}

fn is_mark(setting: &Setting) -> bool
    ensures { IsTrue result → setting.now ≡ mark }
{
    if setting.number() != 1 || setting.value() != b"gathered".as_slice() {
        return false;
    }
    is_mark_name(setting.name())
}

/// Whether the mark, on line 1, is the only setting.
pub fn are_mark(settings: &[Setting]) -> bool
    ensures { IsTrue result → settings.now ≡ mark ∷ [] }
{
    match settings {
        [setting] => is_mark(setting),
        _ => false,
    }
}
