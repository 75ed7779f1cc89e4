ghost use Rattle.std.specs.Prelude.{◌≡◌};
ghost use Rattle.cs_io.specs.Reasons.{reason_text};

use std::io;
use std::io::ErrorKind;

/// Why a path can't be read, as far as the machine says.
#[derive(Clone, Copy, PartialEq, Eq)]
pub enum Reason {
    /// There is nothing at this path.
    Absent,
    /// The user may not read it.
    NotAllowed,
    /// It is a folder.
    Folder,
    /// It isn't a folder.
    NoFolder,
    /// It is a folder with too many names.
    TooManyNames,
    /// It has no end after the most reads of a path.
    Endless,
    /// Another reason, or none.
    Unknown,
}

impl Reason {
    pub(crate) fn of(error: &io::Error) -> Reason {
        match error.kind() {
            ErrorKind::NotFound => Reason::Absent,
            ErrorKind::PermissionDenied => Reason::NotAllowed,
            ErrorKind::IsADirectory => Reason::Folder,
            _ => Reason::Unknown,
        }
    }

    /// Returns the text printed after the path: empty for `Unknown`.
    pub fn text(self) -> &'static str
        ensures { result.now ≡ reason_text self }
    {
        match self {
            Reason::Absent => ": there is no such file",
            Reason::NotAllowed => ": it isn't allowed",
            Reason::Folder => ": it is a folder",
            Reason::NoFolder => ": it is no folder",
            Reason::TooManyNames => ": it has more than 65536 names",
            Reason::Endless => ": it has no end",
            Reason::Unknown => "",
        }
    }
}
