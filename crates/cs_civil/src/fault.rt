ghost use Rattle.std.specs.Prelude.{◌≡◌};
ghost use Rattle.cs_civil.specs.Faults.{fault_text};

use thiserror::Error;

/// Why a text or a moment is no civil time here, printed as number and name: `1 NotADate`.
#[derive(Clone, Copy, Debug, PartialEq, Eq, Error)]
#[error("{}", self.text())]
pub enum CivilFault {
    /// The text isn't written `YYYY-MM-DD` or `YYYY-MM-DD HH:MM`, or the Gregorian calendar of the
    /// years 0000 to 9999 has no such date.
    NotADate,
    /// The date lies before 1970-01-02 or after 9999-12-31.
    OutOfRange,
}

impl CivilFault {
    /// Returns its number and name, as printed.
    pub fn text(self) -> &'static str
        ensures { result.now ≡ fault_text self }
    {
        match self {
            CivilFault::NotADate => "1 NotADate",
            CivilFault::OutOfRange => "2 OutOfRange",
        }
    }
}
