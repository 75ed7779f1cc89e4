ghost use Rattle.std.specs.Prelude.{◌≡◌};
ghost use Rattle.cs_system.specs.Printed.{fault_text};

use cs_crontab::LineFault;
use thiserror::Error;

/// A fault of a line or of its length. Displays as number and name: `13 BadUser`.
#[derive(Clone, Copy, Debug, PartialEq, Eq, Error)]
#[error("{}", self.text())]
pub enum SystemFault {
    /// A fault that a user's table may have, too.
    Line(LineFault),
    /// The user contains `/`, `=`, a quote or a control byte (this profile).
    BadUser,
}

impl SystemFault {
    /// Returns its number and name, as printed.
    pub fn text(self) -> &'static str
        ensures { result.now ≡ fault_text self }
    {
        match self {
            SystemFault::Line(fault) => fault.text(),
            SystemFault::BadUser => "13 BadUser",
        }
    }
}
