ghost use Rattle.std.specs.Prelude.{◌≡◌};
ghost use Rattle.cs_report.specs.Printed.{fault_text};
ghost use Rattle.cs_report.specs.declared.script_fault.ScriptError.TheVariants.{OutOfMemory};

use std::alloc::{AllocError, AllocFailed};
use thiserror::Error;

/// What is wrong with a script or a line of one, printed as number and name: `3 BadDate`.
#[derive(Clone, Copy, Debug, PartialEq, Eq, Error)]
#[error("{}", self.text())]
pub enum ScriptFault {
    /// The script is longer than [`MAX_SCRIPT`](crate::MAX_SCRIPT).
    TooLong,
    /// The line has no form of a script, or is a second start, or a stamp late or a second time.
    BadLine,
    /// A date isn't one, or is out of range.
    BadDate,
    /// The line of that number has no command, or no job has the identifier.
    UnknownName,
    /// The first line that isn't ignored is not the start, or all lines are ignored.
    NoStart,
}

impl ScriptFault {
    /// Returns its number and name.
    pub fn text(self) -> &'static str
        ensures { result.now ≡ fault_text self }
    {
        match self {
            ScriptFault::TooLong => "1 TooLong",
            ScriptFault::BadLine => "2 BadLine",
            ScriptFault::BadDate => "3 BadDate",
            ScriptFault::UnknownName => "4 UnknownName",
            ScriptFault::NoStart => "5 NoStart",
        }
    }
}

/// Why a script could not be read.
#[derive(Clone, Copy, Debug, PartialEq, Eq, Error)]
pub enum ScriptError {
    /// The first line with a fault, from 1, or 0 if the script is too long or has no start.
    #[error("line {line}: {fault}")]
    At { line: u32, fault: ScriptFault },
    /// Memory ran out.
    #[error("out of memory")]
    OutOfMemory,
}

impl From<AllocError> for ScriptError {
    ghost from_gives = { λ _ e. e ≡ OutOfMemory };

    fn from(_e: AllocError) -> ScriptError {
        ScriptError::OutOfMemory
    }
}

impl<T: Drop> From<AllocFailed<T>> for ScriptError {
    ghost from_gives = { λ _ e. e ≡ OutOfMemory };

    fn from(_e: AllocFailed<T>) -> ScriptError {
        ScriptError::OutOfMemory
    }
}
