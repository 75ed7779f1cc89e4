ghost use Rattle.std.specs.Prelude.{◌≡◌};
ghost use Rattle.cs_crontab.specs.Printed.{fault_text};

use thiserror::Error;

/// What is wrong with a line or its length, printed as number and name: `8 Reversed`.
#[derive(Clone, Copy, Debug, PartialEq, Eq, Error)]
#[error("{}", self.text())]
pub enum LineFault {
    /// The table is longer than [`MAX_TABLE`](cs_table::MAX_TABLE), or the line longer than
    /// [`MAX_LINE`](cs_table::MAX_LINE).
    TooLong,
    /// The line holds a zero byte.
    NulByte,
    /// The line begins like a setting but isn't one.
    BadSetting,
    /// The word after `@` is unknown.
    UnknownWord,
    /// The line ends where a field should begin.
    MissingField,
    /// There is neither a number nor the end of the field where one is required.
    BadNumber,
    /// The number is out of the field's range.
    OutOfField,
    /// The first number of a range is greater than its last.
    Reversed,
    /// The step is not a number, or is 0.
    BadStep,
    /// A step follows a single number.
    StepOnNumber,
    /// The line has no command.
    NoCommand,
    /// The command is one more than [`MAX_COMMANDS`](crate::MAX_COMMANDS).
    TooManyJobs,
}

impl LineFault {
    /// Returns its number and name, as printed.
    pub fn text(self) -> &'static str
        ensures { result.now ≡ fault_text self }
    {
        match self {
            LineFault::TooLong => "1 TooLong",
            LineFault::NulByte => "2 NulByte",
            LineFault::BadSetting => "3 BadSetting",
            LineFault::UnknownWord => "4 UnknownWord",
            LineFault::MissingField => "5 MissingField",
            LineFault::BadNumber => "6 BadNumber",
            LineFault::OutOfField => "7 OutOfField",
            LineFault::Reversed => "8 Reversed",
            LineFault::BadStep => "9 BadStep",
            LineFault::StepOnNumber => "10 StepOnNumber",
            LineFault::NoCommand => "11 NoCommand",
            LineFault::TooManyJobs => "12 TooManyJobs",
        }
    }
}

/// Why a crontab could not be read.
pub type TableFault = cs_table::TableFault<LineFault>;
