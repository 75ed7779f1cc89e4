ghost use Rattle.std.specs.Prelude.{◌≡◌};
ghost use Rattle.cs_anacrontab.specs.Printed.{fault_text};

use thiserror::Error;

/// What is wrong with a line or its length, printed as number and name: `7 BadDelay`.
#[derive(Clone, Copy, Debug, PartialEq, Eq, Error)]
#[error("{}", self.text())]
pub enum JobFault {
    /// The table is longer than [`MAX_TABLE`](cs_table::MAX_TABLE), or the line longer than
    /// [`MAX_LINE`](cs_table::MAX_LINE).
    TooLong,
    /// The line holds a zero byte.
    NulByte,
    /// The line begins like a setting but isn't one.
    BadSetting,
    /// The word after `@` is none of `daily`, `weekly` and `monthly`.
    UnknownWord,
    /// The line ends where the delay, the identifier or the command should begin.
    MissingField,
    /// The period is not a number of days from 1 to [`MAX_PERIOD`](crate::MAX_PERIOD).
    BadPeriod,
    /// The delay is not a number of minutes from 0 to [`MAX_DELAY`](crate::MAX_DELAY).
    BadDelay,
    /// The identifier is longer than [`MAX_IDENTIFIER`](crate::MAX_IDENTIFIER), isn't UTF-8,
    /// contains `/`, or is `.` or `..`.
    BadIdentifier,
    /// A line above has the same identifier.
    TwiceNamed,
    /// The line ends with a backslash, with which anacrontab(5) would continue it on the next line.
    Continued,
    /// The job is one more than [`MAX_JOBS`](crate::MAX_JOBS).
    TooManyJobs,
}

impl JobFault {
    /// Returns its number and name, as printed.
    pub fn text(self) -> &'static str
        ensures { result.now ≡ fault_text self }
    {
        match self {
            JobFault::TooLong => "1 TooLong",
            JobFault::NulByte => "2 NulByte",
            JobFault::BadSetting => "3 BadSetting",
            JobFault::UnknownWord => "4 UnknownWord",
            JobFault::MissingField => "5 MissingField",
            JobFault::BadPeriod => "6 BadPeriod",
            JobFault::BadDelay => "7 BadDelay",
            JobFault::BadIdentifier => "8 BadIdentifier",
            JobFault::TwiceNamed => "9 TwiceNamed",
            JobFault::Continued => "10 Continued",
            JobFault::TooManyJobs => "11 TooManyJobs",
        }
    }
}

/// Why an anacrontab could not be read.
pub type AnacronFault = cs_table::TableFault<JobFault>;
