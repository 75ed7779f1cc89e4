ghost use Rattle.std.specs.Prelude.{◌≡◌};
ghost use Rattle.cs_claims.specs.Printed.{fault_text};
ghost use Rattle.cs_claims.specs.declared.fault.CertError.TheVariants.{OutOfMemory};

use std::alloc::{AllocError, AllocFailed};
use thiserror::Error;

/// What is wrong with a certificate, printed as number and name: `5 TooDeep`.
///
/// Of several faults, the one with the smallest number is returned.
#[derive(Clone, Copy, Debug, PartialEq, Eq, Error)]
#[error("{}", self.text())]
pub enum CertFault {
    /// The text is longer than [`MAX_CERTIFICATE`](crate::MAX_CERTIFICATE).
    TooLong,
    /// The text is not JSON, as `serde_json` reads it.
    NotJson,
    /// The version is a whole number other than 1, 2 and 3.
    BadVersion,
    /// A member is unknown, absent or of another type, a number isn't whole, or a list is of
    /// another length; or version 3 has a stretch, or more than what is left over at midnight.
    BadShape,
    /// A tree is deeper than [`MAX_DEPTH`](crate::MAX_DEPTH).
    TooDeep,
    /// A split's values are impossible there, or its minute is outside its range.
    BadSplit,
    /// A class that is named doesn't exist, or the stretches don't rise.
    BadClass,
    /// A list doesn't rise, or one of its numbers is out of range.
    BadEntry,
    /// There are more classes than [`MAX_CLASSES`](crate::MAX_CLASSES), or in version 3 than
    /// [`MAX_KIND_CLASSES`](crate::MAX_KIND_CLASSES).
    TooManyClasses,
    /// A leaf has more entries than [`MAX_ENTRIES`](crate::MAX_ENTRIES).
    LeafTooLong,
}

impl CertFault {
    /// Returns its number and name, as printed.
    pub fn text(self) -> &'static str
        ensures { result.now ≡ fault_text self }
    {
        match self {
            CertFault::TooLong => "1 TooLong",
            CertFault::NotJson => "2 NotJson",
            CertFault::BadVersion => "3 BadVersion",
            CertFault::BadShape => "4 BadShape",
            CertFault::TooDeep => "5 TooDeep",
            CertFault::BadSplit => "6 BadSplit",
            CertFault::BadClass => "7 BadClass",
            CertFault::BadEntry => "8 BadEntry",
            CertFault::TooManyClasses => "9 TooManyClasses",
            CertFault::LeafTooLong => "10 LeafTooLong",
        }
    }
}

/// Why a certificate could not be read.
#[derive(Clone, Copy, Debug, PartialEq, Eq, Error)]
pub enum CertError {
    /// The text or the parts have this fault.
    #[error("{0}")]
    Fault(CertFault),
    /// Memory ran out.
    #[error("out of memory")]
    OutOfMemory,
}

impl From<AllocError> for CertError {
    ghost from_gives = { λ _ e. e ≡ OutOfMemory };

    fn from(_e: AllocError) -> CertError {
        CertError::OutOfMemory
    }
}

impl<T: Drop> From<AllocFailed<T>> for CertError {
    ghost from_gives = { λ _ e. e ≡ OutOfMemory };

    fn from(_e: AllocFailed<T>) -> CertError {
        CertError::OutOfMemory
    }
}
