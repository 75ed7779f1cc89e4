ghost use Rattle.std.specs.Prelude.{◌≡◌};
ghost use Rattle.cs_json.specs.declared.fault.Misread.TheVariants.{Memory};

use std::alloc::{AllocError, AllocFailed};

/// What is wrong with a text or a JSON value.
#[derive(Clone, Copy, PartialEq, Eq)]
pub enum JsonFault {
    /// The bytes aren't JSON as `serde_json` reads it: UTF-8, one value, nested at most 127 deep.
    NotJson,
    /// The value has another type or length, or other members, than it should.
    BadShape,
}

/// Why nothing was read.
#[derive(Drop)]
pub enum Misread {
    /// Memory ran out.
    Memory,
    /// The text or the value has this fault.
    Fault(JsonFault),
}

/// The error for a value of another shape.
pub const BAD_SHAPE: Misread = Misread::Fault(JsonFault::BadShape);

impl From<AllocError> for Misread {
    ghost from_gives = { λ _ e. e ≡ Memory };

    fn from(_error: AllocError) -> Misread {
        Misread::Memory
    }
}

impl<T: Drop> From<AllocFailed<T>> for Misread {
    ghost from_gives = { λ _ e. e ≡ Memory };

    fn from(_error: AllocFailed<T>) -> Misread {
        Misread::Memory
    }
}
