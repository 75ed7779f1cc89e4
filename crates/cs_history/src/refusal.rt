ghost use Rattle.std.specs.Prelude.{◌≡◌};
ghost use Rattle.cs_history.specs.Printed.{refusal_text};
ghost use Rattle.cs_history.specs.declared.refusal.Refusal.TheVariants.{OutOfMemory};

use std::alloc::{AllocError, AllocFailed};
use thiserror::Error;

/// Why an event was refused, printed as number and name: `4 NotSettled`.
#[derive(Clone, Copy, Debug, PartialEq, Eq, Error)]
#[error("{}", self.text())]
pub enum Refusal {
    /// The daemon is down.
    NotUp,
    /// The daemon is up.
    AlreadyUp,
    /// The minute is not the next one, or is before the present one.
    WrongMinute,
    /// A job that is due has not begun, or a waiting run could have the lock.
    NotSettled,
    /// The job is not due now, or has begun.
    NotDue,
    /// The lock is held.
    LockHeld,
    /// No such run waits.
    NotWaiting,
    /// No such run is running.
    NotRunning,
    /// anacron would not start this job now.
    NotCatchable,
    /// The minute is not from 1970-01-02 to 9999-12-31.
    OutOfRange,
    /// The journal has no room for the event.
    HistoryFull,
    /// Memory ran out.
    OutOfMemory,
}

impl Refusal {
    /// Returns its number and name, as printed.
    pub fn text(self) -> &'static str
        ensures { result.now ≡ refusal_text self }
    {
        match self {
            Refusal::NotUp => "1 NotUp",
            Refusal::AlreadyUp => "2 AlreadyUp",
            Refusal::WrongMinute => "3 WrongMinute",
            Refusal::NotSettled => "4 NotSettled",
            Refusal::NotDue => "5 NotDue",
            Refusal::LockHeld => "6 LockHeld",
            Refusal::NotWaiting => "7 NotWaiting",
            Refusal::NotRunning => "8 NotRunning",
            Refusal::NotCatchable => "9 NotCatchable",
            Refusal::OutOfRange => "10 OutOfRange",
            Refusal::HistoryFull => "11 HistoryFull",
            Refusal::OutOfMemory => "out of memory",
        }
    }
}

impl From<AllocError> for Refusal {
    ghost from_gives = { λ _ e. e ≡ OutOfMemory };

    fn from(_e: AllocError) -> Refusal {
        Refusal::OutOfMemory
    }
}

impl<T: Drop> From<AllocFailed<T>> for Refusal {
    ghost from_gives = { λ _ e. e ≡ OutOfMemory };

    fn from(_e: AllocFailed<T>) -> Refusal {
        Refusal::OutOfMemory
    }
}
