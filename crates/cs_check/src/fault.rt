use cs_theorem::CheckFault;
use std::alloc::AllocError;

/// Why a plan wasn't accepted.
#[derive(Drop)]
pub enum CheckError {
    /// The certificate is refused for this fault.
    Fault(CheckFault),
    /// Memory ran out.
    OutOfMemory,
}

impl From<AllocError> for CheckError {
    ghost use Rattle.std.specs.Prelude.{◌≡◌};
    ghost use Rattle.cs_check.specs.declared.fault.CheckError.TheVariants.{OutOfMemory};

    ghost from_gives = { λ e r. r ≡ OutOfMemory };

    fn from(_error: AllocError) -> CheckError {
        CheckError::OutOfMemory
    }
}
