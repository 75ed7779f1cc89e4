ghost use Rattle.std.specs.Prelude.{◌≡◌, ◌≤◌, ◌<◌, ◌+◌, ◌^◌, ◌⊎◌, ℕ, List, Option, None, Bool};
ghost use Rattle.std.specs.Prelude.{true, IfOk, IfErr, IfSome, OnErr, OnOk, length};
ghost use Rattle.cs_io.specs.Files.{Gives, IsFresh, IsNextOf, IsReadAlone, IsReadOn, IsReadOut};
ghost use Rattle.cs_io.specs.Files.{IsTooLong};
ghost use Rattle.cs_io.specs.Reasons.{IsCannotRead};
ghost use Rattle.cs_io.specs.declared.inputs.ReadFault.TheVariants.{CannotRead as cannot_read, OutOfMemory as no_memory};

use crate::reason::Reason;
use std::alloc::{AllocError, AllocFailed, Global};

/// A path that cannot be read, and why.
#[derive(Clone, Copy, PartialEq, Eq)]
pub struct CannotRead {
    /// The machine's reason.
    pub reason: Reason,
}

/// Files by their paths, read from front to back. The path `-` is standard input.
pub trait Inputs {
    /// The content of a path from its front, if known.
    ghost whole: { Self → List ℕ → Option (List ℕ) } = { λ _ _. None };

    /// What the next reads of a path return up to its end, if known.
    ghost left: { Self → List ℕ → Option (List ℕ) } = { λ _ _. None };

    /// Whether a read of a path has failed.
    ghost failed: { Self → List ℕ → Bool };

    /// The paths of all reads so far, the latest first, if known.
    ghost reads: { Self → Option (List (List ℕ)) } = { λ _. None };

    /// Reads the next bytes of a path; 0 bytes at its end, after which a read begins at its front.
    fn read(&mut self, path: &str, buf: &mut [u8]) -> Result<usize, CannotRead>
        ensures bound { IfOk result (λ n. n ≤ length buf.new) }
        ensures bytes { IfOk result (λ n. IsNextOf path.now (whole self.old) (left self.old)
            (left self.new) n buf.new) }
        ensures whole { whole self.new ≡ whole self.old }
        ensures works { OnOk result (failed self.new ≡ failed self.old) }
        ensures fails { OnErr result (failed self.new path.now ≡ true) }
        ensures noted { IsReadOn path.now 1 (reads self.old) (reads self.new) };
}

/// Why an input was not read.
#[derive(Clone, Copy, PartialEq, Eq)]
pub enum ReadFault {
    /// A read failed, or the input has no end.
    CannotRead(Reason),
    /// Memory ran out.
    OutOfMemory,
}

impl From<CannotRead> for ReadFault {
    ghost from_gives = { λ c e. e ≡ cannot_read c.reason };

    fn from(error: CannotRead) -> ReadFault {
        ReadFault::CannotRead(error.reason)
    }
}

impl<T: Drop> From<AllocFailed<T>> for ReadFault {
    ghost from_gives = { λ _ e. e ≡ no_memory };

    fn from(_error: AllocFailed<T>) -> ReadFault {
        ReadFault::OutOfMemory
    }
}

impl From<AllocError> for ReadFault {
    ghost from_gives = { λ _ e. e ≡ no_memory };

    fn from(_error: AllocError) -> ReadFault {
        ReadFault::OutOfMemory
    }
}

/// The most reads of a path.
pub const MOST_READS: u32 = 16_777_217;

/// Reads all of a path, or more than `limit` bytes of it if it is longer: so an input without end
/// is left as soon as it is too long.
pub fn read_up_to<I: Inputs>(
    alloc: Global,
    inputs: &mut I,
    path: &str,
    limit: u32,
) -> Result<Vec<u8>, ReadFault>
    ensures bytes { IfOk result (λ v. Gives limit path.now (I.left inputs.old) v.items) }
    ensures works { OnOk result (I.failed inputs.new ≡ I.failed inputs.old) }
    ensures whole { I.whole inputs.new ≡ I.whole inputs.old }

    // a path read to its end, and each other one, is read from its front next
    ensures fresh { IfOk result (λ v. length v.items ≤ limit
        → IsFresh (I.whole inputs.old) (I.left inputs.old)
        → IsFresh (I.whole inputs.new) (I.left inputs.new)) }
    ensures fails { IfErr result (λ e. IsCannotRead e → I.failed inputs.new path.now ≡ true) }
    ensures alone { IsReadAlone path.now (I.reads inputs.old) (I.reads inputs.new) }
{
    let mut bytes = Vec::new(alloc);
    let mut buf = [0u8; 4096];
    for _reads in 0..u64::from(limit) + 1 {
        match inputs.read(path, buf.as_mut_slice()) {
            Err(error) => return Err(ReadFault::CannotRead(error.reason)),
            Ok(0) => return Ok(bytes),
            Ok(n) => bytes.extend_from_slice(&buf[..n])?,
        }
        if bytes.len() > limit as usize {
            return Ok(bytes);
        }
    }
    Ok(bytes)
}

/// Reads all of a path. An error too if it has no end after [`MOST_READS`] reads.
pub fn read_whole<I: Inputs>(
    alloc: Global,
    inputs: &mut I,
    path: &str,
) -> Result<Vec<u8>, ReadFault>
    ensures bytes { IfOk result (λ v.
        IfSome (I.left inputs.old path.now) (λ text. v.items ≡ text)) }
    ensures works { OnOk result (I.failed inputs.new ≡ I.failed inputs.old) }
    ensures whole { I.whole inputs.new ≡ I.whole inputs.old }

    // this path too is read from its front next
    ensures fresh { OnOk result (IsFresh (I.whole inputs.old) (I.left inputs.old)
        → IsFresh (I.whole inputs.new) (I.left inputs.new)) }
    ensures fails { IfErr result (λ e. IsCannotRead e
        → (I.failed inputs.new path.now ≡ true)
        ⊎ ((I.failed inputs.new ≡ I.failed inputs.old)
        × IsReadOut path.now (I.reads inputs.old) (I.reads inputs.new)
        × IsTooLong path.now (I.left inputs.old))) }
    ensures alone { IsReadAlone path.now (I.reads inputs.old) (I.reads inputs.new) }
{
    let mut bytes = Vec::new(alloc);
    let mut buf = [0u8; 4096];
    for _reads in 0..MOST_READS {
        match inputs.read(path, buf.as_mut_slice())? {
            0 => return Ok(bytes),
            n => bytes.extend_from_slice(&buf[..n])?,
        }
    }
    Err(ReadFault::CannotRead(Reason::Endless))
}
