//! Reads logs at paths.
ghost use Rattle.std.specs.Prelude.{◌≡◌, ◌⊎◌, Contains, IfErr, OnOk, map, true};
ghost use Rattle.cs_io.specs.Files.{AreReadInTurn, IsFresh, IsReadAlone, IsReadOut, IsTooLong, Reads};
ghost use Rattle.cs_io.specs.Reasons.{IsCannotRead};

use crate::log::Log;
use cs_io::{Inputs, MOST_READS, ReadFault, Reason};
use std::alloc::Global;

fn read_log<I: Inputs>(
    alloc: Global,
    inputs: &mut I,
    path: &str,
    log: &mut Log,
) -> Result<(), ReadFault>
    ensures works { OnOk result (I.failed inputs.new ≡ I.failed inputs.old) }
    ensures whole { I.whole inputs.new ≡ I.whole inputs.old }

    // a later read of this path begins at its start
    ensures fresh { OnOk result (IsFresh (I.whole inputs.old) (I.left inputs.old)
        → IsFresh (I.whole inputs.new) (I.left inputs.new)) }
    ensures fails { IfErr result (λ e. IsCannotRead e
        → (I.failed inputs.new path.now ≡ true)
        ⊎ ((I.failed inputs.new ≡ I.failed inputs.old)
        × IsReadOut path.now (I.reads inputs.old) (I.reads inputs.new)
        × IsTooLong path.now (I.left inputs.old))) }
    ensures alone { IsReadAlone path.now (I.reads inputs.old) (I.reads inputs.new) }
{
    let mut buf = [0u8; 4096];
    for _reads in 0..MOST_READS {
        match inputs.read(path, buf.as_mut_slice())? {
            0 => return Ok(log.end(alloc, path)?),
            n => log.bytes(alloc, &buf[..n])?,
        }
    }
    Err(ReadFault::CannotRead(Reason::Endless))
}

/// A log that can't be read, or out of memory.
#[derive(Clone, Copy)]
pub struct Unread<'a> {
    /// The path of the log.
    pub path: &'a str,
    /// Why it can't be read.
    pub fault: ReadFault,
}

/// Reads the logs one after the other, as a run may begin in one and end in a later one. A log that
/// has no end after [`MOST_READS`](cs_io::MOST_READS) reads can't be read. After an error nothing
/// is known of the jobs.
pub(crate) fn read_logs<'a, I: Inputs>(
    alloc: Global,
    inputs: &mut I,
    paths: &[&'a str],
    log: &mut Log,
) -> Result<(), Unread<'a>>
    ensures works { OnOk result (I.failed inputs.new ≡ I.failed inputs.old) }
    ensures whole { I.whole inputs.new ≡ I.whole inputs.old }

    // a later read of these paths begins at their starts
    ensures fresh { OnOk result (IsFresh (I.whole inputs.old) (I.left inputs.old)
        → IsFresh (I.whole inputs.new) (I.left inputs.new)) }
    ensures fails { IfErr result (λ e. IsCannotRead e.fault
        → (I.failed inputs.new e.path.now ≡ true)
        ⊎ ((before : Reads) × IsReadOut e.path.now before (I.reads inputs.new))) }
    ensures long { IsFresh (I.whole inputs.old) (I.left inputs.old)
        → IfErr result (λ e. IsCannotRead e.fault → (I.failed inputs.new e.path.now ≡ true)
        ⊎ ((I.failed inputs.new ≡ I.failed inputs.old)
        × IsTooLong e.path.now (I.whole inputs.old))) }
    ensures named { IfErr result (λ e. Contains (map (λ path. path.now) paths.now) e.path.now) }
    ensures turn { AreReadInTurn (map (λ path. path.now) paths.now)
        (I.reads inputs.old) (I.reads inputs.new) }
{
    match paths.split_first() {
        None => Ok(()),
        Some((path, later)) => match read_log(alloc, inputs, *path, log) {
            Ok(()) => read_logs(alloc, inputs, later, log),
            Err(fault) => Err(Unread { path: *path, fault }),
        },
    }
}
