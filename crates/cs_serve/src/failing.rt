//! The jobs whose last run failed.
ghost use Rattle.std.specs.Prelude.{◌≡◌, OnOk};
ghost use Rattle.cs_serve.specs.Failing.{called_at, is_quiet, remembered, without};

use cs_civil::Bytes;
use cs_machine::HookEvent;
use std::alloc::AllocError;

/// In seconds: a job that keeps failing calls once in so long.
const HOUR: u64 = 3_600;

/// The second of the last failure for which a command was started, if the last run of the job
/// failed.
pub(crate) fn called_at(failing: &[(Bytes, u64)], job: &[u8]) -> Option<u64>
    ensures { result ≡ called_at failing.now job.now }
{
    for known in failing {
        if known.0.as_slice() == job {
            return Some(known.1);
        }
    }
    None
}

/// Not if the clock was put back.
pub(crate) fn is_quiet(called: Option<u64>, now: u64) -> bool
    ensures { result ≡ is_quiet called now }
{
    match called {
        Some(called) => called <= now && now - called < HOUR,
        None => false,
    }
}

fn forget(failing: &mut Vec<(Bytes, u64)>, job: &[u8])
    ensures { failing.new.items ≡ without failing.old.items job.now }
{
    failing.retain(|known| known.0.as_slice() != job);
}

/// A job is known until a run of it ends with status 0.
pub(crate) fn remember(
    failing: &mut Vec<(Bytes, u64)>,
    job: Bytes,
    event: &HookEvent,
    is_quiet: bool,
    now: u64,
) -> Result<(), AllocError>
    ensures { OnOk result (failing.new.items
        ≡ remembered failing.old.items job event.now is_quiet now) }
{
    match event {
        HookEvent::Overrun { .. } | HookEvent::Limit { .. } => {}
        HookEvent::Success { .. } => forget(failing, job.as_slice()),
        HookEvent::Failure { .. } => if !is_quiet {
            forget(failing, job.as_slice());
            failing.push((job, now))?;
        },
    }
    Ok(())
}
