//! The script of the history in a daemon's log.
ghost use Rattle.std.specs.Prelude.{IfOk};
ghost use Rattle.cs_retrace.specs.Order.{IsInOrder};

use crate::entry::Entry;
use crate::trace::Trace;
use crate::writing::written;
use cs_table::text::first_line;
use std::alloc::{AllocError, Global};

/// The most minutes from the start of a script to its latest minute: a script of as many lines of
/// minutes is about 16 MiB long.
pub const MOST_MINUTES: u64 = 699_050;

fn in_order(events: Vec<Entry>) -> Result<Vec<Entry>, AllocError>
    ensures { IfOk result (λ ordered. IsInOrder events.items ordered.items) }
{
    let mut events = events;
    events.sort_by_key(|event| event.place())?;
    Ok(events)
}

/// Returns the script whose replay is the history in a log that `run --log` writes: that of its
/// last daemon, and of those before it that ended without saying so. It is empty if no line of the
/// log has a time, and none if it has more than [`MOST_MINUTES`].
///
/// The plan's clock is `offset` minutes ahead of UTC. A line that isn't known is ignored. Whether
/// the tables have the lines and jobs isn't looked at.
pub fn retrace(alloc: Global, offset: i16, log: &[u8]) -> Result<Option<Vec<u8>>, AllocError> {
    let mut trace = Trace::new(alloc);
    let mut rest = log;
    while !rest.is_empty() {
        let (line, more) = first_line(rest);
        trace.line(alloc, offset, line)?;
        rest = more;
    }
    let Some(opening) = trace.opening else {
        return Ok(Some(Vec::new(alloc)));
    };
    if trace.latest.saturating_sub(opening.0) > MOST_MINUTES {
        return Ok(None);
    }
    let events = in_order(trace.events)?;
    Ok(Some(written(
        alloc,
        (trace.first, trace.daemons),
        opening,
        events.as_slice(),
    )?))
}
