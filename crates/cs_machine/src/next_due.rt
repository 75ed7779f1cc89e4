//! What a daemon's crontab has due next, after the minute that the machine's clock shows.
//!
//! While the daemon's clock waits for one that was put back, that run may have been already. In the
//! second in which a minute begins, a run that is due then is no longer named, though it may not
//! have started yet.

ghost use Rattle.std.specs.Prelude.{◌≡◌, ◌<◌};
ghost use Rattle.cs_machine.specs.Busy.{is_due_on};

use crate::setup::JobNote;
use cs_civil::{DayKind, Minute, kind_of};

/// 8 days, in minutes.
const AHEAD: u64 = 11_520;

/// False for a job of the anacrontab.
pub(crate) fn is_due_on(note: &JobNote, kind: DayKind, minute_of_day: u16) -> bool
    requires { minute_of_day < 1440 }
    ensures { result ≡ is_due_on note.now kind minute_of_day }
{
    match &note.when {
        Some(when) => note.zone.is_due_on(when, kind, minute_of_day),
        None => false,
    }
}

fn first_due(note: &JobNote, from: u64, end: u64) -> Option<Minute> {
    for number in from..end {
        let minute = Minute::new(number)?;
        if is_due_on(note, kind_of(minute.day()), minute.minute_of_day()) {
            return Some(minute);
        }
    }
    None
}

/// Minutes in which a job isn't due, so that each is looked at about once.
#[derive(Clone, Copy)]
pub(crate) struct QuietTime {
    from: u64,
    /// The first one after them.
    end: u64,
}

impl QuietTime {
    pub(crate) const NONE: QuietTime = QuietTime { from: 0, end: 0 };
}

/// Within the next 8 days.
pub(crate) fn next_due(note: &JobNote, quiet: &mut QuietTime, after: Minute) -> Option<Minute> {
    if note.when.is_none() {
        return None;
    }
    let first = after.number() + 1;
    let unknown = if quiet.from <= first && first <= quiet.end {
        quiet.end
    } else {
        first
    };
    let due = first_due(note, unknown, first + AHEAD);
    let end = match &due {
        Some(minute) => minute.number(),
        None => unknown.max(first + AHEAD),
    };
    *quiet = QuietTime { from: first, end };
    due
}
