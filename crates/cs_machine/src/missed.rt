use crate::next_due::is_due_on;
use crate::setup::JobNote;
use cs_civil::{Minute, kind_of, read_minute};

/// Of an outage: 366 days, in minutes.
const LOOKED_AT: u64 = 527_040;

const MINUTE_TEXT: usize = 16;

/// In a line like `outage 2024-09-13 23:30 to 2024-09-14 01:00`: the last minute before the outage,
/// and the one in which the daemon comes up.
fn outage_in(words: &[u8]) -> Option<(Minute, Minute)> {
    let behind = words.strip_prefix(b"outage ")?;
    let (latest, behind) = behind.split_at_checked(MINUTE_TEXT)?;
    let up = behind.strip_prefix(b" to ")?;
    Some((read_minute(latest).ok()?, read_minute(up).ok()?))
}

fn due_count(jobs: &[JobNote], minute: Minute) -> u64 {
    let kind = kind_of(minute.day());
    let mut count = 0u64;
    for note in jobs {
        if is_due_on(note, kind, minute.minute_of_day()) {
            count = count.saturating_add(1);
        }
    }
    count
}

/// How many runs of the crontab the outage in a line misses. 0 for any other line.
pub(crate) fn missed_by(words: &[u8], jobs: &[JobNote]) -> u64 {
    match outage_in(words) {
        Some((latest, up)) => due_after(jobs, latest, up),
        None => 0,
    }
}

/// Runs of the crontab that are due after `latest`, up to and with `up`. Only the first 366 days
/// count, so that the log isn't held up.
pub(crate) fn due_after(jobs: &[JobNote], latest: Minute, up: Minute) -> u64 {
    let first = latest.number() + 1;
    let end = first + up.number().saturating_sub(latest.number()).min(LOOKED_AT);
    let mut due = 0u64;
    for number in first..end {
        if let Some(minute) = Minute::new(number) {
            due = due.saturating_add(due_count(jobs, minute));
        }
    }
    due
}
