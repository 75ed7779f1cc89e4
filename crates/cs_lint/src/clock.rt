//! Lines of a crontab that are due where clocks change, and what Debian's cron(8) does with them.
use crate::changes::Change;
use crate::wanted::Wanted;
use cs_civil::{Minute, date_text};
use cs_diagnostics::{Done, Findings, Span, Words};
use cs_schedule::{Part, Schedule};
use std::alloc::Global;

/// cron(8) takes a change of so many minutes or more as a correction of the clock.
const THREE_HOURS: u64 = 180;

impl Change {
    /// Whether the command is due in the minutes of a change of summer time.
    fn meets(&self, schedule: &Schedule) -> bool {
        let (first, end) = (self.first.number(), self.end.number());
        if end.saturating_sub(first) >= THREE_HOURS {
            return false;
        }
        for number in first..end {
            match Minute::new(number) {
                Some(minute) if schedule.matches(minute) => return true,
                _ => {}
            }
        }
        false
    }

    /// What the clocks do, and what cron then does with a command, by whether its minute field
    /// begins with `*`.
    fn words(&self, alloc: Global, starred: bool) -> Words {
        let (first, end) = (date_text(self.first), date_text(self.end));
        let on = str::from_utf8(&first[..10]).unwrap_or("");
        let from = str::from_utf8(&first[11..]).unwrap_or("");
        let to = str::from_utf8(&end[11..]).unwrap_or("");
        let (show, run) = match (self.is_forward, starred) {
            (true, true) => ("skip", ": cron leaves these runs out"),
            (true, false) => (
                "skip",
                ": cron runs this right after, beside what is due then",
            ),
            (false, true) => ("show", " twice: cron runs this both times"),
            (false, false) => ("show", " twice: cron runs it only the first time"),
        };
        format!(in alloc; "on {on} the clocks {show} {from} to {to}{run}")
    }
}

fn first_met<'c>(
    changes: &'c [Change],
    is_forward: bool,
    schedule: &Schedule,
) -> Option<&'c Change> {
    for change in changes {
        if change.is_forward == is_forward && change.meets(schedule) {
            return Some(change);
        }
    }
    None
}

/// Reports the first change each way in whose minutes the command is due, unless its hour field
/// begins with `*`. Debian's cron runs a line with a fixed minute once, and one with `*` in its
/// minute field as the clocks show (its `cron(8)`).
pub(crate) fn find_changes(
    findings: &mut Findings,
    wanted: &Wanted<'_>,
    changes: &[Change],
    place: Span,
    schedule: &Schedule,
) -> Done {
    let Some(next) = changes.first() else {
        return Ok(());
    };
    if schedule.field(Part::Hour).begins_with_star() {
        return Ok(());
    }
    let starred = schedule.field(Part::Minute).begins_with_star();
    for is_forward in [next.is_forward, !next.is_forward] {
        if let Some(change) = first_met(changes, is_forward, schedule) {
            let words = change.words(findings.alloc, starred)?;
            wanted.odd(findings, place, "SummerTime", words.as_str())?;
        }
    }
    Ok(())
}
