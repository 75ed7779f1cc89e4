ghost use Rattle.std.specs.Prelude.{◌≡◌, ◌+◌, ◌<◌, ◌≤◌, ℕ, IsTrue, false};
ghost use Rattle.cs_machine.specs.Busy.{IsBusy, IsOver};

use crate::next_due::is_due_on;
use crate::setup::JobNote;
use cs_civil::{Minute, kind_of};

/// Two days, in minutes.
const AHEAD: u64 = 2_880;

/// In minutes: no run is declared to take longer.
const BACK: u64 = 4_320;

/// `over`, raised by the runs that are due at this minute.
#[tactic(auto, using(crate::proofs::Lasting::over_with))]
fn over_after(jobs: &[JobNote], over: u64, minute: Minute) -> u64
    requires { IsOver jobs.now minute over }
    ensures { IsOver jobs.now (minute + 1) result }
{
    let kind = kind_of(minute.day());
    let mut over = over;
    for note in jobs {
        let end = minute.number().saturating_add(note.max);
        if is_due_on(note, kind, minute.minute_of_day()) && end > over {
            over = end;
        }
    }
    over
}

fn is_quiet(first: u64, over: u64, number: u64) -> bool
    ensures { result ≡ false → first ≤ number → number < over }
{
    first <= number && over <= number
}

/// By the longest times, in each minute of the next two days.
pub(crate) fn is_busy(jobs: &[JobNote], from: Minute) -> bool
    ensures { IsTrue result → (t : ℕ) → from ≤ t → t < from + 2880 → IsBusy jobs.now t }
{
    let first = from.number();
    let mut over = 0;
    for number in first.saturating_sub(BACK)..first + AHEAD {
        let Some(minute) = Minute::new(number) else {
            return false;
        };
        over = over_after(jobs, over, minute);
        if is_quiet(first, over, number) {
            return false;
        }
    }
    true
}
