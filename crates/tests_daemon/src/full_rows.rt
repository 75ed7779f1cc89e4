//! A full journal.
use crate::desk::Desk;
use cs_civil::Minute;
use cs_history::{Event, Refusal};
use cs_keep::{MAX_ENTRIES, TickFault};
use std::process::Abort;
use std::sync::ledger::Ledger;

/// The first minute, the last that there is room for, and the one after it.
const FIRST: u64 = 28_401_180;

const LAST: u64 = 32_595_483;

const NEXT: u64 = 32_595_484;

fn fill<L: Ledger>(desk: &mut Desk<L>) -> Option<Refusal> {
    for minute in FIRST..=NEXT {
        let answer = desk.step(Event::Minute(minute));
        if answer.is_err() {
            return answer.err();
        }
    }
    None
}

fn is_full_for_a_tick<L: Ledger>(desk: &mut Desk<L>) -> bool {
    let Some(next) = Minute::new(NEXT) else {
        return false;
    };
    let last = desk.now();
    desk.tick(last, next) == Err(TickFault::HistoryFull)
}

pub(crate) fn fill_and_cut<L: Ledger, R: Abort>(rt: &R, desk: &mut Desk<L>) {
    assert!(rt; MAX_ENTRIES == 4_194_304 && fill(desk) == Some(Refusal::HistoryFull));
    let full = ((4_194_304, MAX_ENTRIES, 4_194_304), LAST);
    assert!(rt; desk.place() == full);
    assert!(rt; is_full_for_a_tick(desk) && desk.place() == full);
    assert!(rt; desk.cut() && desk.step(Event::Minute(NEXT)).is_ok());
    assert!(rt; desk.counts() == (4_194_305, 1, 4_194_305));
}
