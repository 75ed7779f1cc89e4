//! The events of ticks.
use crate::desk::Desk;
use crate::plans::minute;
use cs_history::{Event, Run};
use cs_keep::TickFault;
use std::process::Abort;
use std::sync::ledger::Ledger;

/// Both minutes are counted from 2024-01-01 00:00. `None` if there is no such minute.
fn tick<L: Ledger>(desk: &mut Desk<L>, last: u64, next: u64) -> Option<Result<(), TickFault>> {
    Some(desk.tick(minute(last)?, minute(next)?))
}

fn makes<L: Ledger>(desk: &mut Desk<L>, last: u64, next: u64, events: &[Event]) -> bool {
    let (_, from, _) = desk.counts();
    tick(desk, last, next) == Some(Ok(())) && desk.ends_with(from, events)
}

pub(crate) fn wait_for_lock<L: Ledger, R: Abort>(rt: &R, desk: &mut Desk<L>) {
    let at = 28_401_180;
    let begins = [Event::Minute(at), Event::Begin(0), Event::Begin(1)];
    assert!(rt; makes(desk, 59, 60, &begins));
    assert!(rt; desk.step(Event::End(Run { job: 0, at })).is_ok());
    assert!(rt;
        makes(
            desk,
            60,
            61,
            &[Event::Got(1, at), Event::Minute(28_401_181)]
        )
    );
    assert!(rt; tick(desk, 60, 61) == Some(Err(TickFault::ClockBack)));
    assert!(rt; tick(desk, 61, 60) == Some(Err(TickFault::ClockBack)));
    assert!(rt; desk.counts() == (6, 6, 6));
}

/// Up at 00:59, away until 01:10, and a run a minute later.
pub(crate) fn catch_up<L: Ledger, R: Abort>(rt: &R, desk: &mut Desk<L>) {
    assert!(rt; makes(desk, 59, 59, &[Event::Up(28_401_179)]));
    assert!(rt; makes(desk, 59, 70, &[Event::Down, Event::Up(28_401_190)]));
    assert!(rt; makes(desk, 70, 71, &[Event::Minute(28_401_191), Event::Catch(0)]));
    assert!(rt; makes(desk, 71, 71, &[]) && desk.counts() == (5, 5, 5));
}
