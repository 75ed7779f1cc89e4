//! Two seats on two threads under one lock.
ghost use Rattle.std.specs.Prelude.{◌≡◌};

use crate::desk::Desk;
use crate::plans::EMPTY;
use cs_history::Event;
use cs_keep::{Keep, Seat};
use std::alloc::Global;
use std::marker::Brand;
use std::process::Abort;
use std::sync::ledger::{Blank, Ledger};
use std::sync::{Mutex, Wait};
use std::thread;
use std::thread::Threads;

/// Makes the next minute, and one that is refused.
fn make_minute<L: Ledger>(keep: &mut Keep<L>, seat: &mut Seat<L>) {
    let present = keep.core().now().number();
    let _ = keep.step(seat, Event::Minute(present + 1));
    let _ = keep.step(seat, Event::Minute(present));
}

fn make_minutes<L: Ledger, R: Wait>(
    rt: &R,
    lock: &Mutex<Keep<L>>,
    seat: Seat<L>,
    count: u64,
) -> Seat<L> {
    let mut seat = seat;
    for _ in 0..count {
        let mut keep = lock.lock(rt);
        make_minute(&mut keep, &mut seat);
    }
    seat
}

/// The keep and both seats, after two threads have made minutes with them.
fn share<L: Ledger + Send + Sync, R: Threads + Wait + Sync>(
    rt: &R,
    keep: Keep<L>,
    first: Seat<L>,
    second: Seat<L>,
) -> (Keep<L>, Seat<L>, Seat<L>) {
    let shared = Mutex::new(keep);
    let lock = &shared;
    let (first, second) = thread::join(
        rt,
        move || make_minutes(rt, lock, first, 2_000),
        move || make_minutes(rt, lock, second, 3_000),
    );
    (shared.into_inner(), first, second)
}

/// Whether each has made its steps, and one of them the last.
fn are_shares<L: Ledger>(first: &Seat<L>, second: &Seat<L>) -> bool {
    (
        first.share(),
        second.share(),
        first.seen().max(second.seen()),
    ) == (2_000, 3_000, 5_000)
}

fn share_and_sum<L: Ledger + Send + Sync, R: Threads + Wait + Abort + Sync>(
    rt: &R,
    alloc: Global,
    blank: Blank,
)
    requires name { blank.name ≡ L.name }
    requires all { blank.parts ≡ L.parts }
    requires two { blank.parts ≡ 2 }
{
    let opened: Desk<L> = Desk::of(rt, alloc, blank, 2, &EMPTY, true);
    let Desk { keep, mut seat } = opened;
    let other = seat.split().expect(rt, "a second part");
    let (keep, mut seat, other) = share(rt, keep, seat, other);
    assert!(rt; are_shares(&seat, &other));
    seat.join(other);
    let desk = Desk { keep, seat };
    assert!(rt; desk.counts() == (5_000, 5_000, 5_000) && desk.seat.seen() == 5_000);
    drop(desk);
}

/// The total is the sum of both shares, and each event stands in the journal.
#[test]
fn two_threads(rt: HostRuntime) {
    share_and_sum::<Brand, _>(&rt, rt.alloc(), Blank::new(2));
}
