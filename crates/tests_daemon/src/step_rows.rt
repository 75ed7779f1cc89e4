//! Steps, seats, cuts and the closing.
ghost use Rattle.std.specs.Prelude.{◌≡◌};

use crate::desk::Desk;
use crate::plans::{EMPTY, checked};
use cs_history::{Event, Refusal, Reply, Run};
use cs_keep::{Kept, Seat};
use std::alloc::Global;
use std::marker::Brand;
use std::process::Abort;
use std::sync::ledger::{Blank, Ledger};

/// 2024-01-01 00:59, and 01:00.
const BEFORE: u64 = 28_401_179;

const DUE: u64 = 28_401_180;

/// Whether the seat has these parts, this share, and has seen this total.
fn is_seat<L: Ledger>(seat: &Seat<L>, parts: u64, share: u64, seen: u64) -> bool {
    (seat.parts(), seat.share(), seat.seen()) == (parts, share, seen)
}

fn step_twice<L: Ledger, R: Abort>(rt: &R, desk: &mut Desk<L>) {
    assert!(rt; desk.counts() == (0, 0, 0));
    assert!(rt; desk.step(Event::Minute(DUE)) == Ok(Reply::Clock));
    assert!(rt; desk.counts() == (1, 1, 1) && is_seat(&desk.seat, 2, 1, 1));
    assert!(rt; desk.step(Event::Minute(DUE)) == Err(Refusal::WrongMinute));
    assert!(rt; desk.counts() == (1, 1, 1) && desk.ends_with(0, &[Event::Minute(DUE)]));
}

fn split_twice<L: Ledger, R: Abort>(rt: &R, desk: &mut Desk<L>)
    requires { L.parts ≡ 2 }
{
    let other = desk.seat.split().expect(rt, "a second part");
    assert!(rt; is_seat(&other, 1, 0, 1) && is_seat(&desk.seat, 1, 1, 1));
    assert!(rt; desk.seat.split().is_none());
    desk.seat.join(other);
    assert!(rt; is_seat(&desk.seat, 2, 1, 1));
}

fn cut_once<L: Ledger, R: Abort>(rt: &R, desk: &mut Desk<L>) {
    assert!(rt; desk.cut() && desk.counts() == (1, 0, 1));
    assert!(rt; desk.base() == (DUE, true));
}

fn count_minutes<L: Ledger, R: Abort>(rt: &R, alloc: Global, blank: Blank)
    requires name { blank.name ≡ L.name }
    requires all { blank.parts ≡ L.parts }
    requires two { blank.parts ≡ 2 }
{
    let mut desk: Desk<L> = Desk::of(rt, alloc, blank, 2, &EMPTY, true);
    step_twice(rt, &mut desk);
    split_twice(rt, &mut desk);
    cut_once(rt, &mut desk);
    drop(desk);
}

/// A minute counts in total, journal and share, and is refused a second time; a seat is split and
/// joined; the journal is cut.
#[test]
fn minutes_are_counted(rt: HostRuntime) {
    count_minutes::<Brand, _>(&rt, rt.alloc(), Blank::new(2));
}

fn rest_of(kept: &Kept) -> (u64, usize, u64, u64, u8) {
    (
        kept.total(),
        kept.journal().len(),
        kept.base().now().number(),
        kept.core().now().number(),
        kept.checked().certificate().version(),
    )
}

fn close_keep<L: Ledger, R: Abort>(rt: &R, alloc: Global, blank: Blank)
    requires name { blank.name ≡ L.name }
    requires all { blank.parts ≡ L.parts }
    requires one { blank.parts ≡ 1 }
{
    let checked = checked(rt, alloc, &EMPTY);
    let opened: Option<Desk<L>> = Desk::open(alloc, blank, 1, &checked, true);
    let mut desk = opened.expect(rt, "memory");
    assert!(rt; desk.step(Event::Minute(DUE)).is_ok());
    let kept = desk.close(checked);
    assert!(rt; rest_of(&kept) == (1, 1, BEFORE, DUE, 1));
    drop(kept);
}

/// A closed keep leaves its journal and what was checked.
#[test]
fn closed(rt: HostRuntime) {
    close_keep::<Brand, _>(&rt, rt.alloc(), Blank::new(1));
}

pub(crate) fn run_once<L: Ledger, R: Abort>(rt: &R, desk: &mut Desk<L>) {
    let run = Run { job: 0, at: DUE };
    assert!(rt; desk.step(Event::Minute(DUE)).is_ok() && !desk.cut());
    assert!(rt; desk.step(Event::Begin(0)) == Ok(Reply::Started(run)));
    assert!(rt; !desk.cut() && desk.counts() == (2, 2, 2));
    assert!(rt; desk.base() == (BEFORE, true));
    assert!(rt; desk.step(Event::End(run)) == Ok(Reply::Ended(true)));
    assert!(rt; desk.cut() && desk.counts() == (3, 0, 3));
}
