//! The rows of a keep with one part, each at a desk of its own.
ghost use Rattle.std.specs.Prelude.{◌≡◌};

use crate::desk::Desk;
use crate::full_rows::fill_and_cut;
use crate::plans::{CATCHING_UP, EMPTY, HOURLY, Texts, WAITING};
use crate::short_rows::{step_short, tick_short};
use crate::step_rows::run_once;
use crate::tick_rows::{catch_up, wait_for_lock};
use std::alloc::Global;
use std::marker::Brand;
use std::process::Abort;
use std::sync::ledger::{Blank, Ledger};

#[derive(Clone, Copy)]
enum Row {
    Full,
    Run,
    Wait,
    CatchUp,
    ShortSteps,
    ShortTicks,
}

impl Row {
    /// The plan, and whether the keep starts up.
    fn opening(self) -> (&'static Texts, bool) {
        match self {
            Row::Full | Row::ShortSteps => (&EMPTY, true),
            Row::Run => (&HOURLY, true),
            Row::Wait => (&WAITING, true),
            Row::CatchUp => (&CATCHING_UP, false),
            Row::ShortTicks => (&HOURLY, false),
        }
    }

    fn go<L: Ledger, R: Abort>(self, rt: &R, alloc: Global, desk: &mut Desk<L>) {
        match self {
            Row::Full => fill_and_cut(rt, desk),
            Row::Run => run_once(rt, desk),
            Row::Wait => wait_for_lock(rt, desk),
            Row::CatchUp => catch_up(rt, desk),
            Row::ShortSteps => step_short(rt, alloc, desk),
            Row::ShortTicks => tick_short(rt, alloc, desk),
        }
    }
}

fn open_and_go<L: Ledger, R: Abort>(rt: &R, alloc: Global, blank: Blank, row: Row)
    requires name { blank.name ≡ L.name }
    requires all { blank.parts ≡ L.parts }
    requires one { blank.parts ≡ 1 }
{
    let (texts, up) = row.opening();
    let mut desk: Desk<L> = Desk::of(rt, alloc, blank, 1, texts, up);
    row.go(rt, alloc, &mut desk);
    drop(desk);
}

fn go<R: Abort>(rt: &R, alloc: Global, row: Row) {
    open_and_go::<Brand, R>(rt, alloc, Blank::new(1), row);
}

/// 4,194,304 minutes are accepted; the next is refused and changes nothing, by a tick too. After a
/// cut it is accepted.
#[test]
fn full_journal(rt: HostRuntime) {
    go(&rt, rt.alloc(), Row::Full);
}

/// While a job is pending or its run goes on, the journal isn't cut; when the run has ended, it is.
#[test]
fn no_cut_while_a_run_goes_on(rt: HostRuntime) {
    go(&rt, rt.alloc(), Row::Run);
}

/// Of two jobs that are due at once one waits; when the other has ended, the next tick gives it the
/// lock before the minute comes. A clock that goes back changes nothing.
#[test]
fn waiting(rt: HostRuntime) {
    go(&rt, rt.alloc(), Row::Wait);
}

/// Coming up, an outage, and an anacron job that starts when its delay is over.
#[test]
fn outage(rt: HostRuntime) {
    go(&rt, rt.alloc(), Row::CatchUp);
}

/// Memory for the journal runs out several times; what was refused is accepted later.
#[test]
fn refused_steps(rt: HostRuntime) {
    go(&rt, rt.alloc(), Row::ShortSteps);
}

/// Memory runs out in ticks; the earlier events stay, and the next tick goes on from there.
#[test]
fn cut_short_ticks(rt: HostRuntime) {
    go(&rt, rt.alloc(), Row::ShortTicks);
}
