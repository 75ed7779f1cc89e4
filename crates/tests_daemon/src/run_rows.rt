//! Runs, by several workers and over a day.

use crate::devices::Hold;
use crate::plans::{HOURLY, IN_TURN, TWO, WAITING};
use crate::play::{InKeep, MIDNIGHT, Played, Script, day, play};
use cs_daemon::Cause;
use std::alloc::Global;

/// 9999-12-31 23:59.
const LAST: u64 = 4_223_371_679;

/// The end of the line of a run that its runner has ended.
const ENDED: &str = " status 3\n";

fn has_ended(played: &Played, cause: Cause, total: u64, shares: &[u64]) -> bool {
    let end = &played.end;
    end.cause == cause && end.total == total && end.shares.as_slice() == shares
}

fn is_stopped(played: &Played, total: u64, shares: &[u64]) -> bool {
    has_ended(played, Cause::Stopped, total, shares)
}

fn down(total: u64, minute: u64) -> Option<InKeep> {
    Some(InKeep {
        total,
        minute,
        is_up: false,
        is_stamped: false,
    })
}

/// The run that is due in the minute of rest ends first.
#[test]
fn left_at_rest(rt: HostRuntime) {
    let alloc: Global = rt.alloc();
    let minutes = [MIDNIGHT + 59, MIDNIGHT + 60];
    let mut script = Script::plain(&HOURLY, &minutes);
    script.writes = 1;
    script.rest_from = MIDNIGHT + 60;
    let played = play(&rt, alloc, &script);
    assert!(&rt; is_stopped(&played, 5, &[4, 1]) && played.end.keep == down(5, MIDNIGHT + 60));
    assert!(&rt; played.end.rest == Some(MIDNIGHT + 60) && played.count(ENDED) == 1);
}

/// It isn't left at rest while a run goes on.
#[test]
fn stopped_at_rest_or_not(rt: HostRuntime) {
    let alloc: Global = rt.alloc();
    let minutes = [MIDNIGHT + 59, MIDNIGHT + 60];
    let mut script = Script::plain(&HOURLY, &minutes);
    script.hold = Hold::Until(MIDNIGHT + 61);
    script.more = 1;
    assert!(&rt; play(&rt, alloc, &script).end.rest.is_none());
    let mut early = Script::plain(&HOURLY, &minutes[..1]);
    early.more = 1;
    assert!(&rt; play(&rt, alloc, &early).end.rest == Some(MIDNIGHT + 59));
}

/// The worker makes the end; the clock makes the coming up, the minute, the begin and the going
/// down.
#[test]
fn one_run(rt: HostRuntime) {
    let alloc: Global = rt.alloc();
    let minutes = [MIDNIGHT + 59, MIDNIGHT + 60];
    let played = play(&rt, alloc, &Script::plain(&HOURLY, &minutes));
    assert!(&rt; is_stopped(&played, 5, &[4, 1]) && played.end.keep == down(5, MIDNIGHT + 60));
    assert!(&rt; played.end.log_faults == 0);
    assert!(&rt;
        played.logs(
            "started line 1 due 2024-01-01 01:00\n\
            ended line 1 due 2024-01-01 01:00 status 3\n"
        )
    );
}

/// The first job's run begins only when the second job's has ended: each has a worker.
#[test]
fn two_runs_at_once(rt: HostRuntime) {
    let alloc: Global = rt.alloc();
    let minutes = [MIDNIGHT + 59, MIDNIGHT + 60];
    let mut script = Script::plain(&TWO, &minutes);
    script.hold = Hold::ForOthers;
    let played = play(&rt, alloc, &script);
    assert!(&rt; is_stopped(&played, 7, &[5, 1, 1]));
    assert!(&rt; played.count(ENDED) == 2 && played.missed == 0);
}

/// With one worker for two jobs, the first waits in vain, and both are run all the same.
#[test]
fn one_worker_for_two_runs(rt: HostRuntime) {
    let alloc: Global = rt.alloc();
    let minutes = [MIDNIGHT + 59, MIDNIGHT + 60, MIDNIGHT + 79, MIDNIGHT + 80];
    let mut script = Script::plain(&IN_TURN, &minutes);
    script.hold = Hold::ForOthers;
    script.most = 300;
    let played = play(&rt, alloc, &script);
    assert!(&rt; is_stopped(&played, 10, &[8, 2]));
    assert!(&rt; played.count(ENDED) == 2 && played.missed == 1);
}

/// A run that waits for its group's lock is logged.
#[test]
fn waiting_run(rt: HostRuntime) {
    let alloc: Global = rt.alloc();
    let minutes = [MIDNIGHT + 59, MIDNIGHT + 60];
    let played = play(&rt, alloc, &Script::plain(&WAITING, &minutes));
    assert!(&rt; played.count("waiting line 2 due 2024-01-01 01:00\n") == 1);
    assert!(&rt; played.count("waiting") == 1 && played.count(ENDED) == 1);
}

/// Each minute from 00:59 to 23:59: the clock makes a coming up, 1,380 minutes, 23 begins and a
/// going down, the worker 23 ends.
#[test]
fn a_day(rt: HostRuntime) {
    let alloc: Global = rt.alloc();
    let minutes = day(alloc).expect(&rt, "memory");
    let played = play(&rt, alloc, &Script::plain(&HOURLY, minutes.as_slice()));
    assert!(&rt; is_stopped(&played, 1_428, &[1_405, 23]) && played.count(ENDED) == 23);
    assert!(&rt; played.end.keep == down(1_428, MIDNIGHT + 1_439));
}

/// After the last minute there is no other: a coming up, a minute and a going down.
#[test]
fn last_minute(rt: HostRuntime) {
    let alloc: Global = rt.alloc();
    let minutes = [LAST - 1, LAST];
    let played = play(&rt, alloc, &Script::plain(&HOURLY, &minutes));
    assert!(&rt; has_ended(&played, Cause::LastMinute, 3, &[3, 0]));
    assert!(&rt; played.end.keep == down(3, LAST) && played.logs(""));
}

/// A clock that begins with the last minute: a coming up and a going down.
#[test]
fn first_is_last(rt: HostRuntime) {
    let alloc: Global = rt.alloc();
    let played = play(&rt, alloc, &Script::plain(&HOURLY, &[LAST]));
    assert!(&rt; has_ended(&played, Cause::LastMinute, 2, &[2, 0]));
    assert!(&rt; played.end.keep == down(2, LAST));
}
