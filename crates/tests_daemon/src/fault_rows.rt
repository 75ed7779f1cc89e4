//! Clocks, commands, stores and runs that fail.

use crate::devices::Hold;
use crate::plans::{CATCHING_UP, HOURLY, SHORT};
use crate::play::{MIDNIGHT, Played, Script, day, play};
use cs_daemon::Cause;
use std::alloc::{AllocError, Global};

/// A clock that moves on by more than one minute is an outage: a going down and a coming up.
#[test]
fn outage(rt: HostRuntime) {
    let alloc: Global = rt.alloc();
    let minutes = [MIDNIGHT + 59, MIDNIGHT + 60, MIDNIGHT + 63];
    let played = play(&rt, alloc, &Script::plain(&HOURLY, &minutes));
    assert!(&rt; played.end.cause == Cause::Stopped && played.end.total == 7);
    assert!(&rt; played.count("outage 2024-01-01 01:00 to 2024-01-01 01:03\n") == 1);
    assert!(&rt; played.count("outage") == 1);
}

/// A clock that goes back ends the daemon, after its run has ended.
#[test]
fn clock_goes_back(rt: HostRuntime) {
    let alloc: Global = rt.alloc();
    let minutes = [MIDNIGHT + 59, MIDNIGHT + 60, MIDNIGHT + 59];
    let played = play(&rt, alloc, &Script::plain(&HOURLY, &minutes));
    assert!(&rt; played.end.cause == Cause::ClockBack && played.end.total == 5);
    assert!(&rt; played.count("ended line 1 due 2024-01-01 01:00 status 3\n") == 1);
}

/// No keep is opened before 1970-01-04 00:00.
#[test]
fn too_early(rt: HostRuntime) {
    let alloc: Global = rt.alloc();
    let played = play(&rt, alloc, &Script::plain(&HOURLY, &[4_319]));
    assert!(&rt; played.end.cause == Cause::ClockBack && played.end.total == 0);
    assert!(&rt; played.end.keep.is_none() && played.end.shares.as_slice() == [0, 0].as_slice());
}

/// So many minutes from 00:59 on, and then one that can't be read.
fn minutes_before(alloc: Global, count: u16) -> Result<Vec<u64>, AllocError> {
    let mut minutes = Vec::new(alloc);
    for minute in MIDNIGHT + 59..MIDNIGHT + 59 + u64::from(count) {
        minutes.push(minute)?;
    }
    minutes.push(u64::MAX)?;
    Ok(minutes)
}

/// A clock that can't be read ends the daemon: at its first answer, before there is a keep, and at
/// each later one of two hours. The events are a coming up, minutes, two for each hour, and a going
/// down.
#[test]
fn clock_fails_at_each_answer(rt: HostRuntime) {
    let alloc: Global = rt.alloc();
    let played = play(&rt, alloc, &Script::plain(&HOURLY, &[u64::MAX]));
    assert!(&rt; played.end.cause == Cause::ClockFailed && played.end.keep.is_none());
    for count in 1..122u16 {
        let minutes = minutes_before(alloc, count).expect(&rt, "memory");
        let played = play(&rt, alloc, &Script::plain(&HOURLY, minutes.as_slice()));
        let hours = (count + 58) / 60;
        assert!(&rt; played.end.cause == Cause::ClockFailed);
        assert!(&rt;
            played.end.total == u64::from(count + 1 + 2 * hours),
            "{count}"
        );
    }
}

/// Each run of a day in turn can't be started: the journal starts and ends it all the same.
#[test]
fn each_run_is_not_started(rt: HostRuntime) {
    let alloc: Global = rt.alloc();
    let minutes = day(alloc).expect(&rt, "memory");
    for run in 1..24 {
        let mut script = Script::plain(&HOURLY, minutes.as_slice());
        script.run_fails = run;
        let played = play(&rt, alloc, &script);
        assert!(&rt;
            played.end.not_started == 1 && played.end.total == 1_428,
            "{run}"
        );
        assert!(&rt;
            played.count("not started") == 1 && played.count("ended") == 22,
            "{run}"
        );
    }
}

/// Each line of a day's log in turn can't be written: it is counted, and nothing else is lost. The
/// worker may be slower than this clock; then overruns are logged too.
#[test]
fn each_line_is_not_written(rt: HostRuntime) {
    let alloc: Global = rt.alloc();
    let minutes = day(alloc).expect(&rt, "memory");
    for line in 1..47 {
        let mut script = Script::plain(&HOURLY, minutes.as_slice());
        script.line_fails = line;
        let played = play(&rt, alloc, &script);
        assert!(&rt;
            played.end.log_faults == 1 && played.end.total == 1_428,
            "{line}"
        );
        let told = played.end.overruns.saturating_add(45);
        assert!(&rt; played.count("\n") as u64 == told, "{line}");
    }
}

/// The journal starts and ends a run that can't be started, and the log names it.
#[test]
fn run_that_is_not_started(rt: HostRuntime) {
    let alloc: Global = rt.alloc();
    let minutes = [MIDNIGHT + 59, MIDNIGHT + 60];
    let mut script = Script::plain(&HOURLY, &minutes);
    script.run_fails = 1;
    let played = play(&rt, alloc, &script);
    assert!(&rt; played.end.not_started == 1 && played.end.total == 5);
    assert!(&rt;
        played.logs(
            "started line 1 due 2024-01-01 01:00\n\
            not started line 1 due 2024-01-01 01:00\n"
        )
    );
}

/// A run of at most five minutes that goes on until 01:06 is found late at 01:05, and not again.
#[test]
fn overrun(rt: HostRuntime) {
    let alloc: Global = rt.alloc();
    let mut minutes = [MIDNIGHT; 8];
    for place in 0..8 {
        minutes[place] = MIDNIGHT + 59 + place as u64;
    }
    let mut script = Script::plain(&SHORT, &minutes);
    script.hold = Hold::Until(MIDNIGHT + 66);
    let played = play(&rt, alloc, &script);
    assert!(&rt; played.end.overruns == 1 && played.end.total == 11 && played.missed == 0);
    assert!(&rt; played.count("overrun line 1 due 2024-01-01 01:00\n") == 1);
}

/// So is one that still runs when the clock has stopped.
#[test]
fn overrun_at_the_end(rt: HostRuntime) {
    let alloc: Global = rt.alloc();
    let minutes = [MIDNIGHT + 59, MIDNIGHT + 60];
    let mut script = Script::plain(&SHORT, &minutes);
    script.hold = Hold::Until(MIDNIGHT + 66);
    script.more = 6;
    let played = play(&rt, alloc, &script);
    assert!(&rt; played.end.overruns == 1 && played.end.total == 5 && played.missed == 0);
    assert!(&rt; played.count("overrun line 1 due 2024-01-01 01:00\n") == 1);
}

fn is_stamped(played: &Played) -> bool {
    match played.end.keep {
        Some(keep) => keep.is_stamped,
        None => false,
    }
}

/// A stamp whose first two writes fail is tried in each tick, logged each time, and then written. A
/// signal ends the job's run.
#[test]
fn stamp_not_written(rt: HostRuntime) {
    let alloc: Global = rt.alloc();
    let minutes = [MIDNIGHT + 59, MIDNIGHT + 60];
    let mut script = Script::plain(&CATCHING_UP, &minutes);
    script.writes = 3;
    script.failing = 2;
    let played = play(&rt, alloc, &script);
    assert!(&rt; played.end.cause == Cause::Stopped && played.end.stamp_faults == 2);
    assert!(&rt; played.count("stamp not written cron.daily\n") == 2);
    assert!(&rt; played.count("ended job cron.daily at 2024-01-01 01:00 signal 9\n") == 1);
    assert!(&rt; is_stamped(&played));
}
