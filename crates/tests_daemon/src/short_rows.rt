//! Calls of which each growth is refused in turn: the environment and the parts of a command, a
//! core's choices, and the opening, steps and ticks of a keep.
ghost use Rattle.std.specs.Prelude.{◌≡◌};

use crate::desk::Desk;
use crate::plans::{HOURLY, checked, minute, plan, start};
use crate::short_memory::Hoard;
use cs_check::Checked;
use cs_civil::{Bytes, Minute};
use cs_core::Core;
use cs_crontab::{Crontab, command_parts, read_crontab};
use cs_history::{Event, Refusal};
use cs_keep::TickFault;
use std::alloc::Global;
use std::marker::Brand;
use std::process::Abort;
use std::sync::ledger::{Blank, Ledger};

/// How many bytes more there are each time.
const STEP: usize = 64;

/// The same for a long journal, which grows by more.
const LONG_STEP: usize = 4_096;

const MOST: u32 = 8_000;

const TABLE: &[u8] = b"A=1\nB=2\nA=3\n* * * * * /bin/cat\n";

fn hoard<R: Abort>(rt: &R, alloc: Global) -> Hoard {
    let mut hoard = Hoard::new(alloc, 64).expect(rt, "memory");
    hoard.take_rest();
    hoard
}

fn give_back<R: Abort>(rt: &R, hoard: &mut Hoard, len: usize) {
    assert!(rt; hoard.give_back(len));
}

fn are(texts: (&Bytes, &Bytes), first: &[u8], second: &[u8]) -> bool {
    texts.0.as_slice() == first && texts.1.as_slice() == second
}

/// Whether the settings are these: each name once, in order, with its last value.
fn is_environment(found: &[(Bytes, Bytes)]) -> bool {
    if found.len() != 2 {
        return false;
    }
    let ((one, two), (other, three)) = (&found[0], &found[1]);
    are((one, two), b"A", b"3") && are((other, three), b"B", b"2")
}

/// `None` if memory runs out, here and below.
fn environment(alloc: Global, crontab: &Crontab) -> Option<bool> {
    let found = crontab.env_of(alloc, 4).ok()?;
    Some(is_environment(found.as_slice()))
}

fn parts(alloc: Global) -> Option<bool> {
    let (command, input) = command_parts(alloc, b"cat%one%two").ok()?;
    match &input {
        Some(input) => Some(are((&command, input), b"cat", b"one\ntwo")),
        None => Some(false),
    }
}

/// Whether the choices of an idle core are the next minute and going down.
fn choices(alloc: Global, core: &Core) -> Option<bool> {
    let found = core.choices(alloc).ok()?;
    Some(found.as_slice() == [Event::Minute(28_401_180), Event::Down].as_slice())
}

fn opening<L: Ledger>(alloc: Global, blank: Blank, checked: &Checked) -> Option<bool>
    requires name { blank.name ≡ L.name }
    requires all { blank.parts ≡ L.parts }
    requires one { blank.parts ≡ 1 }
{
    let opened: Desk<L> = Desk::open(alloc, blank, 1, checked, true)?;
    drop(opened);
    Some(true)
}

/// A call that needs memory.
#[derive(Drop)]
enum Call<'a> {
    Environment(&'a Crontab),
    Parts,
    Choices(&'a Core),
    Opening(&'a Checked),
}

impl Call<'_> {
    fn is_right(&self, alloc: Global) -> Option<bool> {
        match self {
            Call::Environment(crontab) => environment(alloc, crontab),
            Call::Parts => parts(alloc),
            Call::Choices(core) => choices(alloc, core),
            Call::Opening(checked) => opening::<Brand>(alloc, Blank::new(1), checked),
        }
    }
}

/// How often memory runs out for a call, with hardly any at first and some more each time.
fn refusals<R: Abort>(rt: &R, alloc: Global, call: &Call<'_>, hoard: &mut Hoard) -> u32 {
    for refused in 0..MOST {
        if let Some(is_right) = call.is_right(alloc) {
            assert!(rt; is_right);
            return refused;
        }
        give_back(rt, hoard, STEP);
    }
    MOST
}

/// Memory runs out for a call at least so many times, and then no more.
fn refuse<R: Abort>(rt: &R, alloc: Global, call: &Call<'_>, least: u32) {
    let mut hoard = hoard(rt, alloc);
    let refused = refusals(rt, alloc, call, &mut hoard);
    hoard.free_all();
    assert!(rt; least <= refused && refused < MOST, "{refused}");
}

#[test]
fn refused_environments(rt: HostRuntime) {
    let crontab = read_crontab(rt.alloc(), TABLE).expect(&rt, "a crontab");
    refuse(&rt, rt.alloc(), &Call::Environment(&crontab), 4);
    drop(crontab);
}

#[test]
fn refused_parts(rt: HostRuntime) {
    refuse(&rt, rt.alloc(), &Call::Parts, 2);
}

/// A core of which nothing is due.
fn idle_core<R: Abort>(rt: &R, alloc: Global) -> Core {
    let plan = plan(rt, alloc, &HOURLY);
    let start = start(true).expect(rt, "a start");
    let core = Core::open(alloc, &plan, start).expect(rt, "memory");
    drop(plan);
    core
}

#[test]
fn refused_choices(rt: HostRuntime) {
    let core = idle_core(&rt, rt.alloc());
    refuse(&rt, rt.alloc(), &Call::Choices(&core), 1);
    drop(core);
}

#[test]
fn refused_openings(rt: HostRuntime) {
    let checked = checked(&rt, rt.alloc(), &HOURLY);
    refuse(&rt, rt.alloc(), &Call::Opening(&checked), 4);
    drop(checked);
}

/// Tries the next minute. Answers whether memory ran out; then nothing has changed.
fn is_refused<L: Ledger, R: Abort>(rt: &R, desk: &mut Desk<L>) -> bool {
    let before = desk.place();
    match desk.step(Event::Minute(before.1.saturating_add(1))) {
        Ok(_) => false,
        Err(refusal) => {
            assert!(rt; refusal == Refusal::OutOfMemory && desk.place() == before);
            true
        }
    }
}

/// How many of the next 2,000 minutes are refused, with some more memory after each refusal.
fn refused_minutes<L: Ledger, R: Abort>(rt: &R, desk: &mut Desk<L>, hoard: &mut Hoard) -> u64 {
    let mut refused: u64 = 0;
    for _ in 0..2_000 {
        if is_refused(rt, desk) {
            give_back(rt, hoard, LONG_STEP);
            refused = refused.saturating_add(1);
        }
    }
    refused
}

pub(crate) fn step_short<L: Ledger, R: Abort>(rt: &R, alloc: Global, desk: &mut Desk<L>) {
    let mut hoard = hoard(rt, alloc);
    let refused = refused_minutes(rt, desk, &mut hoard);
    hoard.free_all();
    assert!(rt; 3 < refused && refused < 200, "{refused}");
    assert!(rt; desk.total() == 2_000_u64.saturating_sub(refused));
}

/// Whether memory runs out for a tick to this minute; the earlier events stay.
fn is_cut_short<L: Ledger, R: Abort>(rt: &R, desk: &mut Desk<L>, minute: Minute) -> bool {
    let before = desk.total();
    let present = desk.now();
    match desk.tick(present, minute) {
        Ok(()) => false,
        Err(fault) => {
            let (total, _, share) = desk.counts();
            assert!(rt; fault == TickFault::OutOfMemory && before <= total && share == total);
            true
        }
    }
}

/// Ticks until all events of the minute are made, with more memory after each refusal. Answers how
/// many refusals there were.
fn cut_short<L: Ledger, R: Abort>(
    rt: &R,
    desk: &mut Desk<L>,
    hoard: &mut Hoard,
    minute: Minute,
) -> u32 {
    for refused in 0..MOST {
        if !is_cut_short(rt, desk, minute) {
            return refused;
        }
        give_back(rt, hoard, STEP);
    }
    MOST
}

pub(crate) fn tick_short<L: Ledger, R: Abort>(rt: &R, alloc: Global, desk: &mut Desk<L>) {
    let before = minute(59).expect(rt, "a minute");
    let due = minute(60).expect(rt, "a minute");
    assert!(rt; !is_cut_short(rt, desk, before));
    let mut hoard = hoard(rt, alloc);
    let refused = cut_short(rt, desk, &mut hoard, due);
    hoard.free_all();
    assert!(rt; 1 < refused && refused < MOST, "{refused}");
    assert!(rt; desk.counts() == (3, 3, 3) && desk.running() == 1);
}
