//! Reports on the runs that earlier daemons left.
use crate::diary::Hand;
use cs_machine::RunList;
use std::alloc::Global;
use std::io::Write;
use std::rt::{Clock, Files};
use std::sync::Wait;

/// Reports the runs that have ended by now, each after these words.
pub(crate) fn tell_ended<R: Files + Clock + Wait, W: Write>(
    rt: &R,
    alloc: Global,
    runs: &RunList,
    hand: &mut Hand<'_, '_, R, W>,
    words: &[u8],
) {
    for _ in 0..runs.left(rt) {
        let Some(name) = runs.take_ended(rt) else {
            return;
        };
        hand.tell(alloc, words, name.as_slice());
    }
}

pub(crate) fn tell_left<R: Files + Clock + Wait, W: Write>(
    rt: &R,
    alloc: Global,
    runs: &RunList,
    hand: &mut Hand<'_, '_, R, W>,
) {
    tell_ended(rt, alloc, runs, hand, b"cut off ");
    for run in runs.left_texts(rt) {
        hand.tell(alloc, b"still running ", run.as_slice());
    }
}
