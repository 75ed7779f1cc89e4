//! Runs a checked plan as a daemon: by a clock, with threads and devices around a keep.
#![tactic(auto)]

mod clock_thread;
mod closing;
mod commands;
mod daemon;
mod dispatch;
mod end;
mod late;
mod laws;
mod log;
mod notices;
mod plan_ledger;
mod rest;
mod seeing_off;
mod shared;
mod stamps;
mod threads;
mod worker;

pub use daemon::run_daemon;
pub use end::{Cause, DaemonEnd};
pub use laws::{
    starts_are_handed_out, starts_differ, what_a_round_says, what_a_store_holds, what_a_tick_says,
    what_is_left, what_late_means,
};
