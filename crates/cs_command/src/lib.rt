//! Reads what the command of a table runs: its lock, its time limit, its parts.
#![tactic(auto)]

mod durations;
mod flock;
mod fronts;
mod lock;
mod named;
mod paths;
mod program;
mod running;
mod timeouts;
mod words;

pub use lock::{Lock, lock_of, own_lock};
pub use named::names_lock;
pub use paths::{behind_place, is_below};
pub use program::program_text;
pub use running::{RunParts, run_parts};
pub use timeouts::{asked_for, is_killed, limit_in, program_of, time_limit};
