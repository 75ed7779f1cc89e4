//! Bounds on the backlog of a group's lock: the minutes of runs that still wait for it or hold it.
#![tactic(auto)]

mod arrivals;
mod backlog;
mod following;
mod stretch;

pub use arrivals::{Arrivals, step_ok, steps_ok, steps_within};
pub use backlog::{Backlog, BadPiece, MAX_BACKLOG, Piece};
pub use stretch::clears_by;
