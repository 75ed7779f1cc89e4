//! Keeps an event core with the journal of its events, and seats that share the count of them.
#![tactic(auto)]

mod entry;
mod journaled_core;
mod keep;
mod kept;
mod laws;
mod limits;
mod next;
mod readers;
mod seat;
mod tick;

pub use entry::Entry;
pub use keep::Keep;
pub use kept::Kept;
pub use laws::{choices_run_out, what_a_keep_promises};
pub use limits::MAX_ENTRIES;
pub use seat::Seat;
pub use tick::TickFault;
