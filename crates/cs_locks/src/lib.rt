//! Counts the runs that hold or await each group's lock, at a cost that doesn't grow with the runs.
#![tactic(auto)]

mod hold;
mod laws;
mod table;

pub use hold::Hold;
pub use laws::holds_say_what_is_free;
pub use table::LockTable;
