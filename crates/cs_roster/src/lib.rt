//! Lists runs by name in the order in which they came, at a cost that doesn't grow with them.
#![tactic(auto)]

mod roster;
mod runs;

pub use roster::Roster;
pub use runs::Runs;
