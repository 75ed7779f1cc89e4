//! Reads the rule of a zone (POSIX, TZ) as a clock that shows all year what the zone shows on 28
//! February, and how the zone's own clock differs from it.
#![tactic(auto)]

mod clock;
mod fault;
mod jump;
mod laws;
mod parts;
mod read;

pub use clock::Clock;
pub use fault::RuleFault;
pub use laws::rules;
pub use read::{clock_in, read_rule};
