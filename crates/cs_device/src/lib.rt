//! Declares the daemon's devices: a clock, a runner of commands, stamps, and a gate for tests.
#![tactic(auto)]

mod clock;
mod failures;
mod gate;
mod laws;
mod runner;
mod store;
mod told;

pub use clock::{Clock, Tick};
pub use failures::Failures;
pub use gate::{Gate, Point};
pub use laws::risen_minutes;
pub use runner::{Outcome, Runner};
pub use store::{Stamp, StampStore};
pub use told::Told;
