//! Says what the clock of a zone with summer time shows, and when cron(8) starts a command by it.
#![tactic(auto)]

mod laws;
mod shape;
mod starts;
mod wall;
mod zone;

pub use laws::nights;
pub use shape::Shape;
pub use wall::{march_day, wall_on};
pub use zone::{Jump, Zone};
