//! Decides when a command of a crontab is due, and how soon after that it is due again.
#![tactic(auto)]

mod field;
mod gap;
mod minute_set;
mod numbers;
mod part;
mod schedule;

pub use field::Field;
pub use gap::{MAX_DISTANCE, MAX_GAP, least_distance, least_gap};
pub use minute_set::{MINUTES_OF_BLOCK, MinuteSet, Minutes};
pub use numbers::Numbers;
pub use part::Part;
pub use schedule::Schedule;
