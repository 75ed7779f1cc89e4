//! Reads off a plan what the maker needs: each job's times, and which days have the same jobs due
//! at the same minutes.
//!
//! Nothing trusts it, so it promises only to return.
#![tactic(auto)]

mod calendar;
mod clock;
mod due;
mod facts;
mod kinds;
mod task;

pub use calendar::{Calendar, DAYS_BEFORE};
pub use due::Due;
pub use facts::Facts;
pub use task::Task;
