//! The words of a story that breaks a plan.
#![tactic(auto)]

mod breach;
mod waiters;
mod words;

pub use breach::{Breach, first_breach, takes_part};
pub use waiters::{no_reach, taker_notes};
pub use words::{push_broken, push_comments, story};
