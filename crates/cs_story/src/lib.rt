//! Finds the story of a breach: events that break a declaration although each run ends in time.
//!
//! Nothing trusts it, so it promises only to return.
#![tactic(auto)]

mod aim;
mod breach;
mod chain;
mod collision;
mod load;
mod moments;
mod part;
mod play;
mod plot;
mod start;
mod stay;
mod story;
mod wanted;

pub use breach::{Breach, Rule, Span};
pub use story::tell;
