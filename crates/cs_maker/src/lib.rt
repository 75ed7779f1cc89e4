//! Makes a certificate for a plan, or a script that breaks it.
//!
//! It isn't trusted: it promises only to return, and that a compact certificate is of version 3.
#![tactic(auto)]

mod breaches;
mod exact;
mod listed;
mod maker;
mod outlook;
mod reason;
mod search;
mod stretches;
mod sweep;

pub use maker::Maker;
pub use outlook::Outlook;
pub use reason::Reason;
