//! Reads JSON into types that have a shape, and writes them as JSON text.
#![tactic(auto)]

mod fault;
mod members;
mod parsing;
mod reading;
mod tuples;
mod writing;

pub use fault::{BAD_SHAPE, JsonFault, Misread};
pub use members::{member, member_if_there, member_or, only_members, value_at};
pub use parsing::parse;
pub use reading::FromJson;
pub use writing::{ToJson, write};
