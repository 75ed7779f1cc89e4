//! Gives what crontabs and anacrontabs share: lines, words, settings, and the reading of a table.
#![tactic(auto)]

mod environment;
mod fault;
mod limits;
mod reader;
pub mod setting;
pub mod text;

pub use environment::{Setting, copy_settings, env_of};
pub use fault::{TableFault, Wrong, marked, moved};
pub use limits::{MAX_LINE, MAX_TABLE};
pub use reader::{Draft, read_table};
