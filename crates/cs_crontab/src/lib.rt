//! Reads crontab(5) tables, and reports the first fault with its place.
#![tactic(auto)]

mod command;
mod fault;
mod field;
mod limits;
mod line;
mod name;
mod reader;
mod table;
mod word;

pub use command::command_parts;
pub use cs_schedule::{Field, MinuteSet, Minutes, Numbers, Part, Schedule};
pub use fault::{LineFault, TableFault};
pub use field::read_item;
pub use limits::MAX_COMMANDS;
pub use line::{Entry, read_line};
pub use reader::read_crontab;
pub use table::{Crontab, Line, When};
