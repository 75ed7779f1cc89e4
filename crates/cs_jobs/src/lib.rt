//! Gives the names, the commands and the log lines of a plan's runs.
#![tactic(auto)]

mod commands;
mod lines;
mod names;

pub use commands::run_command;
pub use lines::{LogLine, push_line};
pub use names::{push_job_front, push_job_name};
