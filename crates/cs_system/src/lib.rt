//! Reads system tables, `/etc/crontab` and files of `/etc/cron.d`, or their first fault.
#![tactic(auto)]

mod fault;
mod line;
mod reader;
mod table;

pub use fault::SystemFault;
pub use line::{SystemEntry, read_system_line};
pub use reader::read_system_crontab;
pub use table::{SystemLine, SystemTable};
