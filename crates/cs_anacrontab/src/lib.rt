//! Reads an anacrontab (anacrontab(5)), and decides when its jobs are due (anacron(8)).
#![tactic(auto)]

mod fault;
mod limits;
mod line;
mod period;
mod reader;
mod stamp;
mod table;

pub use fault::{AnacronFault, JobFault};
pub use limits::{MAX_DELAY, MAX_IDENTIFIER, MAX_JOBS, MAX_PERIOD};
pub use line::{Entry, is_identifier, read_delay, read_line, read_period};
pub use period::{DayCount, Period, is_due};
pub use reader::read_anacrontab;
pub use stamp::{read_stamp, stamp_text};
pub use table::{Anacrontab, Job};
