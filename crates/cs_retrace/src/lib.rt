//! Gives the script of the history in a daemon's log, and reads longest times of jobs.
#![tactic(auto)]

mod crash;
mod entry;
mod maxes;
mod moment;
mod retracing;
pub mod stamp;
pub mod told;
mod trace;
pub mod words;
mod writing;

pub use maxes::{
    Given, JobName, LONGEST_MAX, MaxFault, has_job, max_of, max_of_identifier, read_maxes,
};
pub use moment::Moment;
pub use retracing::{MOST_MINUTES, retrace};
