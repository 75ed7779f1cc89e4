//! Holds a plan: a crontab, an anacrontab, and what an operator declares of their jobs.
#![tactic(auto)]

mod clocks;
mod fault;
mod group;
mod job;
mod job_names;
mod limits;
mod plain;
mod plan;
mod reboot;

pub use clocks::ClockNames;
pub use fault::{DeclError, DeclFault, Place};
pub use group::Group;
pub use job::Job;
pub use job_names::{identifier_of, push_command_name, push_due_name};
pub use limits::{MAX_CAPACITY, MAX_GROUPS, MAX_MINUTES, MAX_OFFSET, MAX_WEIGHT};
pub use plain::is_possible_max;
pub use plan::{Plan, copy_name};
pub use reboot::{Found, at_line, first_reboot, is_reboot};
