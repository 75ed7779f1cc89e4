//! Learns how long runs took from logs of cron, anacron and this program.
#![tactic(auto)]

mod answer;
mod clock;
mod duration;
mod evidence;
mod job;
mod journal;
mod learned;
mod line;
mod log;
mod logged_text;
mod max;
mod reading;
mod summary;
mod tally;

pub use answer::{Learnable, answer_learn, find_learnable};
pub use evidence::{Evidence, Ran};
pub use job::Job;
pub use log::Log;
pub use max::Factor;
