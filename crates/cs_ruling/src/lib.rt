//! Answers `check`, and gives `run` its order, by what the checker rules on the files of a call.
#![tactic(auto)]

mod answer;
mod check;
mod loads;
mod order;
mod overload;
mod places;

pub use answer::{Answer, Order};
pub use check::{Claimed, Digests, Refused, answer_check, find_claimed};
pub use loads::what_a_minute_needs;
pub use order::{answer_run, answer_run_alone};
pub use places::{fault_takers, jobs_of, push_fault_places};
