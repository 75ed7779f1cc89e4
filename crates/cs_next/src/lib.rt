//! Lists the next starts of the jobs of two tables.
#![tactic(auto)]

mod answer;
mod from;
mod job;
mod json;
mod starts;
mod text;

pub use answer::answer_next;
