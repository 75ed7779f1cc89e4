//! Gathers the tables of a machine as one user's table.
#![tactic(auto)]

mod answer;
mod below;
mod comment;
mod confirm;
mod gathering;
mod given;
mod line;
mod note;
mod parts;
mod root;
mod table;
mod writing;

pub use answer::answer_gather;
