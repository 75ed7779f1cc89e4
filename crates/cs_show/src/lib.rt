//! The answers that show a table and a script: `day` and `replay`.
#![tactic(auto)]

mod day;
mod day_text;
mod replay;
mod replay_text;
mod verdict;
mod wall;
mod wall_text;

pub use day::answer_day;
pub use replay::{Replayable, answer_replay, find_script};
pub use wall::{answer_wall, refuse_rule};
