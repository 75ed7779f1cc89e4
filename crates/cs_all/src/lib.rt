//! Judges, checks or lints each table below folders, side by side.
#![tactic(auto)]

mod answer;
mod below;
mod judging;
mod reading;
mod told;

pub use answer::{answer_judge_all, answer_lint_all};
