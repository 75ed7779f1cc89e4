//! Shows what an edit of two tables and their declarations changes. Its windows are those of the
//! fields, without changes of the zone's clock.
#![tactic(auto)]

mod answer;
mod binding;
mod changes;
mod held;
mod meeting;
mod page;
mod shrunk;
mod side;
mod since;
mod terms;
mod times;
mod verdict;

pub use answer::answer_diff;
