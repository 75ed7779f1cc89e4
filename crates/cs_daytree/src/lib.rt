//! Trees that give each kind of day a class.
#![tactic(auto)]

mod possible;
mod tree;

pub use tree::{DayTree, KindPart};
