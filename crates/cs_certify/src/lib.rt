//! Makes certificates: the least bounds on what waits for a lock, and trees of days and windows.
#![tactic(auto)]

mod busy;
mod carry;
mod certificates;
mod choice;
mod class;
mod compact;
mod cut;
mod day_trees;
mod exact;
mod gains;
mod grouping;
mod kinds;
mod latest;
mod least;
mod lock;
mod minute_trees;
mod nodes;
mod numbers;
mod pieces;
mod queue;
mod reaches;

pub use certificates::{certificate, stretch};
pub use compact::compact_certificate;
pub use day_trees::day_tree;
pub use exact::ExactWaits;
pub use least::{Bounds, least_bounds};
pub use minute_trees::minute_tree;
pub use nodes::Classing;
