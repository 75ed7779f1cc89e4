//! Windows: the minutes in which a run may go on once its job was due or caught up.
#![tactic(auto)]

mod job_windows;
mod links;
mod list;
mod reach;
mod tree;
mod window;

pub use job_windows::Occupied;
pub use list::{MOST_OCCUPIED, windows_on};
pub use reach::{JobReach, reach_of};
pub use tree::{Entry, LeafAt, MinuteTree, lists};
pub use window::{Window, touches};
