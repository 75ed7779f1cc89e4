//! Serves an order to run: the daemon's folder, log and state, files read again, and hooks.
#![tactic(auto)]

mod anew;
mod diary;
mod failing;
mod hooks;
mod keeping;
mod kept;
mod kept_text;
mod laws;
mod leftover;
mod names;
mod notes;
mod obstacle;
mod serving;
mod watch;

pub use hooks::Streams;
pub use kept::KeptFiles;
pub use laws::{what_a_next_order_keeps, what_a_served_order_keeps, what_a_status_says};
pub use serving::serve;
