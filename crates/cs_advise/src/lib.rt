//! Finds changes that make an unsafe plan safe, and the `room` of each job of a safe one.
#![tactic(auto)]

mod advice;
mod answers;
mod breach;
mod change;
mod changing;
mod edit;
mod findings;
mod gap;
mod label;
mod later;
mod longer;
mod places;
mod room;
mod rooms;
mod search;
mod shifting;
mod source;
mod text;
mod told;

pub use answers::{Question, answer_advise};
pub use room::Room;
pub use rooms::each_room;
