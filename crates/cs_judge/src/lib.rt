//! Judges a plan safe if the checker accepts it, unsafe if a script shows that, else unknown.
//!
//! The maker of certificates and scripts isn't trusted.
#![tactic(auto)]

mod answers;
mod calling;
mod judged;
mod judging;
mod laws;

pub use answers::{Outcome, Wanted, answer};
pub use calling::{called_safe, is_called_safe, reach_in};
pub use judged::Judged;
pub use judging::judge;
pub use laws::outcomes_hold;
