//! Decides whether a certificate proves that a plan is safe.
#![tactic(auto)]

mod capacity;
mod case;
mod checked;
mod checking;
mod class_day;
mod collisions;
mod due;
mod fault;
mod good;
mod laws;
mod leaves;
mod order;
mod promise;
mod reaches;
mod skips;
mod steps;
mod stretches;
mod workers;

pub use checked::Checked;
pub use checking::{check, check_parallel};
pub use cs_theorem::CheckFault;
pub use fault::CheckError;
pub use laws::what_windows_promise;
