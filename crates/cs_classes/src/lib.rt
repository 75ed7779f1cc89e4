//! Works out what a certificate stands for, and checks its due minutes, stretches and waits.
#![tactic(auto)]

mod by_classes;
mod chain;
mod claim;
mod claiming;
mod classed;
mod due;
mod fitting;
mod group_day;
mod last;
mod laws;
mod likeness;
mod locks;
mod missing;
mod planned;
mod reach;
mod steps;
mod unlike;
mod used;
mod worked;
mod workers;
mod working_out;

pub use chain::{Chain, chains};
pub use claim::Claim;
pub use claiming::claim_by;
pub use fitting::stretch_length;
pub use group_day::{GroupDay, group_days, is_steady_over};
pub use last::last_day;
pub use laws::stretches_of_version_3;
pub use missing::first_missing;
pub use planned::occupied;
pub use reach::{clears, waits};
pub use steps::first_rise;
pub use unlike::first_unlike;
pub use used::{UsedStretch, used_stretches};
pub use workers::{OneThread, SeveralThreads, Workers};
pub use working_out::{WorkedOut, work_out};
