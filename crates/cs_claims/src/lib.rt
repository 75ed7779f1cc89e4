//! Certificates as values: what they claim of each kind of day, and the rules that they keep.
#![tactic(auto)]

mod certificate;
mod class;
mod fault;
mod limits;
mod making;
mod minute_tree;
mod parts;
mod reach;
mod size;
mod stretch;

pub use certificate::Certificate;
pub use class::{Class, DueList, GroupBacklog};
pub use cs_windows::{JobReach, reach_of};
pub use fault::{CertError, CertFault};
pub use limits::{
    MAX_CERTIFICATE, MAX_CLASSES, MAX_DEPTH, MAX_ENTRIES, MAX_GROUPS, MAX_JOBS, MAX_KIND_CLASSES,
};
pub use parts::Parts;
pub use size::least_text;
pub use stretch::Stretch;
