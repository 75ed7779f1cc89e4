//! Reads and writes the JSON text of certificates.
#![tactic(auto)]

mod carry_form;
mod day_tree_form;
mod file;
mod form;
mod list_form;
mod minute_tree_form;
mod number_form;

pub use cs_claims::{
    CertError, CertFault, Certificate, Class, DueList, GroupBacklog, JobReach, MAX_CERTIFICATE,
    MAX_CLASSES, MAX_DEPTH, MAX_ENTRIES, MAX_GROUPS, MAX_JOBS, MAX_KIND_CLASSES, Stretch,
    least_text, reach_of,
};
pub use file::{read_certificate, write_certificate};
