//! Findings for programs: as JSON, as SARIF 2.1.0, and as GitHub's workflows take them.
#![tactic(auto)]

mod finding;
mod fingerprint;
mod formats;
mod github;
mod json;
mod level;
mod sarif;
mod text;

pub use finding::{Event, Finding, JobTold, TableStatus, Verdict, findings_of_fault, name_in};
pub use formats::{in_format, written};
