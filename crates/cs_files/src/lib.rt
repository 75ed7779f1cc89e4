//! The files of a call, read one after the other, the fault that ends a call, and how a call ends.
#![tactic(auto)]

mod asked;
mod ending;
mod fault;
mod parts;
mod reads;
mod response;
mod shown;
mod words;

pub use asked::{Planned, Tables, find_plan, find_tables};
pub use ending::{finish, run_out, tell};
pub use fault::Fault;
pub use reads::{all_bytes_at, are_jobs, bytes_at, declared_plan_from};
pub use response::{Response, Status};
pub use shown::declared_fault;
pub use words::words_of;
