//! Defines histories: the events of cron and anacron jobs, the state after them, and what is safe.
#![tactic(auto)]

mod boundaries;
mod event;
mod laws;
mod mode;
mod refusal;
mod reply;
mod run;
mod script;
mod start;
mod stories;

pub use boundaries::{
    first_and_last_start, last_minute_of_a_run, only_skip_promises, sharers_beside_others,
    unsafe_history, waiters_may_be_passed,
};
pub use event::Event;
pub use laws::{journals_grow, names_differ, states_follow_histories};
pub use mode::Mode;
pub use refusal::Refusal;
pub use reply::Reply;
pub use run::{Going, Run};
pub use script::Script;
pub use start::{MAX_STAMPS, Start, copy_stamps};
pub use stories::{
    clock_and_outages, locks_and_waiting, passes_and_stamps, safe_and_unsafe,
    skipped_in_both_modes, windows_and_calm,
};
