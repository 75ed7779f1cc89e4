//! Takes the events of a history, lists those that may come next, and keeps the state.
#![tactic(auto)]

mod choices;
mod event_core;
mod events;
mod laws;
mod lists;
mod refusals;
mod rules;

pub use choices::is_before;
pub use event_core::Core;
pub use laws::choices_are_legal_events;
