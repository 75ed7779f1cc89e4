//! Says in texts what the clock of a zone with summer time shows.
#![tactic(auto)]

mod wall_text;

pub use wall_text::push_wall;
