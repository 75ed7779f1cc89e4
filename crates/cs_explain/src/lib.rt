//! Explains the names of faults, refusals and oddities, each with a wrong and a right example.
#![tactic(auto)]

mod anacrontab;
mod answer;
mod call;
mod certificate;
mod crontab;
mod declarations;
mod event;
mod guess;
mod kind;
mod meaning;
mod odd;
mod refused;
mod script;
mod system;
mod texts;
mod unknown;

pub use answer::{answer_explain, no_such_name};
pub use guess::nearest_odd;
pub use texts::{explain, names, odd_name};
