//! Tries scripts that may show a plan unsafe, and says what they break first.
#![tactic(auto)]

mod breaking;
mod deadline;
mod laws;
mod proving;
mod rules;
mod shown;
mod text;
mod trial;

pub use laws::first_breaks;
pub use proving::prove_unsafe;
pub use shown::{NotShown, Shown};
pub use text::{push_run_name, shown_text};
pub use trial::Trial;
