//! Reads scripts of events, and prints scripts, replies, refusals, warnings and notes.
#![tactic(auto)]

mod dates;
mod entry;
mod form;
mod nameable;
mod names;
mod partial_script;
mod refusal;
mod reply;
mod script;
mod script_fault;
mod user;
mod warning;
mod words;
mod writing;

pub use nameable::is_nameable;
pub use refusal::{fault_text, push_window};
pub use reply::{push_reply, reply_text};
pub use script::{MAX_SCRIPT, NumberedScript, read_numbered_script, read_script};
pub use script_fault::{ScriptError, ScriptFault};
pub use user::{first_behind_user, is_no_user};
pub use warning::{is_unheeded, plan_notes, warnings};
pub use writing::script_text;
