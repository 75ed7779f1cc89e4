//! Reads files and folders by their paths, and writes to standard output and standard error.
#![tactic(auto)]

mod folders;
mod inputs;
mod links;
mod machine;
mod outputs;
mod reason;
mod streams;

pub use folders::{FileKind, Folders, MOST_NAMES};
pub use inputs::{CannotRead, Inputs, MOST_READS, ReadFault, read_up_to, read_whole};
pub use machine::Machine;
pub use outputs::{CannotWrite, Output, Printer};
pub use reason::Reason;
pub use streams::{HeldStreams, hold_streams};
