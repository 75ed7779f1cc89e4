//! The users and settings of a gathered table's commands.
#![tactic(auto)]

mod note;
mod owners;

pub use owners::{Owner, Unowned, read_owners};
