//! Drafts declarations for tables, or brings older ones up to date with the tables.
#![tactic(auto)]

mod added;
mod answer;
mod confirm;
mod draft;
mod given;
mod jobs;
mod kept;
mod layout;
mod names;
mod old;
mod parts;
mod schedule_text;
mod sheet;
mod times;
mod told;
mod updated;
mod warned;

pub use answer::{Draftable, answer_draft, find_draftable};
