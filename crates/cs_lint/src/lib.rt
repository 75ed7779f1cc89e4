//! Finds all that is wrong or odd in crontabs, anacrontabs and declarations, with its place.
#![tactic(auto)]

mod answer;
mod changes;
mod clock;
mod declared;
mod entry;
mod files;
mod lines;
mod odd_lines;
mod parts;
mod planned;
mod refusal;
mod table;
mod wanted;

pub use answer::{Linted, answer_lint, lint_texts, refuse_names};
pub use files::Texts;
pub use wanted::{Asked, Wanted};
