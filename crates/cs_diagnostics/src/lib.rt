//! Collects findings in files and prints them with their lines; locates the parts of JSON texts.
#![tactic(auto)]

mod declared;
mod declared_fault;
mod entry;
mod findings;
mod front;
mod json_fault;
mod line;
mod line_fault;
mod names;
mod object;
mod outline;
mod places;
mod render;
mod shape;
mod span;
mod told;
mod zone;

pub use declared::{Declarations, parts_in};
pub use declared_fault::declared_lines;
pub use entry::{Entry, Kind, texts_in};
pub use findings::{Done, Findings, FirstFault, MAX_TOLD, Note, Words};
pub use front::TableKind;
pub use line::{is_word_line, word_after, word_from, words};
pub use line_fault::{COMMAND, TableLine, find_mark, table_lines};
pub use names::{meant, nearest, quoted, shown};
pub use object::Object;
pub use outline::{Part, parsed, parts, trimmed};
pub use places::{notes_on, places_in};
pub use render::File;
pub use shape::has_meant;
pub use span::Span;
pub use told::{Level, Shown, Told};
