//! Reads where the commands of a gathered table come from, and shows bytes in one safe line.
#![tactic(auto)]

mod mark;
mod part_name;
mod places;
mod shown;

pub use mark::{MARK, are_mark, is_gathered, is_mark_name};
pub use part_name::{PART, is_part_name};
pub use places::{
    Place, place_of, push_place_text, push_places, push_places_told, read_places, split_last_word,
};
pub use shown::{harmful, push_byte, push_hex, push_shown};
