//! Counts civil minutes, days and kinds of days, and gives the sequence type of the other crates.
#![tactic(auto)]

mod date;
mod day;
mod digits;
mod fault;
mod hours;
mod kind;
mod laws;
mod minute;
mod order;
mod sequence;
mod text;

pub use date::Gregorian;
pub use day::Day;
pub use fault::CivilFault;
pub use hours::Hours;
pub use kind::{DayKind, four_days, kind_number, kind_of, next_kinds, weekday_name};
pub use laws::calendar;
pub use minute::{FIRST_MINUTE, LAST_MINUTE, MINUTES_OF_DAY, Minute};
pub use order::{Kinds, all_kinds};
pub use sequence::{Bytes, Sequence};
pub use text::{date_text, day_text, minute_at, push_number, read_day, read_minute};
