//! Draws the jobs of two tables over some days, in SVG: their windows as bars, with due minutes.
#![tactic(auto)]

mod answer;
mod axis;
mod bar;
mod guard;
mod heading;
mod job;
mod load;
mod look;
mod marks;
mod meeting;
mod picture;
mod row;
mod sheet;
mod span;
mod text;

pub use answer::{Drawable, answer_chart, find_drawable};
