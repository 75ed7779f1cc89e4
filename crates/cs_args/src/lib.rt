//! Reads the words of a call: what they ask, or why they aren't a call.
#![tactic(auto)]

mod command_line;
mod commands;
mod question;
mod request;
mod table;
mod texts;
mod version;

pub use command_line::parse_words;
pub use question::{Question, WordFault};
pub use request::{
    AdviseWords, AllWords, ChartWords, CheckWords, DayWords, DiffWords, DraftWords, Format,
    GatherWords, JudgeWords, LearnWords, LintWords, MakeWords, NextWords, ReloadWords, ReplayWords,
    Request, RunWords, StatusWords, StopWords, UsageFault, WallWords,
};
pub use version::version_text;
