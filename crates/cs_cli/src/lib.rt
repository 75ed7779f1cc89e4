//! The answers to `judge` and `make`, and what the words of `check`, `judge`, `make` and `run` say.
#![tactic(auto)]

mod check;
mod findings;
mod judge;
mod laws;

pub use check::check_in_format;
pub use cs_judge::Wanted;
pub use findings::{refusal_finding, verdict_findings};
pub use judge::{answer_judge, judge_in_format, judged_response, verdict_word, wanted_of};
pub use laws::{
    what_an_order_says, what_check_says, what_judge_says, what_make_says, what_version_1_says,
};
