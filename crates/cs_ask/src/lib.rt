//! The calls that ask something of a daemon: `stop`, `reload`, `apply` and `status`.
#![tactic(auto)]

mod applying;
mod asking;
mod reloading;
mod reply;
mod stopping;
mod telling;

pub use applying::apply;
pub use reloading::reload;
pub use reply::reply_text;
pub use stopping::stop;
pub use telling::tell_status;
