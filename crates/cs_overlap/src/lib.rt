//! Faults of the windows of one stretch of days: a quick test, and finders of the first fault.
#![tactic(auto)]

mod found;
mod load;
mod quiet;
mod role;
mod roles;
mod split;
mod sums;
mod table;

pub use found::missing;
pub use quiet::Quiet;
pub use roles::Roles;
