//! Proves that an accepted plan is safe: the theorems over every history, apart from any code.
#![tactic(auto)]

mod accepted_plans;
mod calm_plans;
mod check_fault;

pub use accepted_plans::{
    accepted_is_calm, accepted_is_safe, classes_have_the_windows_of_kinds,
    named_days_end_stretches, no_fault_is_accepted, some_are_accepted, windows_are_exact,
};
pub use calm_plans::{
    calm_plans_are_safe, few_runs, premises_can_be_met, runs_stay_in_their_windows,
    windows_that_are_listed,
};
pub use check_fault::CheckFault;
