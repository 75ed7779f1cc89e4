//! Tests the daemon over made-up devices, the keep, the checker, and calls that run out of memory.
#![tactic(auto)]

#[cfg(test)]
mod check_rows;
#[cfg(test)]
mod desk;
#[cfg(test)]
mod devices;
#[cfg(test)]
mod fault_rows;
#[cfg(test)]
mod full_rows;
#[cfg(test)]
mod keep_rows;
#[cfg(test)]
mod plans;
#[cfg(test)]
mod play;
#[cfg(test)]
mod run_rows;
#[cfg(test)]
mod short_memory;
#[cfg(test)]
mod short_rows;
#[cfg(test)]
mod step_rows;
#[cfg(test)]
mod thread_rows;
#[cfg(test)]
mod tick_rows;
