//! Tests the machine's devices, and the reading of files.
#![tactic(auto)]

#[cfg(test)]
mod clocks;
#[cfg(test)]
mod crashes;
#[cfg(test)]
mod reads;
#[cfg(test)]
mod scratch;
#[cfg(test)]
mod shells;
#[cfg(test)]
mod stops;
