//! Tests of the head of a log.
//!
//! They are proved apart from what they test, so that both proofs can run at the same time.
#![tactic(auto)]

#[cfg(test)]
mod byte_tests;
#[cfg(test)]
mod fault_tests;
#[cfg(test)]
mod fitting_tests;
#[cfg(test)]
mod images;
#[cfg(test)]
mod memory_tests;
