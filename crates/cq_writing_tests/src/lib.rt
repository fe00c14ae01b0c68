//! Tests of what `write_by` appends, prints and refuses, for each form of a message.
//!
//! They are proved apart from what they test, so that both proofs can run at the same time.
#![tactic(auto)]

#[cfg(test)]
mod fault_tests;
#[cfg(test)]
mod form_tests;
#[cfg(test)]
mod memory_tests;
#[cfg(test)]
mod steps;
