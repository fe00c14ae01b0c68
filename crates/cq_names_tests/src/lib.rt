//! Tests of what `cq name` prints, changes and refuses.
//!
//! They are proved apart from what they test, so that both proofs can run at the same time.
#![tactic(auto)]

#[cfg(test)]
mod change_tests;
#[cfg(test)]
mod fault_tests;
#[cfg(test)]
mod memory_tests;
#[cfg(test)]
mod steps;
#[cfg(test)]
mod word_tests;
