//! Tests of what `cq stat` says.
//!
//! They are proved apart from what they test, so that both proofs can run at the same time.
#![tactic(auto)]

#[cfg(test)]
mod folder_tests;
#[cfg(test)]
mod memory_tests;
#[cfg(test)]
mod stat_tests;
