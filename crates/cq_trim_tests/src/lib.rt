//! Tests of what `cq trim` removes, leaves and says.
//!
//! They are proved apart from what they test, so that both proofs can run at the same time.
#![tactic(auto)]

#[cfg(test)]
mod life_tests;
#[cfg(test)]
mod memory_tests;
#[cfg(test)]
mod steps;
#[cfg(test)]
mod trim_tests;
