//! Tests of what `cq repair` keeps, leaves and says.
//!
//! They are proved apart from what they test, so that both proofs can run at the same time.
#![tactic(auto)]

#[cfg(test)]
mod cut_tests;
#[cfg(test)]
mod failing_tests;
#[cfg(test)]
mod memory_tests;
#[cfg(test)]
mod repair_tests;
#[cfg(test)]
mod steps;
