//! Tests of logs that are played on what images hold.
//!
//! They are proved apart from what they test, so that both proofs can run at the same time.
#![tactic(auto)]

#[cfg(test)]
mod fault_tests;
#[cfg(test)]
mod images;
#[cfg(test)]
mod logs;
#[cfg(test)]
mod memory_tests;
#[cfg(test)]
mod played;
#[cfg(test)]
mod tail_tests;
#[cfg(test)]
mod turn_tests;
