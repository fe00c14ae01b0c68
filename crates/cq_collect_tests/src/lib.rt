//! Tests of collectors over real queues: what their turns note, and that the notes give what the queue holds.
//!
//! They are proved apart from what they test, so that both proofs can run at the same time.
#![tactic(auto)]

#[cfg(test)]
mod fixture;
#[cfg(test)]
mod lives;
#[cfg(test)]
mod memory_tests;
#[cfg(test)]
mod played;
#[cfg(test)]
mod turn_tests;
#[cfg(test)]
mod writing;
