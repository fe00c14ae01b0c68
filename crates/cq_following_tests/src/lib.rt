//! Tests of what is printed of a queue while it grows, and of a take that waits.
//!
//! They are proved apart from what they test, so that both proofs can run at the same time.
#![tactic(auto)]

#[cfg(test)]
mod follow_tests;
#[cfg(test)]
mod memory_tests;
#[cfg(test)]
mod take_tests;
#[cfg(test)]
mod watch_tests;
#[cfg(test)]
mod world;
