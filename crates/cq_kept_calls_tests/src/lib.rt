//! Tests of queues that keep what comes to them by calls that the caller makes, of a file in memory.
//!
//! They are proved apart from what they test, so that both proofs can run at the same time.
#![tactic(auto)]

#[cfg(test)]
mod disk;
#[cfg(test)]
mod life;
#[cfg(test)]
mod life_tests;
