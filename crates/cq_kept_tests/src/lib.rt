//! Tests of queues that keep what comes to them in a log, and what such a queue is opened with.
//!
//! They are proved apart from what they test, so that both proofs can run at the same time.
#![tactic(auto)]

#[cfg(test)]
mod fault_tests;
#[cfg(test)]
mod file_tests;
#[cfg(test)]
mod life;
#[cfg(test)]
mod life_tests;
mod start;

pub use start::{config, images, replayed_text};
