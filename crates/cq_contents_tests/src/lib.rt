//! Tests of a writer over the lists of a queue: what it appends and refuses, as a journal's writer does.
//!
//! They are proved apart from what they test, so that both proofs can run at the same time.
#![tactic(auto)]

#[cfg(test)]
mod append_tests;
#[cfg(test)]
mod memory_tests;
#[cfg(test)]
mod queues;
