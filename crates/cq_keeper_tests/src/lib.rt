//! Tests of keepers over real queues, and over a file in memory of which a crash leaves what `cq_log::Device` allows: what is read
//! of the file, and which messages are stored.
//!
//! They are proved apart from what they test, so that both proofs can run at the same time.
#![tactic(auto)]

#[cfg(test)]
mod crash_tests;
#[cfg(test)]
mod fixture;
#[cfg(test)]
mod lives;
#[cfg(test)]
mod memory_tests;
#[cfg(test)]
mod reading;
#[cfg(test)]
mod turn_tests;
