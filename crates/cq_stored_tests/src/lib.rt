//! Tests of queues with a log that threads share, by one thread: what each call answers, and what a crash leaves then.
//!
//! They are proved apart from what they test, so that both proofs can run at the same time.
#![tactic(auto)]

#[cfg(test)]
mod life;
#[cfg(test)]
mod life_tests;
#[cfg(test)]
mod memory_tests;
