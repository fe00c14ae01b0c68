//! Tests of the bytes of notes, and of notes that are played.
//!
//! They are proved apart from what they test, so that both proofs can run at the same time.
#![tactic(auto)]

#[cfg(test)]
mod frame_tests;
#[cfg(test)]
mod memory_tests;
#[cfg(test)]
mod play_tests;
