//! Tests of queues that are opened in a folder, saved while they go on, and closed:
//!
//! - what they go on from, the first cycle where none has begun, and what they leave;
//! - each fault, and what the files are then;
//! - a folder of the system, with a crash in between, and what commands see of it.
//!
//! They are proved apart from what they test, so that both proofs can run at the same time.
#![tactic(auto)]

#[cfg(test)]
mod begin_tests;
#[cfg(test)]
mod checkpoint_tests;
#[cfg(test)]
mod close_tests;
#[cfg(test)]
mod example;
#[cfg(test)]
mod fault_tests;
#[cfg(test)]
mod folders;
#[cfg(test)]
mod life;
#[cfg(test)]
mod open_tests;
#[cfg(test)]
mod real_tests;
#[cfg(test)]
mod seen;
#[cfg(test)]
mod torn_place;
#[cfg(test)]
mod watched_place;
