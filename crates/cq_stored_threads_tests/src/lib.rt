//! Tests of queues with a log that several threads share: what they store, in which order, with how many syncs, and with each fault.
//!
//! They are proved apart from what they test, so that both proofs can run at the same time. What they compare is the same for every
//! schedule of the threads.
#![tactic(auto)]

mod crews;
#[cfg(test)]
mod every_tests;
mod example;
#[cfg(test)]
mod failing_tests;
mod found;
#[cfg(test)]
mod queues;
#[cfg(test)]
mod sharing_tests;

pub use crews::{Answers, Member, crew, work};
pub use found::{count_of, messages};
