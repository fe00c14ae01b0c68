//! Tests of queues in folders of the system that are saved while threads append, and of those that a checkpoint ends.
//!
//! They are proved apart from what they test, so that both proofs can run at the same time. What they compare is the same for every
//! schedule of the threads.
#![tactic(auto)]

#[cfg(test)]
mod folders;
#[cfg(test)]
mod meanwhile;
#[cfg(test)]
mod saving_tests;
#[cfg(test)]
mod unsaved_tests;
