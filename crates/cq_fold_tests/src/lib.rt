//! Tests of logs that are folded into the images of their folders:
//!
//! - what a folder holds after it, for commands and for a second fold;
//! - each fault, and that every file is then as it was;
//! - logs that are cut short, folders of which a call fails, and memory that is refused;
//! - a folder of the system.
//!
//! They are proved apart from what they test, so that both proofs can run at the same time.
#![tactic(auto)]

#[cfg(test)]
mod cut_tests;
#[cfg(test)]
mod failing_tests;
#[cfg(test)]
mod fault_tests;
#[cfg(test)]
mod fold_tests;
#[cfg(test)]
mod logged_tests;
#[cfg(test)]
mod logs;
#[cfg(test)]
mod memory_tests;
#[cfg(test)]
mod real_tests;
#[cfg(test)]
mod steps;
