//! Tests of files of the system as devices of logs.
//!
//! They are proved apart from what they test, so that both proofs can run at the same time.
#![tactic(auto)]

#[cfg(test)]
mod counted_tests;
mod failing_file;
#[cfg(test)]
mod log_tests;
mod memory_file;
#[cfg(test)]
mod opening_tests;
#[cfg(test)]
mod places;
#[cfg(test)]
mod writing_tests;

pub use failing_file::FailingFile;
pub use memory_file::MemoryFile;
