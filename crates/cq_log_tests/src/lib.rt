//! Tests of logs, over a file in memory of which a crash leaves what `cq_log::Device` allows.
//!
//! They are proved apart from what they test, so that both proofs can run at the same time.
#![tactic(auto)]

#[cfg(test)]
mod calls;
#[cfg(test)]
mod crash_tests;
#[cfg(test)]
mod expecting;
#[cfg(test)]
mod file_tests;
#[cfg(test)]
mod layout_tests;
#[cfg(test)]
mod memory_tests;
#[cfg(test)]
mod reading_tests;
mod ruin;
mod torn_file;

pub use ruin::Ruin;
pub use torn_file::{Change, TornFile};
