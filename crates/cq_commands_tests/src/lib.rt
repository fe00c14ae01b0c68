//! Tests of the commands:
//!
//! - the arguments that name them;
//! - what they do over folders in memory, if they need one, in worked examples;
//! - the order of faults, and limits;
//! - the race, whose threads no contract mentions.
//!
//! They are proved apart from the commands, so that both proofs can run at the same time.
#![tactic(auto)]

#[cfg(test)]
mod command_tests;
#[cfg(test)]
mod drop_tests;
#[cfg(test)]
mod echo_tests;
#[cfg(test)]
mod falling_tests;
#[cfg(test)]
mod fault_tests;
#[cfg(test)]
mod form_tests;
#[cfg(test)]
mod help_tests;
#[cfg(test)]
mod images;
#[cfg(test)]
mod limit_tests;
#[cfg(test)]
mod migrate_tests;
#[cfg(test)]
mod outside_tests;
#[cfg(test)]
mod pair_tests;
#[cfg(test)]
mod race_tests;
#[cfg(test)]
mod reading_tests;
#[cfg(test)]
mod salvage_tests;
#[cfg(test)]
mod steps;
#[cfg(test)]
mod streams;
#[cfg(test)]
mod take_by_tests;
#[cfg(test)]
mod take_tests;
#[cfg(test)]
mod version_tests;
#[cfg(test)]
mod watched;
#[cfg(test)]
mod word_tests;
