//! Tests of the input of a queue that stays open.
#![tactic(auto)]

#[cfg(test)]
mod section_tests;
#[cfg(test)]
mod timed_tests;
