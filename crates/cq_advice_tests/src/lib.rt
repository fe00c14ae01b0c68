//! Tests of what `cq explain` finds, and of the settings and the line of `cq new`.
//!
//! They are proved apart from what they test, so that both proofs can run at the same time.
#![tactic(auto)]

#[cfg(test)]
mod advice_tests;
#[cfg(test)]
mod new_tests;
