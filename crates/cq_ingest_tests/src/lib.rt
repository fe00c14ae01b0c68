//! Tests of live queues that take lines in.
//!
//! They are proved apart from what they test, so that both proofs can run at the same time.
#![tactic(auto)]

#[cfg(test)]
mod ingest_tests;
#[cfg(test)]
mod streams;
