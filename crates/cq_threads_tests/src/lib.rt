//! Tests of the calls of one queue by threads that run concurrently: what they append, read, take, drop and snapshot.
//!
//! They are proved apart from the calls, so that both proofs can run at the same time.
#![tactic(auto)]

#[cfg(test)]
mod beginnings;
#[cfg(test)]
mod claim_tests;
#[cfg(test)]
mod filling_tests;
#[cfg(test)]
mod growing_tests;
#[cfg(test)]
mod many_tests;
#[cfg(test)]
mod numbering;
#[cfg(test)]
mod parts_tests;
#[cfg(test)]
mod shared;
#[cfg(test)]
mod sharing_tests;
#[cfg(test)]
mod thread_tests;
