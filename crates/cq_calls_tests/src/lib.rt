//! Tests of the calls together: what appenders write and tailers read of one queue, across cycles and a stop.
//!
//! They are proved apart from the calls, so that both proofs can run at the same time.
#![tactic(auto)]

#[cfg(test)]
mod allocating_tests;
#[cfg(test)]
mod backwards_tests;
#[cfg(test)]
mod both;
#[cfg(test)]
mod cycle_tests;
#[cfg(test)]
mod floor_tests;
#[cfg(test)]
mod hint_tests;
#[cfg(test)]
mod image_tests;
#[cfg(test)]
mod journal_tests;
#[cfg(test)]
mod lives;
#[cfg(test)]
mod message_tests;
#[cfg(test)]
mod place_tests;
#[cfg(test)]
mod publishing_tests;
#[cfg(test)]
mod queues;
#[cfg(test)]
mod sealing_tests;
#[cfg(test)]
mod snapshot_tests;
#[cfg(test)]
mod stopping_tests;
#[cfg(test)]
mod writing_tests;
