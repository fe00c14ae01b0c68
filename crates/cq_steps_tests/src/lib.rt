//! Tests of single atomic steps on the shared words, of how many steps calls take, and of callers that are lost
//! between any two steps.
//!
//! Each call of this crate makes the steps of an appender's call one by one, on the shared words. It stops when its
//! `Steps` are used up, and its caller makes no step after that, like that of a thread that dies. A caller that has made
//! no step then stops the queue. An append begins here with a load of the tail header, which an appender right after its
//! own last message leaves out. The load changes nothing.
#![tactic(auto)]

#[cfg(test)]
mod advance_tests;
#[cfg(test)]
mod advancing;
#[cfg(test)]
mod append_tests;
#[cfg(test)]
mod beside_tests;
#[cfg(test)]
mod claim_tests;
#[cfg(test)]
mod claiming;
#[cfg(test)]
mod few_steps_tests;
#[cfg(test)]
mod first;
#[cfg(test)]
mod hint_tests;
#[cfg(test)]
mod looking;
#[cfg(test)]
mod many;
#[cfg(test)]
mod near_tests;
#[cfg(test)]
mod parts_tests;
#[cfg(test)]
mod publishing;
#[cfg(test)]
mod queues;
#[cfg(test)]
mod reading;
#[cfg(test)]
mod sealing_tests;
#[cfg(test)]
mod steps;
#[cfg(test)]
mod writing;
