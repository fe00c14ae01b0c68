//! The input of a queue that stays open: in sections of whole lines, and up to a deadline.
//!
//! | item | what it is for |
//! |---|---|
//! | `Sections` | an input in sections of whole lines: a queue is saved between two of them |
//! | `TimedInput` | an input that another thread reads, up to a deadline |
#![tactic(auto)]

mod sections;
mod timed;

pub use sections::Sections;
pub use timed::TimedInput;
