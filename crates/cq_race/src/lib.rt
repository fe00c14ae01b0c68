//! The command `race`: two appenders and two tailers share one queue, each in a thread of its own.
//!
//! `race` runs it and prints what each worker did. A `Gate` is called before each call of a worker, so a test can make
//! workers wait for one another. `OpenGate` lets every call pass.
#![tactic(auto)]

mod gate;
mod racing;
mod tally;
mod worker;

pub use gate::{Gate, OpenGate};
pub use racing::race;
