//! Points of a queue: the index from which something is read or kept, by the word that a user writes for it, and the time of a clock.
//!
//! | item | what it is for |
//! |---|---|
//! | `point_meant` | the index that a word means: an index, a moment or the name of a cycle |
//! | `index_spelled` | the index that 16 hexadecimal digits spell |
//! | `moment_now`, `ClockFault` | the time of a clock, and why it is no moment |
#![tactic(auto)]

mod clock;
mod points;

pub use clock::{ClockFault, moment_now};
pub use points::{index_spelled, point_meant};
