//! The command `cq trim`: it removes the images of dropped cycles from the folder of a queue, so that as many cycles may
//! begin again.
//!
//! | item | what it is for |
//! |---|---|
//! | `trim` | the command |
//! | `TrimFault` | why nothing is removed |
//! | `TrimSettings` | what is to be removed (from `cq_orders`) |
//! | `cycle_meant` | the cycle that a word means |
//!
//! `laws.rt` says what is left of a queue that was trimmed.
#![tactic(auto)]

mod fault;
mod floors;
pub mod laws;
mod planning;
mod saving;
mod trimming;
mod words;

pub use cq_orders::TrimSettings;
pub use fault::TrimFault;
pub use trimming::trim;
pub use words::cycle_meant;
