//! The command `cq repair`: it makes the messages before the fault of an image the image of its cycle, and keeps the old file
//! under another name.
//!
//! | item | what it is for |
//! |---|---|
//! | `repair` | the command |
//! | `RepairFault`, `RepairRefusal` | why nothing is repaired |
//! | `laws` | the new image has no fault, and the folder can be opened |
#![tactic(auto)]

mod deciding;
mod fault;
mod finding;
mod keeping;
pub mod laws;
mod planning;
mod repairing;
mod telling;

pub use fault::{RepairFault, RepairRefusal};
pub use repairing::repair;
