//! The command `cq name`: it prints the names of the tailers of a queue with their positions, adds and removes names, and
//! moves them.
//!
//! | item | what it is for |
//! |---|---|
//! | `names` | the command |
//! | `NameFault`, `NameRefusal` | why nothing is changed |
//! | `NameChange` | what is to be done (from `cq_orders`) |
//!
//! `laws.rt` says what is left of a queue whose names were changed.
#![tactic(auto)]

mod deciding;
mod editing;
mod fault;
pub mod laws;
mod lines;
mod naming;

pub use cq_orders::NameChange;
pub use fault::{NameFault, NameRefusal};
pub use naming::names;
