//! The command `cq explain`: what a fault means, and what to do.
//!
//! | item | what it is for |
//! |---|---|
//! | `explain`, `Explained` | the command |
//!
//! The table in `table.rt` is made of docs/ERRORS.md.
#![tactic(auto)]

mod explaining;
mod faults;
mod table;

pub use explaining::{Explained, explain};
