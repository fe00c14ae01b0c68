//! The forms in which a message of a queue is printed.
//!
//! | item | what it is for |
//! |---|---|
//! | `Printer` | adds messages in one of the forms of `ReadForm` |
//! | `push_message` | adds it as its index, a space, its bytes and a line feed |
//! | `CycleName`, `cycle_names` | the names of cycles, which the form `Json` prints |
//! | `ReadForm` | the forms (from `cq_orders`) |
#![tactic(auto)]

mod forms;
mod names;
mod objects;

pub use cq_orders::ReadForm;
pub use forms::{Printer, push_message};
pub use names::{CycleName, cycle_names};
