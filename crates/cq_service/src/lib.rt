//! The command `log`: a queue stays open and takes in the lines of the standard input. Its images are saved from time to time, and at the
//! end.
//!
//! | item | what it is for |
//! |---|---|
//! | `log` | opens the queue of a folder, takes lines in, and closes it |
//! | `ServiceFault` | why it ended |
#![tactic(auto)]

mod fault;
mod served;
mod service;

pub use fault::ServiceFault;
pub use service::log;
