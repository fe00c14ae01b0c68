//! What is said on a terminal of work that takes long.
//!
//! | item | what it is for |
//! |---|---|
//! | `with_progress` | does work, and says meanwhile for how long it has been done |
//! | `Progress` | the line that says so, which work erases before it prints |
#![tactic(auto)]

mod progress;

pub use progress::{Progress, with_progress};
