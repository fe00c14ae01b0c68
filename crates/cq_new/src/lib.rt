//! What the command `cq new` adds to `init`: settings for those that were not given, and the line of `init` that does the same.
//!
//! | item | what it is for |
//! |---|---|
//! | `settings_of` | the settings of a new queue |
//! | `init_line` | the line of `init` |
//! | `laws` | what holds of these settings |
#![tactic(auto)]

pub mod laws;
mod line;
mod making;

pub use line::init_line;
pub use making::settings_of;
