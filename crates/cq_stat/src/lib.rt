//! What `cq stat` says of a queue that is kept in a folder: its settings, its cycles, its names, and what is left.
//!
//! | item | what it is for |
//! |---|---|
//! | `stat` | the command |
//! | `stat_of` | makes a `QueueStat` of the settings of a queue and what it holds |
//! | `QueueStat`, `CycleStat`, `CycleFacts`, `CycleState`, `NameStat` | what is said |
//! | `text_of` | a `QueueStat` as text: lines, or JSON |
//! | `messages_left` | how many messages are left for a name |
#![tactic(auto)]

mod cycles;
mod facts;
mod json;
mod lines;
mod names;
mod printing;
mod telling;

pub use facts::{CycleFacts, CycleStat, CycleState, NameStat, QueueStat};
pub use names::messages_left;
pub use printing::{stat, text_of};
pub use telling::stat_of;
