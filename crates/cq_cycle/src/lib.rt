//! Roll cycles and indexes: in which cycle of time a moment lies, how a cycle is named, and where in a queue a message
//! is.
//!
//! | item | what it is for |
//! |---|---|
//! | `Roll`, `ROLLS`, `roll_named` | how long a cycle is, and the word for it |
//! | `cycle_of`, `BadMoment` | the cycle in which a moment lies |
//! | `has_cycle`, `LAST_CYCLE`, `LAST_MOMENT` | which cycles a queue may have |
//! | `Index` | the place of a message: its cycle and its sequence number |
//! | `name_of`, `cycle_named`, `NameFault` | the names of cycles |
//! | `laws` | what holds of names |
#![tactic(auto)]

mod date;
mod digits;
mod index;
pub mod laws;
mod name;
mod roll;
mod roll_word;
mod time;

pub use index::Index;
pub use name::{NameFault, cycle_named, name_of};
pub use roll::{BadMoment, LAST_CYCLE, LAST_MOMENT, ROLLS, Roll, cycle_of, has_cycle};
pub use roll_word::roll_named;
