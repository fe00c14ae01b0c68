//! What callers in other languages ask of cycles and names, and bytes that are copied into their buffers. Such a caller
//! has a number for each roll, and gives names as bytes.
//!
//! | item | what it is for |
//! |---|---|
//! | `roll_of`, `roll_number` | the roll that has a number, and the number of a roll |
//! | `cycle_at`, `cycle_with_name` | the cycle of a moment, and of a name |
//! | `name_into` | copies the name of a cycle into a buffer |
//! | `tailer_into` | copies the name of a tailer into a buffer |
//! | `CycleFault` | why there is no such cycle or name |
//! | `copy_into`, `Copied` | copy bytes into a buffer, and say how that went |
#![tactic(auto)]

mod copying;
mod cycles;
mod names;
mod rolls;

pub use copying::{Copied, copy_into};
pub use cycles::{CycleFault, cycle_at, cycle_with_name, name_into};
pub use names::tailer_into;
pub use rolls::{roll_number, roll_of};
