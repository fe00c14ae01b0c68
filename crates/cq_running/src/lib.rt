//! Runs a command of the program `cq`, over any folder, reader and writer.
//!
//! | item | what it is for |
//! |---|---|
//! | `run` | runs an `Order`, a command with its values, that is plain (`IsPlain`): `cq_program` runs the others |
//! | `init`, `check`, `dump`, `salvage`, `migrate` | commands on the files of a folder (from `cq_file_commands`) |
//! | `write` | appends messages (from `cq_writing`) |
//! | `read`, `read_on`, `take`, `take_by`, `drop_before` | commands on a queue (from `cq_commands`) |
//! | `stat` | prints the settings of a queue, its cycles, its names, and what is left (from `cq_stat`) |
//! | `echo`, `cycle` | commands on texts alone (from `cq_text`) |
//! | `Order`, `InitSettings`, `ReadSettings`, `ReadForm`, `TakeSettings` | what `run` and `take_by` are given (from `cq_orders`) |
//! | `ReadPlace`, `Took` | how far a round of `read_on` came, and what `take_by` took (from `cq_commands`) |
//! | `ToolFault` | why a command failed (from `cq_text`) |
//!
//! `cq_command_line` makes an `Order` from the words of a command line. This crate knows nothing of how they are
//! written.
#![tactic(auto)]

mod running;

pub use cq_commands::{ReadPlace, Took, drop_before, read, read_on, take, take_by};
pub use cq_file_commands::{check, dump, init, migrate, salvage};
pub use cq_orders::{InitSettings, Order, ReadForm, ReadSettings, TakeSettings};
pub use cq_stat::stat;
pub use cq_text::{ToolFault, cycle, echo};
pub use cq_writing::write;
pub use running::run;
