//! The program `cq` as a library. The program itself only passes in its command line and its streams.
//!
//! | item | what it is for |
//! |---|---|
//! | `status`, `Start`, `Terminals`, `start_of` | run a whole start of the program, and what it is given |
//! | `DONE`, `FAULT`, `NOT_UNDERSTOOD`, `NOTHING` | its exit statuses |
//! | `parse`, `ParseFault` | make an `Order` from the words of a command line |
//! | `Order`, `InitSettings` | a command with its values |
//! | `run`, `take_by`, `echo`, `race` | run commands |
//! | `TakeSettings`, `Took` | what a `take` with options is to do, and what it found |
//! | `ToolFault` | why a command failed |
//! | `Folder`, `RealFolder`, `MemoryFolder`, `FolderFault` | the folders that commands work on |
//! | `read_config`, `write_config`, `SavedConfig`, `ConfigFault` | the text of a queue's configuration |
//! | `dump_text` | the records of an image as text |
//! | `Gate`, `OpenGate` | what `race` calls before and after each call of a worker |
#![tactic(auto)]

mod starting;

pub use cq_command_line::{ParseFault, parse};
pub use cq_config_text::{ConfigFault, SavedConfig, read_config, write_config};
pub use cq_folder::{Folder, FolderFault, MemoryFolder};
pub use cq_orders::{InitSettings, Order, TakeSettings};
pub use cq_program::{DONE, FAULT, NOT_UNDERSTOOD, NOTHING, Start, Terminals, start_of};
pub use cq_race::{Gate, OpenGate, race};
pub use cq_real_folder::RealFolder;
pub use cq_running::{Took, run, take_by};
pub use cq_text::{ToolFault, dump_text, echo};
pub use starting::status;
