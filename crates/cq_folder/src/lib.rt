//! The folder of a queue, as the calls that any folder has: a command enters it, lists, reads and writes its files, and
//! leaves it. A folder of the system is in `cq_real_folder`.
//!
//! | item | what it is for |
//! |---|---|
//! | `Folder` | the calls of a folder |
//! | `Access` | how a command enters: `Shared` or `Alone` |
//! | `NewFile` | a file that is to be saved |
//! | `FolderFault`, `fault_of` | why a call failed, and the fault for an error of the system |
//! | `MemoryFolder` | a folder in memory, whose files contracts see |
//! | `FailingFolder` | a folder of which one call fails, for tests |
//! | `CONFIG_FILE`, `IMAGE_ENDING`, `LOG_FILE`, `RECORD_FILE`, `PART_ENDING` | the names of a queue's files |
//! | `has_name` | whether a file is among those listed |
#![tactic(auto)]

mod failing;
mod memory;
mod names;
mod storage;

pub use failing::FailingFolder;
pub use memory::MemoryFolder;
pub use names::{CONFIG_FILE, IMAGE_ENDING, LOG_FILE, PART_ENDING, RECORD_FILE, has_name};
pub use storage::{Access, Folder, FolderFault, NewFile, fault_of};
