//! A folder as commands see it, with what its log gives: a queue that was live in the folder may have left messages in the log,
//! `queue.log`, that its images do not have.
//!
//! - A command that may write folds the log into the images when it enters. It is refused while a queue is live in the folder.
//! - A command that only reads sees the files as a fold would leave them, and changes none. It may enter while a queue is live.
//!
//! `docs/FORMATS.md` has the bytes of a log.
//!
//! | item | what it is for |
//! |---|---|
//! | `LoggedFolder` | a folder that is seen with what its log gives |
//! | `LogFault` | why the log keeps a command out |
//! | `LogLock`, `LogUse` | the lock that a live queue has on the log, and what a look at it found |
//! | `LogNews` | what a command that only reads found of the log |
//! | `SystemLock` | the lock of a log in a folder of the system |
#![tactic(auto)]

mod entering;
mod fault;
mod folder;
mod lock;
mod shown;
mod system_lock;

pub use fault::LogFault;
pub use folder::LoggedFolder;
pub use lock::{LogLock, LogNews, LogUse};
pub use system_lock::SystemLock;
