//! Commands that wait for what comes, over any folder, clock and writer (ours).
//!
//! | item | what it is for |
//! |---|---|
//! | `follow` | prints messages, and goes on as the queue grows |
//! | `take_waiting` | takes messages under a name, and waits for the first where there is none |
//! | `Watch` | waits between looks at a folder |
//! | `Changes`, `FolderChanges` | what says whether a folder may have changed, and one for a folder of the system |
//! | `Pipe` | a writer that notes that its reader is gone |
//!
//! The messages of a queue are in the files of its folder, so one who waits for them looks again and again. Each look that may
//! find something enters the folder, reads it and leaves it, as a single command does.
//!
//! Proved is what is printed and left, over any folder and clock. It is not proved that time passes, nor that the system says of
//! a folder when it changed.
#![tactic(auto)]

mod changes;
mod following;
mod pipe;
mod taking;
mod watch;

pub use changes::{Changes, FolderChanges};
pub use following::follow;
pub use pipe::Pipe;
pub use taking::take_waiting;
pub use watch::Watch;
