//! The commands of the program `cq` on the files of a folder, which read its files one by one.
//!
//! | item | what it is for |
//! |---|---|
//! | `init` | makes a queue in a folder |
//! | `check`, `dump`, `salvage` | print the state, the records, and the messages of images |
//! | `migrate` | makes a folder of version 1 into one of version 2 |
#![tactic(auto)]

mod checking;
mod dumping;
mod given;
mod initialising;
mod migrating;
mod salvaging;

pub use checking::check;
pub use dumping::dump;
pub use initialising::init;
pub use migrating::migrate;
pub use salvaging::salvage;
