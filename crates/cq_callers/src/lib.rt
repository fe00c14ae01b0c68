//! How the types of a shared queue are called: a caller of each, proved, and run by a test. The README, `docs/GUIDE.md` and
//! `docs/CALLING.md` show them.
//!
//! Their contracts say that a borrowed caller, and one that is given back, is one of the queue that
//! was passed in. One that comes with a queue is one of that queue, and has begun no message. What
//! they say of messages is in no contract.
#![tactic(auto)]

mod closing;
mod copying;
mod dropping;
mod endpoints;
mod reading;
mod rooms;
mod sharing;
mod shelves;
mod starting;
mod stopping;
mod taking;
mod threading;
mod writing;

pub use closing::count_to_end;
pub use copying::copied;
pub use dropping::drop_old;
pub use endpoints::sent;
pub use reading::next_message;
pub use rooms::read_in;
pub use sharing::append_beside;
pub use shelves::first_of_shelf;
pub use starting::start;
pub use stopping::reopened;
pub use taking::take_next;
pub use threading::work_in_threads;
pub use writing::{append_then_read, append_written};
