use cq_endpoint::Endpoint;
use cq_kept_calls::CallKeeper;
use cq_saved::Saved;
use cq_shelf::{ShelfReader, ShelfTaker, ShelfWriter};
use cq_shown::Stopped;

/// What a handle holds.
#[derive(Drop)]
pub enum Held {
    /// An endpoint of a queue.
    Endpoint(Endpoint),
    /// A queue that was stopped, and is not read yet.
    Stopped(Stopped),
    /// A queue as plain data.
    Saved(Saved),
    /// A keeper of a queue.
    Keeper(CallKeeper),
    /// A writer, a reader or a taker of a shelf.
    Shelf(ShelfUser),
}

/// Who uses a shelf.
#[derive(Drop)]
pub enum ShelfUser {
    /// It appends messages.
    Writer(ShelfWriter),
    /// It reads them.
    Reader(ShelfReader),
    /// It takes them by a name.
    Taker(ShelfTaker),
}
