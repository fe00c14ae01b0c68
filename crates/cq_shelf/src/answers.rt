//! What reads and takes of a shelf return.
use cq_model::Message;
use cq_row::Position;

/// What is read next.
#[derive(Debug, Drop)]
pub enum ShelfNext {
    /// A message, and where it is.
    Message(Position, Message),
    /// There is no later message yet.
    NotYet,
    /// There is no later message, and none comes any more: the shelf is closed.
    Finished,
    /// There is no earlier message in what is kept.
    BeforeStart,
    /// This many queues were dropped before they were read. The next read goes on from the oldest that lives.
    Missed(u64),
}

/// What is read next into a buffer.
#[derive(Clone, Copy, Debug, PartialEq, Eq)]
pub enum ShelfNextInto {
    /// A message of this many bytes, and where it is.
    Message(Position, u32),
    /// The next message has this many bytes, which is more than the buffer has.
    NoRoom(u32),
    /// There is no later message yet.
    NotYet,
    /// There is no later message, and none comes any more: the shelf is closed.
    Finished,
    /// There is no earlier message in what is kept.
    BeforeStart,
    /// This many queues were dropped before they were read. The next read goes on from the oldest that lives.
    Missed(u64),
}

/// What is read at a position.
#[derive(Debug, Drop)]
pub enum ShelfReadAt {
    /// The message.
    Message(Message),
    /// No message is there yet.
    NotYet,
    /// No message will ever be there.
    Never,
    /// Its queue was freed or dropped, or its cycle was dropped.
    Gone,
}

/// What is read at a position into a buffer.
#[derive(Clone, Copy, Debug, PartialEq, Eq)]
pub enum ShelfReadAtInto {
    /// A message of this many bytes.
    Message(u32),
    /// The message has this many bytes, which is more than the buffer has.
    NoRoom(u32),
    /// No message is there yet.
    NotYet,
    /// No message will ever be there.
    Never,
    /// Its queue was freed or dropped, or its cycle was dropped.
    Gone,
}

/// What a take returns.
#[derive(Debug, Drop)]
pub enum ShelfTaken {
    /// A message, and where it is. The name is after it now.
    Taken(Position, Message),
    /// There is no later message yet.
    NotYet,
    /// There is no later message, and none comes any more: the shelf is closed.
    Finished,
    /// Another taker has moved the name, which was found here. Nothing was taken. Try again.
    Moved(Position),
    /// This many queues were dropped before the name had taken all of them. The next take goes on from the oldest that lives.
    Missed(u64),
}

/// What a take into a buffer returns.
#[derive(Clone, Copy, Debug, PartialEq, Eq)]
pub enum ShelfTakenInto {
    /// A message of this many bytes, and where it is. The name is after it now.
    Taken(Position, u32),
    /// The next message has this many bytes, which is more than the buffer has. Nothing was taken.
    NoRoom(u32),
    /// There is no later message yet.
    NotYet,
    /// There is no later message, and none comes any more: the shelf is closed.
    Finished,
    /// Another taker has moved the name, which was found here. Nothing was taken. Try again.
    Moved(Position),
    /// This many queues were dropped before the name had taken all of them. The next take goes on from the oldest that lives.
    Missed(u64),
}
