//! What reads and takes of an endpoint return: what those of a tailer do, and `Finished` besides.
ghost use Rattle.cq_endpoint.specs.Reads.{IsTold, next_into_outcome, next_outcome, peeked_outcome, read_at_into_outcome, read_at_outcome, taken_into_outcome, taken_outcome};

use cq_cycle::Index;
use cq_model::Message;
use cq_tail::{At, AtInto, Found, FoundInto, Peeked, Take, TakeInto};

/// What a read of the next message returns.
#[derive(Debug, Drop)]
pub enum Next {
    /// A message, with its index.
    Message(Index, Message),
    /// There is no later message yet.
    NotYet,
    /// There is no later message, and none comes any more: the queue is closed.
    Finished,
    /// There is no earlier message.
    BeforeStart,
}

impl Next {
    /// Returns what this answer of a tailer is. `NotYet` is final: the queue is closed.
    pub(crate) fn of(found: Found) -> Next
        ensures { IsTold Found.NotYet found (next_outcome result) }
    {
        match found {
            Found::Message(index, message) => Next::Message(index, message),
            Found::NotYet => Next::Finished,
            Found::BeforeStart => Next::BeforeStart,
        }
    }
}

/// What a look at the next message returns, which reads nothing.
#[derive(Clone, Copy, Debug, PartialEq, Eq)]
pub enum NextPeeked {
    /// The index of the next message, and its length in bytes.
    Message(Index, u32),
    /// There is no later message yet.
    NotYet,
    /// There is no later message, and none comes any more: the queue is closed.
    Finished,
    /// There is no earlier message.
    BeforeStart,
}

impl NextPeeked {
    /// Returns what this answer of a tailer is. `NotYet` is final: the queue is closed.
    pub(crate) fn of(peeked: Peeked) -> NextPeeked
        ensures { IsTold Peeked.NotYet peeked (peeked_outcome result) }
    {
        match peeked {
            Peeked::Message(index, len) => NextPeeked::Message(index, len),
            Peeked::NotYet => NextPeeked::Finished,
            Peeked::BeforeStart => NextPeeked::BeforeStart,
        }
    }
}

/// What a read at an index returns.
#[derive(Debug, Drop)]
pub enum ReadAt {
    /// The message.
    Message(Message),
    /// No message is there yet.
    NotYet,
    /// No message is there, and none comes any more: the queue is closed.
    Finished,
    /// No message will ever be there: its cycle is below the current one.
    Never,
    /// Reads skip its cycle, which was dropped.
    Gone,
}

impl ReadAt {
    /// Returns what this answer of a tailer is. `NotYet` is final: the queue is closed.
    pub(crate) fn of(found: At) -> ReadAt
        ensures { IsTold At.NotYet found (read_at_outcome result) }
    {
        match found {
            At::Message(message) => ReadAt::Message(message),
            At::NotYet => ReadAt::Finished,
            At::Never => ReadAt::Never,
            At::Gone => ReadAt::Gone,
        }
    }
}

/// What a take of the next message of a name returns.
#[derive(Debug, Drop)]
pub enum Taken {
    /// The message, with its index. The name is after it now.
    Taken(Index, Message),
    /// There is no message at or after the position of the name yet.
    NotYet,
    /// There is no message at or after the position of the name, and none comes any more: the queue is closed.
    Finished,
    /// Another caller has moved the name, which was found at this position. Nothing was taken.
    Moved(u64),
}

impl Taken {
    /// Returns what this answer of a tailer is. `NotYet` is final: the queue is closed.
    pub(crate) fn of(found: Take) -> Taken
        ensures { IsTold Take.NotYet found (taken_outcome result) }
    {
        match found {
            Take::Taken(index, message) => Taken::Taken(index, message),
            Take::NotYet => Taken::Finished,
            Take::Moved(position) => Taken::Moved(position),
        }
    }
}

/// What a read of the next message into a buffer returns. The buffer is the caller's own bytes.
#[derive(Clone, Copy, Debug, PartialEq, Eq)]
pub enum NextInto {
    /// The index of a message, and its length in bytes. The first bytes of the buffer are the message.
    Message(Index, u32),
    /// The next message has this length in bytes, which is more than the buffer has. Nothing was read.
    NoRoom(u32),
    /// There is no later message yet.
    NotYet,
    /// There is no later message, and none comes any more: the queue is closed.
    Finished,
    /// There is no earlier message.
    BeforeStart,
}

impl NextInto {
    /// Returns what this answer of a tailer is. `NotYet` is final: the queue is closed.
    pub(crate) fn of(found: FoundInto) -> NextInto
        ensures { IsTold FoundInto.NotYet found (next_into_outcome result) }
    {
        match found {
            FoundInto::Message(index, len) => NextInto::Message(index, len),
            FoundInto::NoRoom(len) => NextInto::NoRoom(len),
            FoundInto::NotYet => NextInto::Finished,
            FoundInto::BeforeStart => NextInto::BeforeStart,
        }
    }
}

/// What a read at an index into a buffer returns.
#[derive(Clone, Copy, Debug, PartialEq, Eq)]
pub enum ReadAtInto {
    /// The length of the message in bytes. The first bytes of the buffer are the message.
    Message(u32),
    /// The message has this length in bytes, which is more than the buffer has. Nothing was read.
    NoRoom(u32),
    /// No message is there yet.
    NotYet,
    /// No message is there, and none comes any more: the queue is closed.
    Finished,
    /// No message will ever be there: its cycle is below the current one.
    Never,
    /// Reads skip its cycle, which was dropped.
    Gone,
}

impl ReadAtInto {
    /// Returns what this answer of a tailer is. `NotYet` is final: the queue is closed.
    pub(crate) fn of(found: AtInto) -> ReadAtInto
        ensures { IsTold AtInto.NotYet found (read_at_into_outcome result) }
    {
        match found {
            AtInto::Message(len) => ReadAtInto::Message(len),
            AtInto::NoRoom(len) => ReadAtInto::NoRoom(len),
            AtInto::NotYet => ReadAtInto::Finished,
            AtInto::Never => ReadAtInto::Never,
            AtInto::Gone => ReadAtInto::Gone,
        }
    }
}

/// What a take of the next message of a name into a buffer returns.
#[derive(Clone, Copy, Debug, PartialEq, Eq)]
pub enum TakenInto {
    /// The index of a message, and its length in bytes. The first bytes of the buffer are the message. The name is after
    /// it now.
    Taken(Index, u32),
    /// The next message has this length in bytes, which is more than the buffer has. Nothing was taken.
    NoRoom(u32),
    /// There is no message at or after the position of the name yet.
    NotYet,
    /// There is no message at or after the position of the name, and none comes any more: the queue is closed.
    Finished,
    /// Another caller has moved the name, which was found at this position. Nothing was taken.
    Moved(u64),
}

impl TakenInto {
    /// Returns what this answer of a tailer is. `NotYet` is final: the queue is closed.
    pub(crate) fn of(found: TakeInto) -> TakenInto
        ensures { IsTold TakeInto.NotYet found (taken_into_outcome result) }
    {
        match found {
            TakeInto::Taken(index, len) => TakenInto::Taken(index, len),
            TakeInto::NoRoom(len) => TakenInto::NoRoom(len),
            TakeInto::NotYet => TakenInto::Finished,
            TakeInto::Moved(position) => TakenInto::Moved(position),
        }
    }
}
