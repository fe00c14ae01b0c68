//! Calls of endpoints, and what they return, as text.
//!
//! The calls of appenders and tailers in `cq_calls_tests` have the same names and texts. An endpoint gives what its appender
//! refuses as `Refused(..)`. What tailers find is written here and there, since `cq_fixtures` is below `cq_tail`.
use cq_cycle::Index;
use cq_endpoint::{
    Direction, Endpoint, Next, NextInto, NextPeeked, ReadAt, ReadAtInto, Taken, TakenInto,
};
use cq_fixtures::{
    done_text, expect_answer, index_text, lists_text, message_text, number_text, shown_text,
};
use std::alloc::{AllocError, Global};
use std::fmt::Debug;
use std::test::Fail;

/// A call of an endpoint. Those that read into a buffer are given one of this many dots.
#[derive(Clone, Copy)]
pub enum Call {
    /// Appends this text at a moment.
    Append(u64, &'static str),
    /// Appends "a" at moment 0 until it is refused, and counts the messages.
    AppendAll,
    /// Begins the cycle of a moment.
    Advance(u64),
    /// Begins a message at a moment, of at most this many bytes.
    Begin(u64, u32),
    /// Puts this text into the message that was begun.
    Put(&'static str),
    /// Completes the message that was begun.
    Complete,
    /// Gives up the message that was begun.
    GiveUp,
    /// Reads the next message.
    Next,
    /// Looks up the next message.
    Peek,
    /// Reads the next message into a buffer.
    NextInto(usize),
    /// Reads the message at an index.
    ReadAt(u64),
    /// Reads the message at an index into a buffer.
    ReadAtInto(u64, usize),
    /// Takes a message by a name.
    Take(&'static str),
    /// Takes a message by a name into a buffer.
    TakeInto(&'static str, usize),
    /// Drops the cycles below this one.
    DropBefore(u32),
    /// Moves a name from one position to another.
    Seek(&'static str, u64, u64),
    /// Asks for the position of a name.
    Position(&'static str),
    /// Moves to an index.
    MoveTo(u64),
    /// Moves to the start.
    ToStart,
    /// Moves to the end.
    ToEnd,
    /// Turns this way.
    Turn(Direction),
    /// Asks where it reads.
    Cursor,
    /// Asks for the end that it has seen.
    SeenEnd,
    /// Takes a snapshot.
    Snapshot,
    /// Closes the queue.
    Close,
    /// Asks whether the queue is closed.
    IsClosed,
}

/// Calls of an endpoint in turn, each with what it returns.
pub type Calls = &'static [(Call, &'static str)];

/// What is read next.
fn found_text(alloc: Global, answer: &Result<Next, AllocError>) -> Result<String, Fail> {
    match answer {
        Ok(Next::Message(index, message)) => message_text(alloc, *index, message),
        other => shown_text(alloc, other),
    }
}

/// What is read at an index.
fn at_text(
    alloc: Global,
    index: Index,
    answer: &Result<ReadAt, AllocError>,
) -> Result<String, Fail> {
    match answer {
        Ok(ReadAt::Message(message)) => message_text(alloc, index, message),
        other => shown_text(alloc, other),
    }
}

/// What is taken.
fn taken_text<E: Debug>(alloc: Global, answer: &Result<Taken, E>) -> Result<String, Fail> {
    match answer {
        Ok(Taken::Taken(index, message)) => message_text(alloc, *index, message),
        other => shown_text(alloc, other),
    }
}

/// What comes next: a message's index and length.
fn peeked_text(alloc: Global, peeked: NextPeeked) -> Result<String, Fail> {
    match peeked {
        NextPeeked::Message(index, len) => Ok(format!(in alloc; "{} {len}", index.value())?),
        other => Ok(format!(in alloc; "{other:?}")?),
    }
}

/// What is read next into a buffer: a message's index and length.
fn found_into_text(alloc: Global, found: NextInto) -> Result<String, Fail> {
    match found {
        NextInto::Message(index, len) => Ok(format!(in alloc; "{} {len}", index.value())?),
        other => Ok(format!(in alloc; "{other:?}")?),
    }
}

/// What is read at an index into a buffer: a message's length.
fn at_into_text(alloc: Global, at: ReadAtInto) -> Result<String, Fail> {
    match at {
        ReadAtInto::Message(len) => Ok(format!(in alloc; "{len}")?),
        other => Ok(format!(in alloc; "{other:?}")?),
    }
}

/// What is taken into a buffer: a message's index and length.
fn taken_into_text<E: Debug>(alloc: Global, taken: &Result<TakenInto, E>) -> Result<String, Fail> {
    match taken {
        Ok(TakenInto::Taken(index, len)) => Ok(format!(in alloc; "{} {len}", index.value())?),
        other => shown_text(alloc, other),
    }
}

/// A buffer of dots that a call may fill.
fn new_buffer(alloc: Global, size: usize) -> Result<Vec<u8>, AllocError> {
    Vec::from_elem(alloc, b'.', size)
}

/// What a read into a buffer returns, and then the whole buffer.
fn with_buffer(alloc: Global, answer: &str, buffer: &[u8]) -> Result<String, Fail> {
    let text = str::from_utf8(buffer)?;
    Ok(format!(in alloc; "{answer} [{text}]")?)
}

/// What the next read into a buffer of this size returns.
fn next_into_text(alloc: Global, endpoint: &mut Endpoint, size: usize) -> Result<String, Fail> {
    let mut buffer = new_buffer(alloc, size)?;
    let found = endpoint.next_into(buffer.as_mut_slice());
    with_buffer(
        alloc,
        found_into_text(alloc, found)?.as_str(),
        buffer.as_slice(),
    )
}

/// What a read at an index into a buffer of this size returns.
fn read_at_into_text(
    alloc: Global,
    endpoint: &mut Endpoint,
    index: u64,
    size: usize,
) -> Result<String, Fail> {
    let mut buffer = new_buffer(alloc, size)?;
    let at = endpoint.read_at_into(Index::of_value(index), buffer.as_mut_slice());
    with_buffer(alloc, at_into_text(alloc, at)?.as_str(), buffer.as_slice())
}

/// What a take into a buffer of this size returns.
fn take_into_text(
    alloc: Global,
    endpoint: &mut Endpoint,
    name: &str,
    size: usize,
) -> Result<String, Fail> {
    let mut buffer = new_buffer(alloc, size)?;
    let taken = endpoint.take_into(name, buffer.as_mut_slice());
    with_buffer(
        alloc,
        taken_into_text(alloc, &taken)?.as_str(),
        buffer.as_slice(),
    )
}

/// What a snapshot gives.
fn snapshot_text(alloc: Global, endpoint: &mut Endpoint) -> Result<String, Fail> {
    let lists = endpoint.snapshot(alloc)?;
    Ok(lists_text(alloc, lists.as_slice())?)
}

/// How many messages are appended before one is refused, and why it is.
fn append_all_text(alloc: Global, endpoint: &mut Endpoint) -> Result<String, Fail> {
    for count in 0..100u64 {
        if let Err(fault) = endpoint.append(0, b"a") {
            return Ok(format!(in alloc; "{count} appended, {fault:?}")?);
        }
    }
    Err(Fail::new("too many messages"))
}

impl Call {
    /// What this call of an endpoint returns.
    pub fn answer_text(self, alloc: Global, endpoint: &mut Endpoint) -> Result<String, Fail> {
        match self {
            Call::Append(moment, text) => {
                index_text(alloc, &endpoint.append(moment, text.as_bytes()))
            }
            Call::AppendAll => append_all_text(alloc, endpoint),
            Call::Advance(moment) => {
                number_text(alloc, "cycle ", &endpoint.advance(moment).map(u64::from))
            }
            Call::Begin(moment, room) => done_text(alloc, "begun", &endpoint.begin(moment, room)),
            Call::Put(text) => done_text(alloc, "put", &endpoint.put(text.as_bytes())),
            Call::Complete => index_text(alloc, &endpoint.complete()),
            Call::GiveUp => done_text(alloc, "given up", &endpoint.roll_back()),
            Call::Next => found_text(alloc, &endpoint.next(alloc)),
            Call::Peek => peeked_text(alloc, endpoint.peek()),
            Call::NextInto(size) => next_into_text(alloc, endpoint, size),
            Call::ReadAt(index) => {
                let index = Index::of_value(index);
                at_text(alloc, index, &endpoint.read_at(alloc, index))
            }
            Call::ReadAtInto(index, size) => read_at_into_text(alloc, endpoint, index, size),
            Call::Take(name) => taken_text(alloc, &endpoint.take(alloc, name)),
            Call::TakeInto(name, size) => take_into_text(alloc, endpoint, name, size),
            Call::DropBefore(cycle) => {
                number_text(alloc, "floor ", &endpoint.drop_before(cycle).map(u64::from))
            }
            Call::Seek(name, from, to) => shown_text(alloc, &endpoint.seek(name, from, to)),
            Call::Position(name) => number_text(alloc, "at ", &endpoint.position(name)),
            Call::MoveTo(index) => {
                let is_moved = endpoint.move_to(Index::of_value(index));
                Ok(String::from_str(alloc, if is_moved { "moved" } else { "stays" })?)
            }
            Call::ToStart => {
                endpoint.to_start();
                Ok(String::from_str(alloc, "start")?)
            }
            Call::ToEnd => Ok(format!(in alloc; "end {}", endpoint.to_end())?),
            Call::Turn(way) => {
                endpoint.direction(way);
                Ok(String::from_str(alloc, "turned")?)
            }
            Call::Cursor => Ok(format!(in alloc; "at {}", endpoint.cursor())?),
            Call::SeenEnd => Ok(format!(in alloc; "end {}", endpoint.seen_end())?),
            Call::Snapshot => snapshot_text(alloc, endpoint),
            Call::Close => done_text(alloc, "closed", &endpoint.close()),
            Call::IsClosed => {
                let is_closed = endpoint.is_closed();
                Ok(String::from_str(alloc, if is_closed { "closed" } else { "open" })?)
            }
        }
    }
}

/// Makes these calls of an endpoint in turn. Fails if one of them does not return what is wanted.
pub fn expect_calls(
    alloc: Global,
    row: &str,
    endpoint: &mut Endpoint,
    calls: Calls,
) -> Result<(), Fail> {
    for (number, (call, want)) in calls.iter().enumerate() {
        let answer = call.answer_text(alloc, endpoint)?;
        expect_answer(row, number, answer.as_str(), want)?;
    }
    Ok(())
}
