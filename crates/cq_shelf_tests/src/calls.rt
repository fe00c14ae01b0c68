//! Calls of the endpoints of a shelf, and what they return, as text.
use cq_cycle::Index;
use cq_endpoint::Direction;
use cq_fixtures::{done_text, lists_text, number_text, shown_text};
use cq_model::Message;
use cq_shelf::{
    Position, ShelfFault, ShelfNext, ShelfNextInto, ShelfReadAt, ShelfReadAtInto, ShelfReader,
    ShelfTaken, ShelfTakenInto, ShelfTaker, ShelfWriter,
};
use std::alloc::Global;
use std::fmt::Debug;
use std::test::Fail;

/// A call of a writer, a reader or a taker of a shelf. A message is at a queue, a cycle and a sequence number. Calls that read or
/// take into a buffer are given one of this many dots.
#[derive(Clone, Copy)]
pub enum Call {
    /// Appends this text at a moment.
    Append(u64, &'static str),
    /// Appends "a" at a moment this many times, unless one is refused, and gives the position of the last one.
    AppendMany(u64, u32),
    /// Begins a message at a moment, of at most this many bytes.
    Begin(u64, u32),
    /// Puts this text into the message that was begun.
    Put(&'static str),
    /// Completes the message that was begun.
    Complete,
    /// Gives up the message that was begun.
    RollBack,
    /// Begins the cycle of a moment.
    Advance(u64),
    /// Goes on to the last queue, and gives that.
    Follow,
    /// Closes the shelf.
    Close,
    /// Asks for the queue to which the writer appends.
    WriterQueue,
    /// Asks how many queues hold memory.
    Living,
    /// Drops the writer.
    DropWriter,
    /// Makes a writer for the other party.
    SplitWriter,
    /// Makes a reader for the other party, by the writer.
    NewReader,
    /// Makes a taker by this name for the other party, by the writer.
    NewTaker(&'static str),
    /// Reads the next message.
    Next,
    /// Reads the next message into a buffer.
    NextInto(usize),
    /// Reads until no message comes, and counts the messages.
    Count,
    /// Reads the message at a place.
    ReadAt(u64, u32, u32),
    /// Reads the message at a place into a buffer.
    ReadAtInto(u64, u32, u32, usize),
    /// Turns this way.
    Turn(Direction),
    /// Moves to the start.
    ToStart,
    /// Moves to the end.
    ToEnd,
    /// Moves to the message at a place.
    MoveTo(u64, u32, u32),
    /// Asks where the reader is.
    ReaderPosition,
    /// Takes a snapshot.
    Snapshot,
    /// Asks for the queue that the reader reads.
    ReaderQueue,
    /// Drops the reader.
    DropReader,
    /// Makes a reader for the other party, by the reader.
    SplitReader,
    /// Takes a message.
    Take,
    /// Takes a message into a buffer.
    TakeInto(usize),
    /// Takes until no message comes, and counts the messages.
    CountTaken,
    /// Asks where the name is.
    TakerPosition,
    /// Drops the taker.
    DropTaker,
    /// Makes a taker for the other party, by the taker.
    SplitTaker,
}

/// The position of a place.
fn position_at(queue: u64, cycle: u32, sequence: u32) -> Position {
    Position {
        queue,
        index: Index::new(cycle, sequence),
    }
}

/// Where a message is.
fn position_text(alloc: Global, at: Position) -> Result<String, Fail> {
    let Position { queue, index } = at;
    let (cycle, sequence) = (index.cycle(), index.sequence());
    Ok(format!(in alloc; "{queue}: {cycle}.{sequence}")?)
}

/// Where a message is, or why it is nowhere.
fn place_text<E: Debug>(alloc: Global, answer: &Result<Position, E>) -> Result<String, Fail> {
    match answer {
        Ok(at) => position_text(alloc, *at),
        Err(fault) => Ok(format!(in alloc; "{fault:?}")?),
    }
}

/// A message, and where it is.
fn message_text(alloc: Global, at: Position, message: &Message) -> Result<String, Fail> {
    let position = position_text(alloc, at)?;
    let text = str::from_utf8(message.as_slice())?;
    Ok(format!(in alloc; "{position} {text}")?)
}

/// How long a message is, and where.
fn len_text(alloc: Global, at: Position, len: u32) -> Result<String, Fail> {
    let position = position_text(alloc, at)?;
    Ok(format!(in alloc; "{position} {len}")?)
}

/// What a read into a buffer returns, and then the whole buffer.
fn with_buffer(alloc: Global, answer: String, buffer: &[u8]) -> Result<String, Fail> {
    let text = str::from_utf8(buffer)?;
    Ok(format!(in alloc; "{answer} [{text}]")?)
}

/// Where the last message is of this many that are appended, or why the first of them was refused that was.
fn append_many(
    alloc: Global,
    writer: &mut ShelfWriter,
    moment: u64,
    count: u32,
) -> Result<String, Fail> {
    let mut last = Err(ShelfFault::Busy);
    for _ in 0..count {
        last = writer.append(alloc, moment, b"a");
        if last.is_err() {
            break;
        }
    }
    place_text(alloc, &last)
}

/// The queue at which a writer is once it has gone on.
fn follow(alloc: Global, writer: &mut ShelfWriter) -> Result<String, Fail> {
    let answer = writer.follow().map(|()| writer.queue());
    number_text(alloc, "queue ", &answer)
}

/// What a call of a writer returns, but of one that makes or drops an endpoint.
pub fn written_text(alloc: Global, writer: &mut ShelfWriter, call: Call) -> Result<String, Fail> {
    match call {
        Call::Append(moment, text) => {
            place_text(alloc, &writer.append(alloc, moment, text.as_bytes()))
        }
        Call::AppendMany(moment, count) => append_many(alloc, writer, moment, count),
        Call::Begin(moment, room) => {
            done_text(alloc, "begun", &writer.begin(alloc, moment, room))
        }
        Call::Put(text) => done_text(alloc, "put", &writer.put(text.as_bytes())),
        Call::Complete => place_text(alloc, &writer.complete()),
        Call::RollBack => done_text(alloc, "rolled back", &writer.roll_back()),
        Call::Advance(moment) => {
            number_text(
                alloc,
                "cycle ",
                &writer.advance(alloc, moment).map(u64::from),
            )
        }
        Call::Follow => follow(alloc, writer),
        Call::Close => done_text(alloc, "closed", &writer.close()),
        Call::WriterQueue => Ok(format!(in alloc; "queue {}", writer.queue())?),
        Call::Living => Ok(format!(in alloc; "{} live", writer.living())?),
        _ => Err(Fail::new("no call of a writer")),
    }
}

/// The next message, or why there is none.
fn next_text(alloc: Global, reader: &mut ShelfReader) -> Result<String, Fail> {
    match reader.next(alloc) {
        Ok(ShelfNext::Message(at, message)) => message_text(alloc, at, &message),
        other => shown_text(alloc, &other),
    }
}

/// What is read into a buffer of this size.
fn next_into_text(alloc: Global, reader: &mut ShelfReader, size: usize) -> Result<String, Fail> {
    let mut buffer = Vec::from_elem(alloc, b'.', size)?;
    let answer = match reader.next_into(buffer.as_mut_slice()) {
        Ok(ShelfNextInto::Message(at, len)) => len_text(alloc, at, len)?,
        other => shown_text(alloc, &other)?,
    };
    with_buffer(alloc, answer, buffer.as_slice())
}

/// How many messages are read, and what comes after them.
fn count_text(alloc: Global, reader: &mut ShelfReader) -> Result<String, Fail> {
    for count in 0..100_000u64 {
        match reader.next(alloc) {
            Ok(ShelfNext::Message(_, _)) => {}
            other => {
                let end = shown_text(alloc, &other)?;
                return Ok(format!(in alloc; "{count} read, {end}")?);
            }
        }
    }
    Err(Fail::new("too many messages"))
}

/// What is read at a position.
fn at_text(
    alloc: Global,
    at: Position,
    answer: &Result<ShelfReadAt, ShelfFault>,
) -> Result<String, Fail> {
    match answer {
        Ok(ShelfReadAt::Message(message)) => message_text(alloc, at, message),
        other => shown_text(alloc, other),
    }
}

/// What is read at a position into a buffer.
fn at_into_text(
    alloc: Global,
    at: Position,
    answer: &Result<ShelfReadAtInto, ShelfFault>,
) -> Result<String, Fail> {
    match answer {
        Ok(ShelfReadAtInto::Message(len)) => len_text(alloc, at, *len),
        other => shown_text(alloc, other),
    }
}

/// What is read at a position into a buffer of this size.
fn read_at_into_text(
    alloc: Global,
    reader: &mut ShelfReader,
    at: Position,
    size: usize,
) -> Result<String, Fail> {
    let mut buffer = Vec::from_elem(alloc, b'.', size)?;
    let answer = reader.read_at_into(at, buffer.as_mut_slice());
    with_buffer(alloc, at_into_text(alloc, at, &answer)?, buffer.as_slice())
}

/// Whether a reader has moved.
fn move_text(alloc: Global, reader: &mut ShelfReader, at: Position) -> Result<String, Fail> {
    match reader.move_to(at) {
        Ok(is_moved) => Ok(String::from_str(alloc, if is_moved { "moved" } else { "stays" })?),
        Err(fault) => Ok(format!(in alloc; "{fault:?}")?),
    }
}

/// The queues of a snapshot, each with its cycles and their messages.
fn snapshot_text(alloc: Global, reader: &mut ShelfReader) -> Result<String, Fail> {
    let mut text = String::new(alloc);
    for kept in reader.snapshot(alloc)?.as_slice() {
        let lists = lists_text(alloc, kept.lists.as_slice())?;
        text.push_str(format!(in alloc; "{}: {lists}", kept.number)?.as_str())?;
    }
    Ok(String::from_str(alloc, text.as_str().trim_end())?)
}

/// What a call of a reader returns, but of one that makes or drops an endpoint.
pub fn read_text(alloc: Global, reader: &mut ShelfReader, call: Call) -> Result<String, Fail> {
    match call {
        Call::Next => next_text(alloc, reader),
        Call::NextInto(size) => next_into_text(alloc, reader, size),
        Call::Count => count_text(alloc, reader),
        Call::ReadAt(queue, cycle, sequence) => {
            let at = position_at(queue, cycle, sequence);
            at_text(alloc, at, &reader.read_at(alloc, at))
        }
        Call::ReadAtInto(queue, cycle, sequence, size) => {
            read_at_into_text(alloc, reader, position_at(queue, cycle, sequence), size)
        }
        Call::Turn(way) => {
            reader.direction(way);
            Ok(String::from_str(alloc, "turned")?)
        }
        Call::ToStart => done_text(alloc, "start", &reader.to_start()),
        Call::ToEnd => done_text(alloc, "end", &reader.to_end()),
        Call::MoveTo(queue, cycle, sequence) => {
            move_text(alloc, reader, position_at(queue, cycle, sequence))
        }
        Call::ReaderPosition => position_text(alloc, reader.position()),
        Call::Snapshot => snapshot_text(alloc, reader),
        Call::ReaderQueue => Ok(format!(in alloc; "queue {}", reader.queue())?),
        _ => Err(Fail::new("no call of a reader")),
    }
}

/// The message that is taken, or why none is.
fn take_text(alloc: Global, taker: &mut ShelfTaker) -> Result<String, Fail> {
    match taker.take(alloc) {
        Ok(ShelfTaken::Taken(at, message)) => message_text(alloc, at, &message),
        other => shown_text(alloc, &other),
    }
}

/// What is taken into a buffer of this size.
fn take_into_text(alloc: Global, taker: &mut ShelfTaker, size: usize) -> Result<String, Fail> {
    let mut buffer = Vec::from_elem(alloc, b'.', size)?;
    let answer = match taker.take_into(buffer.as_mut_slice()) {
        Ok(ShelfTakenInto::Taken(at, len)) => len_text(alloc, at, len)?,
        other => shown_text(alloc, &other)?,
    };
    with_buffer(alloc, answer, buffer.as_slice())
}

/// How many messages are taken, and what comes after them.
fn count_taken_text(alloc: Global, taker: &mut ShelfTaker) -> Result<String, Fail> {
    for count in 0..100_000u64 {
        match taker.take(alloc) {
            Ok(ShelfTaken::Taken(_, _)) => {}
            other => {
                let end = shown_text(alloc, &other)?;
                return Ok(format!(in alloc; "{count} taken, {end}")?);
            }
        }
    }
    Err(Fail::new("too many messages"))
}

/// What a call of a taker returns, but of one that makes or drops an endpoint.
pub fn taken_text(alloc: Global, taker: &mut ShelfTaker, call: Call) -> Result<String, Fail> {
    match call {
        Call::Take => take_text(alloc, taker),
        Call::TakeInto(size) => take_into_text(alloc, taker, size),
        Call::CountTaken => count_taken_text(alloc, taker),
        Call::TakerPosition => place_text(alloc, &taker.position()),
        _ => Err(Fail::new("no call of a taker")),
    }
}
