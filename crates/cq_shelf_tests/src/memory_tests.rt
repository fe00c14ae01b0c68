//! Shelves that are made, filled, read and taken although memory is refused: each call that is refused for it is made again.
use cq_cycle::{Index, Roll};
use cq_fixtures::{DAY, expect};
use cq_layout::Shape;
use cq_model::Config;
use cq_shelf::{
    AtLimit, KeptQueue, Position, ShelfFault, ShelfNext, ShelfReadAt, ShelfReader, ShelfTaken,
    ShelfTaker, ShelfWriter,
};
use std::alloc::Global;
use std::test::Fail;

/// How often a call is made that is out of memory.
const TRIES: u32 = 8;

/// How many messages a queue takes.
const EACH: u8 = 13;

/// How many messages are appended: those of three queues, and four of the next one. Each is one byte, its number.
const COUNT: u8 = 43;

/// A shelf of queues of 64 cells. Its reader and its taker begin with the first queue, and go on once five have begun.
struct Case {
    most: u32,
    at_limit: AtLimit,
    /// How many queues after the first one are dropped by then.
    missed: u8,
}

static CASES: [Case; 2] = [
    Case {
        most: 5,
        at_limit: AtLimit::Refuse,
        missed: 0,
    },
    Case {
        most: 2,
        at_limit: AtLimit::DropOldest,
        missed: 2,
    },
];

/// Where the message of a number is.
fn position_of(number: u8) -> Position {
    Position {
        queue: u64::from(number / EACH),
        index: Index::new(0, u32::from(number % EACH)),
    }
}

/// A taker of the name, with another try where memory is refused.
fn make_taker(alloc: Global, writer: &ShelfWriter) -> Result<ShelfTaker, ShelfFault> {
    for _ in 0..TRIES {
        match writer.taker(alloc, "reader") {
            Err(ShelfFault::OutOfMemory) => {}
            answer => return answer,
        }
    }
    Err(ShelfFault::OutOfMemory)
}

/// Another taker, with another try where memory is refused.
fn split_taker(alloc: Global, taker: &ShelfTaker) -> Result<ShelfTaker, ShelfFault> {
    for _ in 0..TRIES {
        match taker.split(alloc) {
            Err(ShelfFault::OutOfMemory) => {}
            answer => return answer,
        }
    }
    Err(ShelfFault::OutOfMemory)
}

/// Appends the message of a number, with another try where memory is refused.
fn append(alloc: Global, writer: &mut ShelfWriter, number: u8) -> Result<Position, ShelfFault> {
    for _ in 0..TRIES {
        match writer.append(alloc, 0, &[number]) {
            Err(ShelfFault::OutOfMemory) => {}
            answer => return answer,
        }
    }
    Err(ShelfFault::OutOfMemory)
}

/// Begins a message, puts a number into it and completes it, with another try where memory is refused.
fn append_in_parts(alloc: Global, writer: &mut ShelfWriter, number: u8) -> Option<Position> {
    for _ in 0..TRIES {
        match writer.begin(alloc, 0, 1) {
            Ok(()) => {
                writer.put(&[number]).ok()?;
                return writer.complete().ok();
            }
            Err(ShelfFault::OutOfMemory) => {}
            Err(_) => return None,
        }
    }
    None
}

/// Appends the messages in order, those of even numbers in parts. So a queue begins by a message in parts, and two by whole ones.
/// Returns whether each is where it is to be.
fn append_all(alloc: Global, writer: &mut ShelfWriter) -> bool {
    for number in 0..COUNT {
        let at = match number % 2 {
            0 => append_in_parts(alloc, writer, number),
            _ => append(alloc, writer, number).ok(),
        };
        if at != Some(position_of(number)) {
            return false;
        }
    }
    true
}

/// Begins the second day, in a new queue, with another try where memory is refused.
fn advance(alloc: Global, writer: &mut ShelfWriter) -> Result<u32, ShelfFault> {
    for _ in 0..TRIES {
        match writer.advance(alloc, DAY) {
            Err(ShelfFault::OutOfMemory) => {}
            answer => return answer,
        }
    }
    Err(ShelfFault::OutOfMemory)
}

/// What is read next, with another try where memory is refused.
fn next(alloc: Global, reader: &mut ShelfReader) -> Result<ShelfNext, ShelfFault> {
    for _ in 0..TRIES {
        match reader.next(alloc) {
            Err(ShelfFault::OutOfMemory) => {}
            answer => return answer,
        }
    }
    Err(ShelfFault::OutOfMemory)
}

/// Whether this is the message of a number.
fn is_read(answer: &Result<ShelfNext, ShelfFault>, number: u8) -> bool {
    match answer {
        Ok(ShelfNext::Message(at, message)) => {
            *at == position_of(number) && message.as_slice() == [number].as_slice()
        }
        _ => false,
    }
}

/// What is read at the position of a number, with another try where memory is refused.
fn read_at(alloc: Global, reader: &mut ShelfReader, number: u8) -> Result<ShelfReadAt, ShelfFault> {
    for _ in 0..TRIES {
        match reader.read_at(alloc, position_of(number)) {
            Err(ShelfFault::OutOfMemory) => {}
            answer => return answer,
        }
    }
    Err(ShelfFault::OutOfMemory)
}

/// Whether this is the message of a number, read at its position.
fn is_read_at(answer: &Result<ShelfReadAt, ShelfFault>, number: u8) -> bool {
    match answer {
        Ok(ShelfReadAt::Message(message)) => message.as_slice() == [number].as_slice(),
        _ => false,
    }
}

/// What is taken, with another try where memory is refused.
fn take(alloc: Global, taker: &mut ShelfTaker) -> Result<ShelfTaken, ShelfFault> {
    for _ in 0..TRIES {
        match taker.take(alloc) {
            Err(ShelfFault::OutOfMemory) => {}
            answer => return answer,
        }
    }
    Err(ShelfFault::OutOfMemory)
}

/// Whether this is the message of a number.
fn is_taken(answer: &Result<ShelfTaken, ShelfFault>, number: u8) -> bool {
    match answer {
        Ok(ShelfTaken::Taken(at, message)) => {
            *at == position_of(number) && message.as_slice() == [number].as_slice()
        }
        _ => false,
    }
}

/// What is copied, with another try where memory is refused.
fn snapshot(alloc: Global, reader: &mut ShelfReader) -> Result<Vec<KeptQueue>, ShelfFault> {
    for _ in 0..TRIES {
        match reader.snapshot(alloc) {
            Err(ShelfFault::OutOfMemory) => {}
            answer => return answer,
        }
    }
    Err(ShelfFault::OutOfMemory)
}

/// How many messages a queue of a snapshot has, if they are those of this queue, in order from its first one on.
fn count_in(kept: &KeptQueue) -> Option<u8> {
    let mut count = 0u8;
    for list in kept.lists.as_slice() {
        for message in list.messages.as_slice() {
            let first = ((kept.number & 0xf) as u8).wrapping_mul(EACH);
            if message.as_slice() != [first.wrapping_add(count)].as_slice() {
                return None;
            }
            count = count.wrapping_add(1);
        }
    }
    Some(count)
}

/// How many messages a snapshot has, if its queues are whole.
fn count_kept(queues: &[KeptQueue]) -> Option<u8> {
    let mut count = 0u8;
    for kept in queues {
        count = count.wrapping_add(count_in(kept)?);
    }
    Some(count)
}

impl Case {
    /// The shelf, unless memory is refused.
    fn new_shelf(&self, alloc: Global) -> Option<ShelfWriter> {
        let names = vec![in alloc; String::from_str(alloc, "reader").ok()?].ok()?;
        let shape = Shape::new(64, 8, 1).ok()?;
        let config = Config::new(shape, 1, Roll::Daily, 0, names).ok()?;
        ShelfWriter::create(alloc, config, self.most, self.at_limit, 0).ok()
    }

    /// The shelf, with another try where memory is refused.
    fn make_shelf(&self, alloc: Global) -> Option<ShelfWriter> {
        for _ in 0..TRIES {
            if let Some(writer) = self.new_shelf(alloc) {
                return Some(writer);
            }
        }
        None
    }

    /// How many messages are missed.
    fn count_missed(&self) -> u8 {
        self.missed.wrapping_mul(EACH)
    }

    /// Whether the message of a number is missed.
    fn is_missed(&self, number: u8) -> bool {
        number >= EACH && number.wrapping_sub(EACH) < self.count_missed()
    }

    /// Whether each message is read at its position, but for those that are missed.
    fn are_read_at(&self, alloc: Global, reader: &mut ShelfReader) -> bool {
        for number in 0..COUNT {
            let answer = read_at(alloc, reader, number);
            let is_right = match self.is_missed(number) {
                true => matches!(answer, Ok(ShelfReadAt::Gone)),
                false => is_read_at(&answer, number),
            };
            if !is_right {
                return false;
            }
        }
        true
    }

    /// Whether queues are missed where the message of this number would be read, and as many as are dropped.
    fn misses(&self, alloc: Global, reader: &mut ShelfReader, number: u8) -> bool {
        if number != EACH {
            return true;
        }
        match next(alloc, reader) {
            Ok(ShelfNext::Missed(queues)) => queues == u64::from(self.missed),
            _ => false,
        }
    }

    /// Whether the messages are read in order, each once, and then no other.
    fn are_read(&self, alloc: Global, reader: &mut ShelfReader) -> bool {
        for number in 0..COUNT {
            let is_right = match self.is_missed(number) {
                true => self.misses(alloc, reader, number),
                false => is_read(&next(alloc, reader), number),
            };
            if !is_right {
                return false;
            }
        }
        matches!(next(alloc, reader), Ok(ShelfNext::Finished))
    }

    /// The same of a taker.
    fn misses_taken(&self, alloc: Global, taker: &mut ShelfTaker, number: u8) -> bool {
        if number != EACH {
            return true;
        }
        match take(alloc, taker) {
            Ok(ShelfTaken::Missed(queues)) => queues == u64::from(self.missed),
            _ => false,
        }
    }

    /// Whether the messages are taken in order, each once, and then no other.
    fn are_taken(&self, alloc: Global, taker: &mut ShelfTaker) -> bool {
        for number in 0..COUNT {
            let is_right = match self.is_missed(number) {
                true => self.misses_taken(alloc, taker, number),
                false => is_taken(&take(alloc, taker), number),
            };
            if !is_right {
                return false;
            }
        }
        matches!(take(alloc, taker), Ok(ShelfTaken::Finished))
    }

    /// Fails if a message is lost, doubled or out of order.
    fn expect(&self, alloc: Global) -> Result<(), Fail> {
        let mut writer = self.make_shelf(alloc).ok_or(ShelfFault::OutOfMemory)?;
        let mut reader = writer.reader()?;
        let mut taker = make_taker(alloc, &writer)?;
        expect(append_all(alloc, &mut writer), "messages are appended")?;
        expect(advance(alloc, &mut writer) == Ok(1), "a cycle begins")?;
        let kept = snapshot(alloc, &mut reader)?;
        expect(
            count_kept(kept.as_slice()) == Some(COUNT.wrapping_sub(self.count_missed())),
            "a snapshot has all messages",
        )?;
        expect(
            self.are_read_at(alloc, &mut reader),
            "messages are read at their positions",
        )?;
        writer.close()?;
        expect(
            self.are_read(alloc, &mut reader),
            "messages are read in order",
        )?;
        expect(
            self.are_taken(alloc, &mut taker),
            "messages are taken in order",
        )?;
        let mut other = split_taker(alloc, &taker)?;
        expect(
            matches!(take(alloc, &mut other), Ok(ShelfTaken::Finished)),
            "all was taken",
        )
    }
}

#[test]
fn refused_memory_loses_no_message(rt: HostRuntime) -> Result<(), Fail> {
    for case in CASES.iter() {
        case.expect(rt.alloc())?;
    }
    Ok(())
}
