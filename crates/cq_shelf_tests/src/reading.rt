//! Threads that read a shelf. Readers are dropped, and others go on from the start of the same queue.
use crate::coming::{AFTER_END, Came, TURNS, Trail, first_of, message_came, nothing};
use crate::numbers::{Dice, Numbered, Order, Tally, Trouble};
use crate::rounds::Round;
use cq_shelf::{Position, ShelfNext, ShelfNextInto, ShelfReader};

/// A thread that reads all messages.
#[derive(Drop)]
pub struct Reading {
    pub reader: ShelfReader,
}

/// What was read.
#[derive(Drop)]
struct Progress {
    order: Order,
    trail: Trail,
    /// Whether the reader has begun again at the start of its queue, and reads what was read before.
    reads_again: bool,
}

impl Progress {
    /// Counts a message, unless it was read before. Returns whether it did.
    fn count(&mut self, message: Numbered, at: Position) -> Result<bool, Trouble> {
        if !self.trail.is_before(&at) {
            return match self.reads_again {
                true => Ok(false),
                false => Err(Trouble::NotAfter),
            };
        }
        self.order.count(&message)?;
        self.trail.add(message, at);
        self.reads_again = false;
        Ok(true)
    }
}

impl Round {
    /// What is read next, as a copy.
    fn next(&self, reader: &mut ShelfReader) -> Result<Came, Trouble> {
        match reader.next(self.alloc) {
            Ok(ShelfNext::Message(at, message)) => message_came(at, message.as_slice(), self.len),
            Ok(ShelfNext::NotYet) => Ok(Came::NotYet),
            Ok(ShelfNext::Finished) => Ok(Came::Finished),
            Ok(ShelfNext::Missed(queues)) => Ok(Came::Missed(queues)),
            Ok(ShelfNext::BeforeStart) => Err(Trouble::NoAnswer),
            Err(fault) => nothing(fault),
        }
    }

    /// What is read next, in a buffer.
    fn next_into(&self, reader: &mut ShelfReader, buffer: &mut [u8]) -> Result<Came, Trouble> {
        match reader.next_into(buffer) {
            Ok(ShelfNextInto::Message(at, len)) => message_came(
                at,
                first_of(buffer, len),
                self.len,
            ),
            Ok(ShelfNextInto::NotYet) => Ok(Came::NotYet),
            Ok(ShelfNextInto::Finished) => Ok(Came::Finished),
            Ok(ShelfNextInto::Missed(queues)) => Ok(Came::Missed(queues)),
            Ok(ShelfNextInto::BeforeStart | ShelfNextInto::NoRoom(_)) => Err(Trouble::NoAnswer),
            Err(fault) => nothing(fault),
        }
    }

    /// Queues were missed: the reader went on by this many more than one.
    fn pass_missed(&self, from: u64, to: u64, queues: u64) -> Result<(), Trouble> {
        if self.may_miss && queues != 0 && to == from.wrapping_add(queues).wrapping_add(1) {
            return Ok(());
        }
        Err(Trouble::Missed)
    }

    /// What is read next, one way or the other.
    fn read_one(
        &self,
        reader: &mut ShelfReader,
        buffer: &mut [u8],
        dice: &mut Dice,
    ) -> Result<Came, Trouble> {
        match dice.happens(2) {
            true => self.next(reader),
            false => self.next_into(reader, buffer),
        }
    }

    /// Reads all messages. Now and then another reader goes on from the start of the same queue, and skips those that were read.
    pub fn read_all(&self, thread: Reading, dice: &mut Dice) -> Result<Tally, Trouble> {
        let Reading { mut reader } = thread;
        let mut buffer = self.buffer()?;
        let mut progress = Progress {
            order: Order::START,
            trail: Trail::START,
            reads_again: false,
        };
        for _ in 0..TURNS {
            let queue = reader.queue();
            match self.read_one(&mut reader, buffer.as_mut_slice(), dice)? {
                Came::Message(at, message) => {
                    if progress.count(message, at)? && dice.happens(self.every) {
                        reader = reader.split().map_err(Trouble::Refused)?;
                        progress.reads_again = true;
                    }
                }
                Came::NotYet => self.wait()?,
                Came::Missed(queues) => {
                    self.pass_missed(queue, reader.queue(), queues)?;
                    progress.order.miss();
                }
                Came::Finished => return self.read_after_end(&mut reader, &progress),
            }
        }
        Err(Trouble::TooLong)
    }

    /// All messages were read, and nothing is read after the end.
    fn read_after_end(
        &self,
        reader: &mut ShelfReader,
        progress: &Progress,
    ) -> Result<Tally, Trouble> {
        if !progress.order.is_complete(self.each) {
            return Err(Trouble::TooFew);
        }
        for _ in 0..AFTER_END {
            match self.next(reader)? {
                Came::Finished => {}
                _ => return Err(Trouble::NotFinished),
            }
        }
        Ok(progress.trail.tally)
    }
}
