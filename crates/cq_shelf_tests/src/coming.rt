//! What reads and takes of threads come to.
use crate::numbers::{Numbered, Tally, Trouble};
use crate::rounds::Round;
use cq_shelf::{Position, ShelfFault};
use std::thread::yield_now;

/// How often a thread tries before it gives up.
pub const TURNS: u32 = 100_000_000;

/// How often a call is made again once the shelf has come to its end.
pub const AFTER_END: u32 = 3;

/// A message that came, or why none did.
#[derive(Clone, Copy)]
pub enum Came {
    /// This message, at this position.
    Message(Position, Numbered),
    /// None, yet.
    NotYet,
    /// None, and none comes any more.
    Finished,
    /// None: this many queues were missed.
    Missed(u64),
}

/// What came by a message of these bytes.
pub fn message_came(at: Position, bytes: &[u8], len: usize) -> Result<Came, Trouble> {
    match Numbered::read(bytes, len) {
        Some(message) => Ok(Came::Message(at, message)),
        None => Err(Trouble::Damaged),
    }
}

/// The first bytes of a buffer.
pub fn first_of(buffer: &[u8], len: u32) -> &[u8] {
    buffer.get(0..len as usize).unwrap_or(&[])
}

/// Nothing came, if the call may be made again.
pub fn nothing(fault: ShelfFault) -> Result<Came, Trouble> {
    match fault {
        ShelfFault::Busy => Ok(Came::NotYet),
        fault => Err(Trouble::Refused(fault)),
    }
}

/// What a reader or a taker has counted, and the position of the last message.
#[derive(Clone, Copy)]
pub struct Trail {
    pub tally: Tally,
    last: Option<Position>,
}

impl Trail {
    /// Nothing.
    pub const START: Trail = Trail {
        tally: Tally::NONE,
        last: None,
    };

    /// Whether a position is after that of the last message.
    pub fn is_before(&self, at: &Position) -> bool {
        match self.last {
            Some(last) => last < *at,
            None => true,
        }
    }

    /// Counts this message, which is the last one now.
    pub fn add(&mut self, message: Numbered, at: Position) {
        self.tally.add(&message, &at);
        self.last = Some(at);
    }
}

impl Round {
    /// Lets others run, unless another thread has found trouble.
    pub fn wait(&self) -> Result<(), Trouble> {
        if self.is_stopped() {
            return Err(Trouble::Stopped);
        }
        yield_now();
        Ok(())
    }

    /// Waits while the call may be made again.
    pub fn wait_for(&self, fault: ShelfFault) -> Result<(), Trouble> {
        match fault {
            ShelfFault::Busy | ShelfFault::Full => self.wait(),
            fault => Err(Trouble::Refused(fault)),
        }
    }
}
