//! Numbered messages of several writers, and what is counted of them.
use cq_shelf::{Position, ShelfFault};

/// How many writers there are.
pub const WRITERS: u8 = 4;

/// A message: its writer, and its number among those of this writer, below 2^24.
#[derive(Clone, Copy, Debug, PartialEq, Eq)]
pub struct Numbered {
    pub writer: u8,
    pub number: u32,
}

impl Numbered {
    /// Its first bytes: the writer, and three bytes of the number.
    fn head(self) -> [u8; 4] {
        let [low, middle, high, _] = self.number.to_le_bytes();
        [self.writer, low, middle, high]
    }

    /// Each of its other bytes.
    fn filler(self) -> u8 {
        let [low, _, _, _] = self.number.to_le_bytes();
        low.wrapping_mul(4).wrapping_add(self.writer)
    }

    /// Writes its bytes into the whole buffer.
    pub fn write(self, buffer: &mut [u8]) {
        buffer.fill(self.filler());
        for (byte, &part) in buffer.iter_mut().zip(self.head().iter()) {
            *byte = part;
        }
    }

    /// The message of these bytes, if it is one of this length and each byte is right.
    pub fn read(bytes: &[u8], len: usize) -> Option<Numbered> {
        let [writer, low, middle, high, others @ ..] = bytes else {
            return None;
        };
        let message = Numbered {
            writer: *writer,
            number: u32::from_le_bytes([*low, *middle, *high, 0]),
        };
        let filler = message.filler();
        let is_whole = bytes.len() == len && others.iter().all(|&byte| byte == filler);
        is_whole.then_some(message)
    }

    /// Its place among the messages of all writers, of which each has this many.
    pub fn place(self, each: u32) -> usize {
        (self.writer as usize)
            .wrapping_mul(each as usize)
            .wrapping_add(self.number as usize)
    }
}

/// How many messages were appended, read or taken, and a sum over them and their positions in any order.
#[derive(Clone, Copy, Debug, PartialEq, Eq)]
pub struct Tally {
    pub count: u64,
    pub sum: u64,
}

impl Tally {
    /// Nothing.
    pub const NONE: Tally = Tally { count: 0, sum: 0 };

    /// Counts one more.
    pub fn add(&mut self, message: &Numbered, at: &Position) {
        let name = u64::from(message.writer) << 32 | u64::from(message.number);
        let place = at
            .queue
            .wrapping_mul(1_000_003)
            .wrapping_add(at.index.value());
        let mixed = (name.wrapping_mul(0x9e37_79b9_7f4a_7c15) ^ place).wrapping_mul(
            0xbf58_476d_1ce4_e5b9,
        );
        self.count = self.count.wrapping_add(1);
        self.sum = self.sum.wrapping_add(mixed ^ mixed >> 31);
    }

    /// Both together.
    pub fn plus(self, other: Tally) -> Tally {
        Tally {
            count: self.count.wrapping_add(other.count),
            sum: self.sum.wrapping_add(other.sum),
        }
    }
}

/// What a thread found that must not be.
#[derive(Clone, Copy, Debug, PartialEq, Eq)]
pub enum Trouble {
    /// A call was refused, and not for a moment only.
    Refused(ShelfFault),
    /// A message has not the bytes that were appended.
    Damaged,
    /// A message came that is not the next one of its writer.
    OutOfTurn,
    /// A message came at a position that is not after the one before.
    NotAfter,
    /// A message was taken twice.
    Twice,
    /// The shelf ended before the last message of a writer.
    TooFew,
    /// Queues were missed, or another number of them than the answer said.
    Missed,
    /// Something came after the end of the shelf.
    NotFinished,
    /// An answer that no such call gives.
    NoAnswer,
    /// It tried too often.
    TooLong,
    /// Another thread found trouble.
    Stopped,
}

/// What is counted of the messages of each writer, which have to come in its order.
#[derive(Drop)]
pub struct Order {
    /// The number that comes next.
    next: [u32; WRITERS as usize],
    /// Whether some may be missing before it.
    may_miss: [bool; WRITERS as usize],
}

impl Order {
    /// Before the first message of each.
    pub const START: Order = Order {
        next: [0; WRITERS as usize],
        may_miss: [false; WRITERS as usize],
    };

    /// Queues were missed: of each writer some messages may be missing.
    pub fn miss(&mut self) {
        self.may_miss = [true; WRITERS as usize];
    }

    /// Counts this message, if it comes in its turn.
    pub fn count(&mut self, message: &Numbered) -> Result<(), Trouble> {
        let writer = usize::from(message.writer);
        let (Some(next), Some(may_miss)) = (
            self.next.get_mut(writer),
            self.may_miss.get_mut(writer),
        ) else {
            return Err(Trouble::Damaged);
        };
        if message.number < *next || (message.number > *next && !*may_miss) {
            return Err(Trouble::OutOfTurn);
        }
        *next = message.number.wrapping_add(1);
        *may_miss = false;
        Ok(())
    }

    /// Whether this many messages came of each writer, but for those that may be missing.
    pub fn is_complete(&self, each: u32) -> bool {
        self.next
            .iter()
            .zip(self.may_miss.iter())
            .all(|(&next, &may_miss)| next == each || may_miss)
    }
}

/// Numbers that look random, and are the same for the same seed.
#[derive(Clone, Copy)]
pub struct Dice {
    state: u64,
}

impl Dice {
    /// The numbers of this seed.
    pub fn new(seed: u64) -> Dice {
        Dice {
            state: seed.wrapping_mul(0x9e37_79b9_7f4a_7c15) | 1,
        }
    }

    /// Whether it happens this time: about once in this many times.
    pub fn happens(&mut self, once_in: u32) -> bool {
        self.state ^= self.state << 13;
        self.state ^= self.state >> 7;
        self.state ^= self.state << 17;
        (self.state >> 20) % u64::from(once_in).max(1) == 0
    }
}
