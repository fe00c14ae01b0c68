//! Cycles of many messages that are read backwards, while an appender goes on.
use crate::both::Both;
use cq_fixtures::{DAY, expect_text};
use cq_tail::{Direction, Found};
use std::alloc::{AllocError, Global};
use std::test::Fail;

/// How many messages are appended to each cycle.
const EACH: u32 = 1300;

/// After this many messages the tailer turns and reads the last one again, and another message is appended.
const BETWEEN: u32 = 50;

/// A message that was read: its index, and its number.
#[derive(Clone, Copy, PartialEq, Eq)]
struct ReadMessage {
    index: u64,
    number: u32,
}

/// The bytes of a message: its number in four of them, and up to eight more.
fn message_of(number: u32) -> ([u8; 12], usize) {
    let [a, b, c, d] = number.to_be_bytes();
    (
        [a, b, c, d, 0, 0, 0, 0, 0, 0, 0, 0],
        4 + (number % 9) as usize,
    )
}

/// The message that was found, if one was.
fn message_in(found: &Found) -> Option<ReadMessage> {
    let Found::Message(index, message) = found else {
        return None;
    };
    match message.as_slice() {
        [a, b, c, d, ..] => Some(ReadMessage {
            index: index.value(),
            number: u32::from_be_bytes([*a, *b, *c, *d]),
        }),
        _ => None,
    }
}

impl Both {
    /// Appends a message of this number at a moment. Returns whether it was not refused.
    fn append(&mut self, moment: u64, number: u32) -> bool {
        let (bytes, len) = message_of(number);
        match bytes.get(..len) {
            Some(message) => self.appender.append(&self.queue, moment, message).is_ok(),
            None => false,
        }
    }

    /// Appends the messages of days 0, 1 and 5, each of which begins a cycle, and begins the cycle of day 6. Returns
    /// whether none was refused.
    fn append_all(&mut self) -> bool {
        for number in 0..3 * EACH {
            let moment = match number / EACH {
                0 => 0,
                1 => DAY,
                _ => 5 * DAY,
            };
            if !self.append(moment, number) {
                return false;
            }
        }
        self.appender.advance(&self.queue, 6 * DAY).is_ok()
    }

    /// The next message that is read.
    fn read(&mut self, alloc: Global) -> Result<Option<ReadMessage>, AllocError> {
        Ok(message_in(&self.tailer.next(alloc, &self.queue)?))
    }

    /// All messages from the start on.
    fn read_all(&mut self, alloc: Global) -> Result<Vec<ReadMessage>, AllocError> {
        let mut all = Vec::new(alloc);
        for _ in 0..4 * EACH {
            match self.read(alloc)? {
                Some(message) => all.push(message)?,
                None => return Ok(all),
            }
        }
        Ok(all)
    }

    /// Whether the tailer, which has read this message backwards, reads it again forwards and then backwards.
    fn turns(&mut self, alloc: Global, last: ReadMessage) -> Result<bool, AllocError> {
        self.tailer.direction(Direction::Forwards);
        let forwards = self.read(alloc)?;
        self.tailer.direction(Direction::Backwards);
        let backwards = self.read(alloc)?;
        Ok(forwards == Some(last) && backwards == Some(last))
    }

    /// After each 50th message that was read backwards, reads it again and appends another. Returns whether all is well.
    fn is_well_between(
        &mut self,
        alloc: Global,
        count: u32,
        last: ReadMessage,
    ) -> Result<bool, AllocError> {
        if count % BETWEEN != 0 {
            return Ok(true);
        }
        if !self.turns(alloc, last)? {
            return Ok(false);
        }
        Ok(self.append(6 * DAY, count))
    }

    /// How many messages the tailer reads backwards that are those that were read, from the last one down.
    fn count_back(&mut self, alloc: Global, mut all: Vec<ReadMessage>) -> Result<u32, AllocError> {
        self.tailer.direction(Direction::Backwards);
        for count in 0..4 * EACH {
            let Some(last) = all.pop() else {
                return Ok(count);
            };
            if self.read(alloc)? != Some(last) {
                return Ok(count);
            }
            if !self.is_well_between(alloc, count, last)? {
                return Ok(count);
            }
        }
        Ok(0)
    }

    /// How many messages are appended and read forwards, how many of them backwards, and what comes before them.
    fn text(&mut self, alloc: Global) -> Result<String, Fail> {
        let appended = self.append_all();
        let all = self.read_all(alloc)?;
        let forwards = all.len();
        let backwards = self.count_back(alloc, all)?;
        let before = self.tailer.next(alloc, &self.queue)?;
        Ok(format!(in alloc; "{appended} {forwards} {backwards} {before:?}")?)
    }
}

/// The same of a new queue. Its index has an entry for one message in this many.
fn new_queue_text(alloc: Global, spacing: u32) -> Result<String, Fail> {
    Both::new(alloc, 4, spacing)?.text(alloc)
}

#[test]
fn what_is_read_forwards_is_read_backwards(rt: HostRuntime) -> Result<(), Fail> {
    for spacing in [1, 16, 256] {
        expect_text(
            new_queue_text(rt.alloc(), spacing)?,
            "true 3900 3900 BeforeStart",
        )?;
    }
    Ok(())
}
