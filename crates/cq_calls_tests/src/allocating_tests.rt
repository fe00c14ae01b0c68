//! Reads into a buffer, after a read backwards that allocated memory for the places of messages. They allocate nothing:
//! `docs/refused_memory.py buffers` counts the growths of memory of both tests, which have to be equally many.
use crate::both::Both;
use cq_fixtures::expect_text;
use cq_tail::{Direction, Found, FoundInto};
use std::alloc::{AllocError, Global};
use std::test::Fail;

/// How many messages are appended.
const MESSAGES: u32 = 1300;

impl Both {
    /// Appends the messages. Returns how many were appended before one was refused.
    fn append_numbers(&mut self) -> u32 {
        for number in 0..MESSAGES {
            let message = number.to_be_bytes();
            if self.appender.append(&self.queue, 0, &message).is_err() {
                return number;
            }
        }
        MESSAGES
    }

    /// Reads up to `most` messages into a buffer. Returns how many it read.
    fn read_into_a_room(&mut self, most: u32) -> u32 {
        let mut room = [0; 4];
        for count in 0..most {
            let found = self.tailer.next_into(&self.queue, &mut room);
            let FoundInto::Message(_index, _len) = found else {
                return count;
            };
        }
        most
    }

    /// Whether the last message is read backwards from the end.
    fn reads_last(&mut self, alloc: Global) -> Result<bool, AllocError> {
        self.tailer.to_end(&self.queue);
        self.tailer.direction(Direction::Backwards);
        let found = self.tailer.next(alloc, &self.queue)?;
        Ok(matches!(found, Found::Message(_, _)))
    }
    /// How many messages were appended, whether the last of them is read, and how many before it are read into a buffer.
    fn into_text(&mut self, alloc: Global, most: u32) -> Result<String, Fail> {
        let appended = self.append_numbers();
        let is_read = self.reads_last(alloc)?;
        let read = self.read_into_a_room(most);
        Ok(format!(in alloc; "{appended} {is_read} {read}")?)
    }
}

/// The same of a new queue. Its index has an entry for one message in 256.
fn new_queue_text(alloc: Global, most: u32) -> Result<String, Fail> {
    Both::new(alloc, 1, 256)?.into_text(alloc, most)
}

#[test]
fn a_message_is_read_into_a_room_after_a_read_backwards(rt: HostRuntime) -> Result<(), Fail> {
    expect_text(new_queue_text(rt.alloc(), 1)?, "1300 true 1")
}

#[test]
fn all_messages_are_read_into_a_room_after_a_read_backwards(rt: HostRuntime) -> Result<(), Fail> {
    expect_text(new_queue_text(rt.alloc(), MESSAGES)?, "1300 true 1299")
}
