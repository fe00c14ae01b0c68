//! Threads that append to a shelf. Writers are dropped with a message that they have begun, and others go on.
use crate::coming::TURNS;
use crate::numbers::{Dice, Numbered, Tally, Trouble};
use crate::rounds::Round;
use cq_shelf::{Position, ShelfWriter};

/// A thread that appends the messages of a writer.
#[derive(Drop)]
pub struct Appending {
    pub writer: ShelfWriter,
    pub name: u8,
}

impl Round {
    /// Appends these bytes at once.
    fn append_whole(&self, writer: &mut ShelfWriter, bytes: &[u8]) -> Result<Position, Trouble> {
        for _ in 0..TURNS {
            match writer.append(self.alloc, 0, bytes) {
                Ok(at) => return Ok(at),
                Err(fault) => self.wait_for(fault)?,
            }
        }
        Err(Trouble::TooLong)
    }

    /// Begins a message of this many bytes.
    fn begin(&self, writer: &mut ShelfWriter, len: usize) -> Result<(), Trouble> {
        for _ in 0..TURNS {
            match writer.begin(self.alloc, 0, (len & 0xffff_ffff) as u32) {
                Ok(()) => return Ok(()),
                Err(fault) => self.wait_for(fault)?,
            }
        }
        Err(Trouble::TooLong)
    }

    /// Appends these bytes in two parts.
    fn append_parts(&self, writer: &mut ShelfWriter, bytes: &[u8]) -> Result<Position, Trouble> {
        self.begin(writer, bytes.len())?;
        let (front, back) = bytes.split_at(bytes.len() / 2);
        for part in [front, back] {
            if writer.put(part).is_err() {
                return Err(Trouble::NoAnswer);
            }
        }
        writer.complete().map_err(|_| Trouble::NoAnswer)
    }

    /// Begins a message and puts a part of it. Another writer goes on, and this one is dropped.
    fn break_off(&self, mut writer: ShelfWriter, bytes: &[u8]) -> Result<ShelfWriter, Trouble> {
        self.begin(&mut writer, bytes.len())?;
        if writer.put(bytes.get(0..2).unwrap_or(&[])).is_err() {
            return Err(Trouble::NoAnswer);
        }
        writer.split().map_err(Trouble::Refused)
    }

    /// Appends all messages of a writer. Returns it, and what it appended.
    fn append_each(
        &self,
        start: ShelfWriter,
        name: u8,
        dice: &mut Dice,
    ) -> Result<(ShelfWriter, Tally), Trouble> {
        let mut writer = start;
        let mut tally = Tally::NONE;
        let mut bytes = self.buffer()?;
        for number in 0..self.each {
            let message = Numbered {
                writer: name,
                number,
            };
            message.write(bytes.as_mut_slice());
            if dice.happens(self.every) {
                writer = self.break_off(writer, bytes.as_slice())?;
            }
            let at = match dice.happens(4) {
                true => self.append_parts(&mut writer, bytes.as_slice())?,
                false => self.append_whole(&mut writer, bytes.as_slice())?,
            };
            tally.add(&message, &at);
        }
        Ok((writer, tally))
    }

    /// Closes the shelf, as the last writer.
    fn close(&self, writer: &mut ShelfWriter) -> Result<(), Trouble> {
        for _ in 0..TURNS {
            match writer.close() {
                Ok(()) => return Ok(()),
                Err(fault) => self.wait_for(fault)?,
            }
        }
        Err(Trouble::TooLong)
    }

    /// Appends all messages of a writer, and closes the shelf if no other writer is left.
    pub fn append_all(&self, thread: Appending, dice: &mut Dice) -> Result<Tally, Trouble> {
        let Appending { writer, name } = thread;
        let (mut writer, tally) = self.append_each(writer, name, dice)?;
        if self.is_last_writer() {
            self.close(&mut writer)?;
        }
        Ok(tally)
    }
}
