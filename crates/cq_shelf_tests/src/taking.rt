//! Threads that take from a shelf. Takers are dropped, and others go on from where the name is.
use crate::coming::{AFTER_END, Came, TURNS, Trail, first_of, message_came, nothing};
use crate::numbers::{Dice, Tally, Trouble};
use crate::rounds::Round;
use cq_shelf::{ShelfFault, ShelfTaken, ShelfTakenInto, ShelfTaker, ShelfWriter};

/// A thread that takes messages by the name "reader", until all are taken.
#[derive(Drop)]
pub struct Taking {
    pub taker: ShelfTaker,
    /// It makes new takers, if it is there, and appends nothing. Otherwise the taker makes them.
    pub maker: Option<ShelfWriter>,
}

impl Round {
    /// What is taken, as a copy.
    fn take(&self, taker: &mut ShelfTaker) -> Result<Came, Trouble> {
        match taker.take(self.alloc) {
            Ok(ShelfTaken::Taken(at, message)) => message_came(at, message.as_slice(), self.len),
            Ok(ShelfTaken::NotYet | ShelfTaken::Moved(_)) => Ok(Came::NotYet),
            Ok(ShelfTaken::Finished) => Ok(Came::Finished),
            Ok(ShelfTaken::Missed(queues)) => Ok(Came::Missed(queues)),
            Err(fault) => nothing(fault),
        }
    }

    /// What is taken, in a buffer.
    fn take_into(&self, taker: &mut ShelfTaker, buffer: &mut [u8]) -> Result<Came, Trouble> {
        match taker.take_into(buffer) {
            Ok(ShelfTakenInto::Taken(at, len)) => message_came(at, first_of(buffer, len), self.len),
            Ok(ShelfTakenInto::NotYet | ShelfTakenInto::Moved(_)) => Ok(Came::NotYet),
            Ok(ShelfTakenInto::Finished) => Ok(Came::Finished),
            Ok(ShelfTakenInto::Missed(queues)) => Ok(Came::Missed(queues)),
            Ok(ShelfTakenInto::NoRoom(_)) => Err(Trouble::NoAnswer),
            Err(fault) => nothing(fault),
        }
    }

    /// Another taker of the name, and the writer that made it, if one did.
    fn another(&self, thread: Taking) -> Result<Taking, Trouble> {
        let Taking { taker, maker } = thread;
        let Some(writer) = maker else {
            return self.split_taker(taker);
        };
        drop(taker);
        for _ in 0..TURNS {
            match writer.taker(self.alloc, "reader") {
                Ok(taker) => {
                    return Ok(Taking {
                        taker,
                        maker: Some(writer),
                    });
                }
                Err(fault) => self.wait_for(fault)?,
            }
        }
        Err(Trouble::TooLong)
    }

    /// Another taker of the name, by this one.
    fn split_taker(&self, taker: ShelfTaker) -> Result<Taking, Trouble> {
        for _ in 0..TURNS {
            match taker.split(self.alloc) {
                Ok(taker) => return Ok(Taking { taker, maker: None }),
                Err(fault) => self.wait_for(fault)?,
            }
        }
        Err(Trouble::TooLong)
    }

    /// The writer that makes takers goes on, if one is there, since others are full while it is at the oldest queue.
    fn follow(&self, thread: &mut Taking) -> Result<(), Trouble> {
        let Some(writer) = &mut thread.maker else {
            return Ok(());
        };
        match writer.follow() {
            Ok(()) | Err(ShelfFault::Busy) => Ok(()),
            Err(fault) => Err(Trouble::Refused(fault)),
        }
    }

    /// What is taken, one way or the other.
    fn take_one(
        &self,
        taker: &mut ShelfTaker,
        buffer: &mut [u8],
        dice: &mut Dice,
    ) -> Result<Came, Trouble> {
        match dice.happens(2) {
            true => self.take(taker),
            false => self.take_into(taker, buffer),
        }
    }

    /// Takes messages until all are taken. Now and then another taker goes on.
    pub fn take_all(&self, start: Taking, dice: &mut Dice) -> Result<Tally, Trouble> {
        let mut thread = start;
        let mut buffer = self.buffer()?;
        let mut trail = Trail::START;
        for _ in 0..TURNS {
            self.follow(&mut thread)?;
            match self.take_one(&mut thread.taker, buffer.as_mut_slice(), dice)? {
                Came::Message(at, message) => {
                    if !trail.is_before(&at) {
                        return Err(Trouble::NotAfter);
                    }
                    self.mark(&message)?;
                    trail.add(message, at);
                    if dice.happens(self.every) {
                        thread = self.another(thread)?;
                    }
                }
                Came::NotYet => self.wait()?,
                Came::Missed(_) => self.expect_missed()?,
                Came::Finished => return self.take_after_end(&mut thread.taker, trail.tally),
            }
        }
        Err(Trouble::TooLong)
    }

    /// Queues were missed, as may be where the oldest is dropped.
    fn expect_missed(&self) -> Result<(), Trouble> {
        match self.may_miss {
            true => Ok(()),
            false => Err(Trouble::Missed),
        }
    }

    /// Nothing is taken after the end.
    fn take_after_end(&self, taker: &mut ShelfTaker, tally: Tally) -> Result<Tally, Trouble> {
        for _ in 0..AFTER_END {
            match self.take(taker)? {
                Came::Finished => {}
                _ => return Err(Trouble::NotFinished),
            }
        }
        Ok(tally)
    }
}
