//! The workers of a race.
ghost use Rattle.std.specs.Prelude.{◌≡◌, ◌+◌, ◌^◌, ◌<◌, IfErr, IfOk, OnOk, vec_len};
ghost use Rattle.cq_words.specs.Values.{IsOf};

use crate::gate::Gate;
use crate::tally::message_of;
use cq_append::Appender;
use cq_model::{Message, Refusal};
use cq_tail::{Found, Tailer};
use cq_words::Queue;
use std::alloc::{AllocError, AllocFailed, Global};
use std::sync::atomic::{AtomicBool, Ordering};
use std::thread::yield_now;

/// The moment of each append, in milliseconds of Unix time: all messages are in one cycle.
pub(crate) const MOMENT: u64 = 0;

/// Why a worker ended early.
#[derive(Clone, Copy, Debug, PartialEq, Eq)]
pub(crate) enum Ending {
    /// The gate did not let it pass, another worker had ended early, its calls were used up, or a message was refused.
    GaveUp,
    /// It was out of memory.
    OutOfMemory,
}

impl From<AllocError> for Ending {
    ghost use Rattle.std.specs.Prelude.{◌≡◌};
    ghost use Rattle.cq_race.specs.declared.worker.Ending.TheVariants.{OutOfMemory};

    ghost from_gives = { λ _ ending. ending ≡ OutOfMemory };

    fn from(_error: AllocError) -> Ending {
        Ending::OutOfMemory
    }
}

impl<T: Drop> From<AllocFailed<T>> for Ending {
    ghost use Rattle.std.specs.Prelude.{◌≡◌};
    ghost use Rattle.cq_race.specs.declared.worker.Ending.TheVariants.{OutOfMemory};

    ghost from_gives = { λ _ ending. ending ≡ OutOfMemory };

    fn from(_error: AllocFailed<T>) -> Ending {
        Ending::OutOfMemory
    }
}

/// A worker: its number, the number of its next call, the gate before its calls, and the flag that ends all workers.
#[derive(Drop)]
pub(crate) struct Worker<'a, G> {
    number: usize,
    next: u64,
    gate: &'a G,
    ended: &'a AtomicBool,
}

impl<'a, G: Gate> Worker<'a, G> {
    /// Makes a worker that has made no call.
    pub(crate) fn new(number: usize, gate: &'a G, ended: &'a AtomicBool) -> Worker<'a, G>
        ensures number { result.number ≡ number }
        ensures next { result.next ≡ 0 }
    {
        Worker {
            number,
            next: 0,
            gate,
            ended,
        }
    }

    /// Asks the gate whether the next call may be made.
    ///
    /// Errors:
    /// - `GaveUp`: the gate refuses, another worker has ended early, or no number is left after that of the call.
    fn enter(&self) -> Result<(), Ending>
        ensures left { OnOk result (self.now.next + 1 < 2 ^ 64) }
        ensures err { IfErr result (λ ending. ending ≡ Ending.GaveUp) }
    {
        if self.ended.load(Ordering::SeqCst) || self.next == u64::MAX {
            return Err(Ending::GaveUp);
        }
        if !self.gate.enter(self.number, self.next) {
            return Err(Ending::GaveUp);
        }
        Ok(())
    }

    /// Calls the gate after a call has returned, and goes on to the next one.
    fn answered(&mut self)
        requires { self.old.next + 1 < 2 ^ 64 }
        ensures number { self.new.number ≡ self.old.number }
        ensures next { self.new.next ≡ self.old.next + 1 }
    {
        self.gate.answered(self.number, self.next);
        self.next += 1;
    }

    /// Appends a message, and tries again while another caller writes.
    fn append_one(
        &mut self,
        queue: &Queue,
        appender: &mut Appender,
        message: &[u8],
    ) -> Result<(), Ending>
        requires { IsOf queue.now appender.old }
        ensures of { IsOf queue.now appender.new }
        ensures number { self.new.number ≡ self.old.number }
    {
        for _ in 0..u64::MAX {
            self.enter()?;
            let appended = appender.append(queue, MOMENT, message);
            self.answered();
            match appended {
                Ok(_index) => return Ok(()),
                Err(Refusal::Busy) => yield_now(),
                Err(_) => return Err(Ending::GaveUp),
            }
        }
        Err(Ending::GaveUp)
    }

    /// Reads the next message, and reads again while none has come.
    fn read_one(
        &mut self,
        alloc: Global,
        queue: &Queue,
        tailer: &mut Tailer,
    ) -> Result<Message, Ending>
        requires { IsOf queue.now tailer.old.caller }
        ensures of { IsOf queue.now tailer.new.caller }
        ensures number { self.new.number ≡ self.old.number }
    {
        for _ in 0..u64::MAX {
            self.enter()?;
            let found = tailer.next(alloc, queue);
            self.answered();
            match found? {
                Found::Message(_index, message) => return Ok(message),
                Found::NotYet | Found::BeforeStart => yield_now(),
            }
        }
        Err(Ending::GaveUp)
    }

    /// Appends `count` messages of its own.
    pub(crate) fn append_all(
        &mut self,
        alloc: Global,
        queue: &Queue,
        appender: &mut Appender,
        count: u32,
    ) -> Result<(), Ending>
        requires of { IsOf queue.now appender.old }
    {
        for number in 0..count {
            let message = message_of(alloc, self.number, number)?;
            self.append_one(queue, appender, message.as_slice())?;
        }
        Ok(())
    }

    /// Reads `count` messages.
    pub(crate) fn read_all(
        &mut self,
        alloc: Global,
        queue: &Queue,
        tailer: &mut Tailer,
        count: u64,
    ) -> Result<Vec<Message>, Ending>
        requires of { IsOf queue.now tailer.old.caller }
        ensures count { IfOk result (λ read. vec_len read ≡ count) }
    {
        let mut read = Vec::new(alloc);
        for _ in 0..count {
            read.push(self.read_one(alloc, queue, tailer)?)?;
        }
        Ok(read)
    }
}

/// Ends the other workers if this one ended early.
pub(crate) fn end_others<T>(outcome: Result<T, Ending>, ended: &AtomicBool) -> Result<T, Ending>
    ensures { result ≡ outcome }
{
    if outcome.is_err() {
        ended.store(true, Ordering::SeqCst);
    }
    outcome
}
