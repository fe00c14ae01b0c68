//! Declared names, their positions, and takes.
ghost use Rattle.std.specs.Prelude.{◌≤◌, IfErr, IfOk, OnErr};
ghost use Rattle.cq_endpoint.specs.Endpoints.{ChangesTailer};
ghost use Rattle.cq_endpoint.specs.Faults.{SeekFails};
ghost use Rattle.cq_endpoint.specs.Reads.{TakeRefused, TakeSays};
ghost use Rattle.cq_tail.specs.Names.{NameFails, Seeks, TellsPosition};

use crate::again::take_again;
use crate::answers::Taken;
use crate::endpoint::Endpoint;
use crate::fault::SeekFault;
use cq_tail::{NoSuchName, Sought, Take, TakeFault};
use std::alloc::Global;

impl Endpoint {
    /// Returns the position of a name that the queue declares: the next message taken by this name has this index or a
    /// later one.
    ///
    /// Errors:
    /// - `NoSuchName`: the queue declares no such name. Nothing changed.
    pub fn position(&mut self, name: &str) -> Result<u64, NoSuchName>
        ensures ok { IfOk result (λ p. TellsPosition self.old.queue self.old.tailer self.new.tailer name.now p) }
        ensures err { OnErr result (NameFails self.old.queue self.old.tailer self.new.tailer name.now) }
        ensures rest { ChangesTailer self.old self.new }
    {
        self.tailer.position(&self.queue, name)
    }

    /// Moves a name that the queue declares from position `from` to position `to`.
    ///
    /// - `Done`: the name was at `from`, and has moved.
    /// - `Moved`: the name is at this other position, and was not moved.
    ///
    /// Errors, in the order in which they come; nothing changed after either:
    /// - `NotSeen`: `to` is above the end that its tailer has seen. It comes exactly then. What its appender has seen
    ///   counts only once the tailer has seen it, as by `to_end` or `meet`.
    /// - `NoSuchName`: the queue declares no such name.
    pub fn seek(&mut self, name: &str, from: u64, to: u64) -> Result<Sought, SeekFault>
        ensures ok { IfOk result (λ sought.
            Seeks self.old.queue self.old.tailer self.new.tailer name.now from to sought) }
        ensures seen { IfOk result (λ sought. to ≤ self.old.tailer.caller.seen_end) }
        ensures err { IfErr result (λ fault.
            SeekFails self.old.queue self.old.tailer self.new.tailer name.now to fault) }
        ensures rest { ChangesTailer self.old self.new }
    {
        if self.tailer.seen_end() < to {
            return Err(SeekFault::NotSeen);
        }
        match self.tailer.seek(&self.queue, name, from, to) {
            Ok(sought) => Ok(sought),
            Err(_) => Err(SeekFault::NoSuchName),
        }
    }

    /// Takes a message by a name that the queue declares: reads the message with the least index at or after the position
    /// of the name, in a cycle that is not dropped, and moves the name after it.
    ///
    /// - `Taken`: the message and its index. The name is after it.
    /// - `NotYet`: no message has come there. The name stays.
    /// - `Finished`: no message has come there, and none comes any more: the queue is closed. The name stays. Where no
    ///   message has come it looks by one load whether the queue is closed, and if so it takes once more. It is final
    ///   unless the name is moved back.
    /// - `Moved`: another caller has moved the name since. Nothing was taken; this is the position at which it was found.
    ///
    /// Errors:
    /// - `NoSuchName`: the queue declares no such name. Nothing changed.
    /// - `OutOfMemory`: out of memory, for the copy of the message. No event was added but those of a first take that
    ///   found none.
    pub fn take(&mut self, alloc: Global, name: &str) -> Result<Taken, TakeFault>
        ensures ok { IfOk result (λ taken. TakeSays self.old.queue self.old.tailer self.new.tailer name.now taken) }
        ensures err { IfErr result (λ fault.
            TakeRefused self.old.queue self.old.tailer self.new.tailer name.now fault) }
        ensures rest { ChangesTailer self.old self.new }
    {
        match self.tailer.take(alloc, &self.queue, name)? {
            Take::NotYet => take_again(&mut self.tailer, &self.queue, alloc, name),
            found => Ok(Taken::of(found)),
        }
    }
}
