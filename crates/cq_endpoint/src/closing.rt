//! A queue is closed: no message comes any more.
ghost use Rattle.std.specs.Prelude.{◌≡◌, ◌≢◌, ◌↔◌, [], Err, IsTrue, true};
ghost use Rattle.cq_endpoint.specs.Closes.{Closes};
ghost use Rattle.cq_endpoint.specs.Endpoints.{ChangesTailer, child, split_once};
ghost use Rattle.cq_words.specs.Values.{GoesOn};

use crate::endpoint::Endpoint;
use crate::fault::CloseFault;
use core::mem::replace_with;

impl Endpoint {
    /// Closes the queue, for all its endpoints: no message is appended any more. What was appended stays, and is read
    /// and taken as before; then reads and takes return `Finished`. Names and the floor still move. A queue that is
    /// stopped and opened again is not closed.
    ///
    /// It begins a message of one byte and leaves it, so that nobody else can begin one. This message is in no list. If
    /// the current cycle has no place for it, it goes to the next one, which begins. If all cycles have begun and not
    /// one byte fits into the last, no message can come, and the queue is closed without one.
    ///
    /// Errors. After each but `Writing` the endpoint may have seen more, and cycles that were reserved or begun on the
    /// way stay so.
    /// - `Writing`: this endpoint has begun a message, which has to be completed or rolled back first. Nothing changed.
    /// - `Closed`: the queue was closed before.
    /// - `Busy`: another caller is writing at the tail. It may be tried again.
    /// - `CycleFull`: not one byte fits into the current cycle, and time has no later one: it would be after the last
    ///   cycle or the last moment. So it is also where all cycles have begun. Or others have filled the next cycle
    ///   meanwhile; it may be tried again.
    ///
    /// The last two come as `Refused`. It never waits (ours; Chronicle Queue closes no queue for others).
    pub fn close(&mut self) -> Result<(), CloseFault>
        ensures says { Closes self.old.queue self.old.work (child self.old.parent) self.new.work result }
        ensures writing { result ≡ Err CloseFault.Writing → self.new ≡ self.old }
        ensures rest { result ≢ Err CloseFault.Writing
            → self.new ≡ record self.old { work = self.new.work; parent = split_once self.old.parent } }
    {
        if self.work.is_writing() {
            return Err(CloseFault::Writing);
        }
        let witness = self.queue.split(&mut self.parent);
        let queue = &*self.queue;
        replace_with(&mut self.work, witness, |work, witness| {
            work.close(queue, witness)
        })
    }

    /// Returns whether the queue is closed, as its tailer sees it by one load: no message comes any more. Once it is,
    /// it stays so, and the lists of messages that the tailer sees later are those that it has seen now (ours).
    pub fn is_closed(&mut self) -> bool
        ensures goes { GoesOn self.old.queue self.old.tailer.caller self.new.tailer.caller [] }
        ensures stays { self.new.tailer ≡ record self.old.tailer { caller = self.new.tailer.caller } }
        ensures closed { IsTrue result ↔ (self.new.tailer.caller.view.sealed ≡ true) }
        ensures rest { ChangesTailer self.old self.new }
    {
        self.tailer.is_sealed(&self.queue)
    }
}
