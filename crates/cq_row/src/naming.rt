//! At which queue a name takes.
ghost use Rattle.std.specs.Prelude.{MatchOption};
ghost use Rattle.cq_model.specs.Settings.{Declares, IsNameAt};

use crate::row::{Row, raise};
use std::sync::atomic::Ordering;

impl Row {
    /// The place of a name among those that the queues declare.
    pub fn name_index(&self, name: &str) -> Option<usize>
        ensures { MatchOption result (¬ Declares self.now.config name.now) (IsNameAt self.now.config name.now) }
    {
        self.config().place_of(name)
    }

    /// The number of the queue at which a name takes, or of the oldest that may live, if that is later.
    pub fn queue_of_name(&self, index: usize) -> u64 {
        match self.names.get(index) {
            Some(queue) => queue.load(Ordering::SeqCst).max(self.oldest()),
            None => self.oldest(),
        }
    }

    /// A name goes on from this queue to the next one, unless another taker has moved it on. This queue is closed, the name has taken
    /// all of it, and the caller is at the next one.
    pub fn pass(&self, index: usize, number: u64) {
        let Some(next) = number.checked_add(1) else {
            return;
        };
        if !self.counts() {
            return self.pass_to(index, next);
        }
        let Some(queue) = self.names.get(index) else {
            return;
        };
        self.keep(next);
        let moved = queue.compare_exchange(number, next, Ordering::SeqCst, Ordering::SeqCst);
        self.leave(if moved.is_ok() { number } else { next });
    }

    /// A name goes on to this queue where earlier ones were dropped, unless it is there or at a later one.
    pub fn pass_to(&self, index: usize, number: u64) {
        if let Some(queue) = self.names.get(index) {
            raise(queue, number);
        }
    }
}
