//! A queue that threads share, and callers of it, each of which may go to a thread: they have the queue with them.

ghost use Rattle.std.specs.Arc.{arc_value};
ghost use Rattle.cq_words.specs.Values.{IsOf};

use cq_append::Appender;
use cq_model::Config;
use cq_tail::Tailer;
use cq_words::{Caller, Queue};
use std::alloc::{AllocError, Global};
use std::sync::Arc;
use std::test::Fail;

/// A queue that threads share, and the caller from which theirs are split off.
#[derive(Drop)]
pub struct SharedQueue {
    queue: Arc<Queue>,
    caller: Caller,
    ghost of: { IsOf (arc_value queue) caller },
}

impl SharedQueue {
    /// A new queue.
    pub fn new(alloc: Global, config: Config) -> Result<SharedQueue, Fail> {
        let (queue, caller) = Queue::create(alloc, config, 0)?;
        match Arc::new(alloc, queue) {
            Ok(queue) => Ok(SharedQueue { queue, caller }),
            Err(_queue) => Err(AllocError.into()),
        }
    }

    /// An appender that knows no place in the queue.
    pub fn appender(&mut self) -> Result<SharedAppender, AllocError> {
        let queue = Arc::try_clone(&self.queue)?;
        let appender = Appender::new(queue.split(&mut self.caller));
        Ok(SharedAppender { queue, appender })
    }

    /// A tailer at the start.
    pub fn tailer(&mut self) -> Result<SharedTailer, AllocError> {
        let queue = Arc::try_clone(&self.queue)?;
        let tailer = Tailer::new(queue.split(&mut self.caller));
        Ok(SharedTailer { queue, tailer })
    }
}

/// An appender and its queue.
#[derive(Drop)]
pub struct SharedAppender {
    pub queue: Arc<Queue>,
    pub appender: Appender,
    ghost of: { IsOf (arc_value queue) appender },
}

/// A tailer and its queue.
#[derive(Drop)]
pub struct SharedTailer {
    pub queue: Arc<Queue>,
    pub tailer: Tailer,
    ghost of: { IsOf (arc_value queue) tailer.caller },
}
