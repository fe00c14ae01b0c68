//! The queues that are measured: one cycle each, and no names.
ghost use Rattle.std.specs.Prelude.{◌≡◌, ◌+◌, ◌≤◌, IfOk, None, OnOk};
ghost use Rattle.std.specs.Arc.{arc_value};
ghost use Rattle.cq_bench.specs.Counts.{messages_appended, messages_read};
ghost use Rattle.cq_words.specs.Values.{IsOf};

use crate::appending::{Appending, MOMENT, append_all, append_one, append_so};
use crate::fault::BenchFault;
use crate::reading::{Target, read_all};
use cq_append::Appender;
use cq_cycle::Roll;
use cq_layout::{Shape, record_cells, store_size};
use cq_model::Config;
use cq_origin::layout_of;
use cq_tail::Tailer;
use cq_words::{Caller, Queue};
use std::alloc::{AllocError, Global};
use std::sync::Arc;

/// How many times the cells of a queue of a shelf a large queue has.
const TIMES_AS_LARGE: u32 = 16;

/// Returns the shape of the queues of a shelf that is compared with a large queue of this shape.
pub fn shelf_shape(large: Shape) -> Result<Shape, BenchFault> {
    let cells = large.cells() / TIMES_AS_LARGE;
    match Shape::new(cells, large.index_count(), large.index_spacing()) {
        Ok(shape) => Ok(shape),
        Err(_) => Err(BenchFault::NoQueue),
    }
}

/// Makes the settings of a queue with one cycle of this shape, which lasts a day.
pub fn config_of(alloc: Global, shape: Shape) -> Result<Config, BenchFault> {
    match Config::new(shape, 1, Roll::Daily, 0, Vec::new(alloc)) {
        Ok(config) => Ok(config),
        Err(_) => Err(BenchFault::NoQueue),
    }
}

/// Makes a new queue with one cycle of this shape, and its first caller.
pub fn new_queue(alloc: Global, shape: Shape) -> Result<(Queue, Caller), BenchFault>
    ensures of { IfOk result (λ made. IsOf made.0 made.1) }
    ensures idle { IfOk result (λ made. made.1.view.claim ≡ None) }
{
    Ok(Queue::create(alloc, config_of(alloc, shape)?, MOMENT)?)
}

/// Returns how many messages of this length, in bytes, certainly fit in a cycle of this shape, with all tables that
/// they need.
pub fn message_count(shape: Shape, length: u32) -> u32 {
    let layout = layout_of(shape, Roll::Daily, 0);
    let table = 1 + u64::from(shape.index_count());
    let served = u64::from(layout.messages_per_table());
    let record = u64::from(record_cells(length));
    // After the store record, the top table, one index table and the end of data.
    let room = u64::from(shape.cells()) - u64::from(store_size(layout)) - 2 * table - 1;
    let fitting = room * served / (served * record + table);
    fitting.min(u64::from(layout.message_limit())) as u32
}

/// A queue that threads share, and the caller from which theirs are split off.
#[derive(Drop)]
pub struct SharedQueue {
    queue: Arc<Queue>,
    caller: Caller,
    ghost of: { IsOf (arc_value queue) caller },
    ghost idle: { caller.view.claim ≡ None },
}

impl SharedQueue {
    /// Makes a new queue with one cycle of this shape.
    pub fn new(alloc: Global, shape: Shape) -> Result<SharedQueue, BenchFault> {
        let (queue, caller) = new_queue(alloc, shape)?;
        let queue = Arc::new(alloc, queue)?;
        Ok(SharedQueue { queue, caller })
    }

    /// Makes an appender that knows no position in the queue.
    pub fn appender(&mut self) -> Result<SharedAppender, AllocError> {
        let queue = Arc::try_clone(&self.queue)?;
        let appender = Appender::new(queue.split(&mut self.caller));
        Ok(SharedAppender { queue, appender })
    }

    /// Makes a tailer at the start.
    pub fn tailer(&mut self) -> Result<SharedTailer, AllocError> {
        let queue = Arc::try_clone(&self.queue)?;
        let tailer = Tailer::new(queue.split(&mut self.caller));
        Ok(SharedTailer { queue, tailer })
    }
}

/// An appender and its queue. It may go to a thread.
#[derive(Drop)]
pub struct SharedAppender {
    pub queue: Arc<Queue>,
    pub appender: Appender,
    ghost of: { IsOf (arc_value queue) appender },
}

impl SharedAppender {
    /// Appends a message of these bytes.
    #[inline(always)]
    pub fn append_one(&mut self, bytes: &[u8]) -> Result<(), BenchFault>
        ensures { OnOk result (messages_appended self.old.appender + 1 ≤ messages_appended self.new.appender) }
    {
        append_one(&self.queue, &mut self.appender, bytes)
    }

    /// Appends this many messages of these bytes.
    pub fn append_all(&mut self, bytes: &[u8], count: u32) -> Result<(), BenchFault>
        ensures { OnOk result (messages_appended self.old.appender + count ≤ messages_appended self.new.appender) }
    {
        append_all(&self.queue, &mut self.appender, bytes, count)
    }

    /// The same in this way.
    pub fn append_so(
        &mut self,
        appending: Appending,
        bytes: &[u8],
        count: u32,
    ) -> Result<(), BenchFault>
        ensures { OnOk result (messages_appended self.old.appender + count ≤ messages_appended self.new.appender) }
    {
        append_so(appending, &self.queue, &mut self.appender, bytes, count)
    }
}

/// A tailer and its queue. It may go to a thread.
#[derive(Drop)]
pub struct SharedTailer {
    pub queue: Arc<Queue>,
    pub tailer: Tailer,
    ghost of: { IsOf (arc_value queue) tailer.caller },
}

impl SharedTailer {
    /// Reads this many messages. If the next one has not come it tries again, up to the given number of times for
    /// each.
    pub fn read_all(
        &mut self,
        target: &mut Target,
        count: u32,
        tries: u32,
    ) -> Result<(), BenchFault>
        ensures { OnOk result (messages_read self.old.tailer.caller + count ≤ messages_read self.new.tailer.caller) }
    {
        read_all(target, &self.queue, &mut self.tailer, count, tries)
    }
}
