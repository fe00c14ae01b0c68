//! A queue that one caller appends to and another one reads.

use cq_append::Appender;
use cq_fixtures::config_of;
use cq_layout::Shape;
use cq_tail::Tailer;
use cq_words::Queue;
use std::alloc::Global;
use std::marker::Model;
use std::test::Fail;

/// A queue, an appender and a tailer. Contracts see no more of it than that both are of this queue.
#[derive(Drop)]
pub struct Both {
    pub queue: Queue,
    pub appender: Appender,
    pub tailer: Tailer,
}

impl Model for Both {
    ghost use Rattle.std.specs.Prelude.{ℕ};
    ghost use Rattle.cq_words.specs.Values.{IsOf};

    ghost Value = { ℕ };

    ghost view = { λ b. 0 };

    ghost invariant = { λ b. IsOf b.queue b.appender × IsOf b.queue b.tailer.caller };
}

impl Both {
    /// A new queue of this many cycles, whose index has an entry for one message in `spacing`.
    pub fn new(alloc: Global, cycles: u32, spacing: u32) -> Result<Both, Fail> {
        let config = config_of(alloc, Shape::new(16384, 256, spacing)?, cycles)?;
        let (queue, mut caller) = Queue::create(alloc, config, 0)?;
        let appender = Appender::new(queue.split(&mut caller));
        let tailer = Tailer::new(caller);
        Ok(Both {
            queue,
            appender,
            tailer,
        })
    }
}
