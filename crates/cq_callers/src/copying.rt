//! A copy of a queue that goes on.
ghost use Rattle.std.specs.Prelude.{◌≡◌, IfOk, None};
ghost use Rattle.cq_words.specs.Values.{IsOf};

use cq_model::{Config, Contents, Items};
use cq_tail::Tailer;
use cq_words::{Caller, CreateError, Queue};
use std::alloc::Global;

/// Opens a new queue with all messages that a queue holds at one moment, while others go on to append to that. Each name stands at
/// the start of the new one, and no cycle of it is dropped.
pub fn copied(
    alloc: Global,
    config: Config,
    queue: &Queue,
    tailer: &mut Tailer,
) -> Result<(Queue, Caller), CreateError>
    requires { IsOf queue.now tailer.old.caller }
    ensures same { IsOf queue.now tailer.new.caller }
    ensures made { IfOk result (λ made. IsOf made.0 made.1 × (made.1.view.claim ≡ None)) }
{
    let lists = tailer.snapshot(alloc, queue)?;
    let positions = Vec::from_elem(alloc, 0u64, config.names().len())?;
    let contents = Contents {
        lists: Items::new(lists),
        positions: Items::new(positions),
        floor: 0,
    };
    Queue::reopen(alloc, config, &contents)
}
