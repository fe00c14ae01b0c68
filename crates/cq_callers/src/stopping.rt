//! The end of a queue, and its next beginning.
ghost use Rattle.std.specs.Prelude.{◌≡◌, IfOk, None};
ghost use Rattle.cq_words.specs.Values.{IsOf};

use cq_model::Config;
use cq_shown::recover;
use cq_words::{Caller, CreateError, Queue};
use std::alloc::Global;

/// Stops a queue, and opens a new one with all messages and positions that it held. The other callers have ended.
pub fn reopened(
    alloc: Global,
    config: Config,
    queue: Queue,
    caller: Caller,
) -> Result<(Queue, Caller), CreateError>
    requires { IsOf queue caller }
    ensures { IfOk result (λ made. IsOf made.0 made.1 × (made.1.view.claim ≡ None)) }
{
    let stopped = queue.stop(caller);
    let contents = recover(alloc, &stopped)?;
    Queue::reopen(alloc, config, &contents)
}
