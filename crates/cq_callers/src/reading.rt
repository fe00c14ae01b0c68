//! Callers that read.
ghost use Rattle.cq_words.specs.Values.{IsOf};

use cq_cycle::Index;
use cq_model::Message;
use cq_tail::{Found, Tailer};
use cq_words::Queue;
use std::alloc::{AllocError, Global};

/// The next message this way, with its index, if there is one.
pub fn next_message(
    alloc: Global,
    queue: &Queue,
    tailer: &mut Tailer,
) -> Result<Option<(Index, Message)>, AllocError>
    requires { IsOf queue.now tailer.old.caller }
    ensures { IsOf queue.now tailer.new.caller }
{
    match tailer.next(alloc, queue)? {
        Found::Message(index, message) => Ok(Some((index, message))),
        Found::NotYet | Found::BeforeStart => Ok(None),
    }
}
