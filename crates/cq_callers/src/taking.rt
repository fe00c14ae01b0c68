//! Callers that share the messages of a name.
ghost use Rattle.cq_words.specs.Values.{IsOf};

use cq_cycle::Index;
use cq_model::Message;
use cq_tail::{Tailer, Take, TakeFault};
use cq_words::Queue;
use std::alloc::Global;

/// The next message of a name, which nobody else who takes by this name gets. Answers none where no message has come, and
/// where another caller was first: that one has it, and a further call goes on behind it.
pub fn take_next(
    alloc: Global,
    queue: &Queue,
    tailer: &mut Tailer,
    name: &str,
) -> Result<Option<(Index, Message)>, TakeFault>
    requires { IsOf queue.now tailer.old.caller }
    ensures { IsOf queue.now tailer.new.caller }
{
    match tailer.take(alloc, queue, name)? {
        Take::Taken(index, message) => Ok(Some((index, message))),
        Take::NotYet | Take::Moved(_) => Ok(None),
    }
}
