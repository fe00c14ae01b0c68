//! The dropping of old cycles.
ghost use Rattle.cq_words.specs.Values.{IsOf};

use cq_cycle::Index;
use cq_tail::Tailer;
use cq_words::Queue;

/// Drops all cycles but the current one and those whose number is at most `kept` below its own. Answers the least cycle that reads
/// look at.
pub fn drop_old(queue: &Queue, tailer: &mut Tailer, kept: u32) -> u32
    requires { IsOf queue.now tailer.old.caller }
    ensures { IsOf queue.now tailer.new.caller }
{
    let end = tailer.to_end(queue);
    let current = Index::of_value(end).cycle();
    tailer.drop_before(queue, current.saturating_sub(kept))
}
