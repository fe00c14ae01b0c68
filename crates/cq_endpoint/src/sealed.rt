//! An appender that was refused looks whether its queue is closed.
ghost use Rattle.cq_endpoint.specs.Looks.{LooksFor};
ghost use Rattle.cq_words.specs.Values.{IsOf};

use cq_append::Appender;
use cq_layout::Refusal;
use cq_words::Queue;

/// Returns whether the queue is closed. An appender whose arguments were refused does not look, and returns false.
pub(crate) fn finds_closed(appender: &mut Appender, queue: &Queue, refusal: Refusal) -> bool
    requires { IsOf queue.now appender.old }
    ensures of { IsOf queue.now appender.new }
    ensures looked { LooksFor queue.now refusal appender.old appender.new result }
{
    match refusal {
        Refusal::BadRoom | Refusal::BadMoment => false,
        Refusal::Busy | Refusal::NoCycleLeft | Refusal::CycleFull => appender.is_sealed(queue),
    }
}
