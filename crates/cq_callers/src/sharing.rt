//! Threads that share a queue.
ghost use Rattle.cq_words.specs.Values.{IsOf};

use cq_append::Appender;
use cq_words::{Caller, Queue};
use std::sync::Wait;
use std::thread::{Threads, join};

/// Appends a message in each of two threads, which share the queue by reference. Answers whether each was appended.
pub fn append_beside<R: Threads + Wait + Sync>(
    rt: &R,
    queue: &Queue,
    caller: &mut Caller,
    moment: u64,
) -> (bool, bool)
    requires { IsOf queue.now caller.old }
    ensures { IsOf queue.now caller.new }
{
    let one = Appender::new(queue.split(caller));
    let two = Appender::new(queue.split(caller));
    join(
        rt,
        move || -> bool
            requires { IsOf queue.now one }
        { appends(rt, queue, one, moment) },
        move || -> bool
            requires { IsOf queue.now two }
        { appends(rt, queue, two, moment) },
    )
}

/// Appends a message as soon as the other thread lets it.
fn appends<R: Wait>(rt: &R, queue: &Queue, mut appender: Appender, moment: u64) -> bool
    requires { IsOf queue.now appender }
{
    appender.append_waiting(rt, queue, moment, b"hello").is_ok()
}
