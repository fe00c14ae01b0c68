//! Callers that append.
ghost use Rattle.cq_words.specs.Values.{IsOf};

use crate::reading::next_message;
use cq_append::{Appender, NoRoom, Writing};
use cq_cycle::Index;
use cq_model::{Config, Message};
use cq_tail::Tailer;
use cq_words::Queue;
use std::alloc::Global;
use std::test::Fail;

/// Appends a message to a new queue by one caller, and reads what comes first by another.
pub fn append_then_read(
    alloc: Global,
    config: Config,
    moment: u64,
    bytes: &[u8],
) -> Result<Option<(Index, Message)>, Fail> {
    let (queue, mut caller) = Queue::create(alloc, config, moment)?;
    let mut appender = Appender::new(queue.split(&mut caller));
    let mut tailer = Tailer::new(caller);
    append_and_read(alloc, &queue, &mut appender, &mut tailer, moment, bytes)
}

/// Appends a message by an appender, and reads the next one by a tailer.
fn append_and_read(
    alloc: Global,
    queue: &Queue,
    appender: &mut Appender,
    tailer: &mut Tailer,
    moment: u64,
    bytes: &[u8],
) -> Result<Option<(Index, Message)>, Fail>
    requires appender { IsOf queue.now appender.old }
    requires tailer { IsOf queue.now tailer.old.caller }
{
    let _index = appender.append(queue, moment, bytes)?;
    Ok(next_message(alloc, queue, tailer)?)
}

/// Appends a message of which no more than its greatest length is known beforehand. Answers the appender, and the index of the
/// message, where one was appended.
pub fn append_written(
    queue: &Queue,
    appender: Appender,
    moment: u64,
    room: u32,
    bytes: &[u8],
) -> (Appender, Option<Index>)
    requires { IsOf queue.now appender }
    ensures { IsOf queue.now result.0 }
{
    match appender.begin(queue, moment, room) {
        Ok(writing) => fill(queue, writing, bytes),
        Err((appender, _refusal)) => (appender, None),
    }
}

/// Puts the bytes, which may be done in parts, and completes the message. Where they do not fit it is given up.
fn fill(queue: &Queue, mut writing: Writing, bytes: &[u8]) -> (Appender, Option<Index>)
    requires { IsOf queue.now writing.caller }
    ensures { IsOf queue.now result.0 }
{
    match writing.put(queue, bytes) {
        Ok(()) => complete(queue, writing),
        Err(NoRoom) => (writing.roll_back(queue), None),
    }
}

/// Completes a message. One without bytes is given up.
fn complete(queue: &Queue, writing: Writing) -> (Appender, Option<Index>)
    requires { IsOf queue.now writing.caller }
    ensures { IsOf queue.now result.0 }
{
    match writing.complete(queue) {
        Ok((appender, index)) => (appender, Some(index)),
        Err((writing, _empty)) => (writing.roll_back(queue), None),
    }
}
