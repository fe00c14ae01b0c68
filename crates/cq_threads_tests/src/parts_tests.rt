//! A thread that puts its messages in parts, concurrently with one that reads them.

ghost use Rattle.std.specs.Prelude.{◌≡◌, IfSome, None};
ghost use Rattle.cq_words.specs.Values.{IsOf};

use cq_append::{Appender, Writing};
use cq_fixtures::{config_of, expect, expect_row};
use cq_layout::Shape;
use cq_tail::{Found, Tailer};
use cq_words::Queue;
use std::alloc::Global;
use std::test::Fail;
use std::thread::{Threads, join, yield_now};

/// How many messages are written.
const COUNT: u32 = 500;

/// How often the reader looks for messages, before it gives up.
const TURNS: u32 = 100_000_000;

/// The byte of which a message consists.
fn byte_of(number: u32) -> u8 {
    number.to_le_bytes()[0]
}

/// Puts 40 equal bytes in parts of at most 7.
fn put_parts(queue: &Queue, writing: &mut Writing, byte: u8) -> bool
    requires { IsOf queue.now writing.old.caller }
    ensures { IsOf queue.now writing.new.caller }
{
    for _ in 0..5u32 {
        if writing.put(queue, &[byte; 7]).is_err() {
            return false;
        }
    }
    writing.put(queue, &[byte; 5]).is_ok()
}

/// Fills a message with 40 equal bytes and completes it.
fn fill_message(queue: &Queue, mut writing: Writing, byte: u8) -> Option<Appender>
    requires { IsOf queue.now writing.caller }
    ensures { IfSome result (λ appender. IsOf queue.now appender) }
{
    if !put_parts(queue, &mut writing, byte) {
        return None;
    }
    match writing.complete(queue) {
        Ok((appender, _index)) => Some(appender),
        Err(_) => None,
    }
}

/// Writes a message of 40 equal bytes.
fn write_message(queue: &Queue, appender: Appender, byte: u8) -> Option<Appender>
    requires { IsOf queue.now appender }
    ensures { IfSome result (λ appender. IsOf queue.now appender) }
{
    match appender.begin(queue, 0, 40) {
        Ok(writing) => fill_message(queue, writing, byte),
        Err(_) => None,
    }
}

/// Writes all messages. Returns whether none was refused.
fn write_messages(queue: &Queue, first: Appender) -> bool
    requires { IsOf queue.now first }
{
    let mut appender = first;
    for number in 0..COUNT {
        match write_message(queue, appender, byte_of(number)) {
            Some(next) => appender = next,
            None => return false,
        }
    }
    true
}

/// What a reader of these messages meets.
enum Met {
    /// The next message, of 40 equal bytes.
    Whole,
    /// No message yet.
    Nothing,
    /// Another message, or out of memory.
    Other,
}

/// What a reader meets that expects this byte next.
fn met_next(alloc: Global, queue: &Queue, tailer: &mut Tailer, byte: u8) -> Met
    requires { IsOf queue.now tailer.old.caller }
    ensures { IsOf queue.now tailer.new.caller }
{
    match tailer.next(alloc, queue) {
        Ok(Found::Message(_, message)) => {
            if message.as_slice() == [byte; 40].as_slice() {
                Met::Whole
            } else {
                Met::Other
            }
        }
        Ok(Found::NotYet) => Met::Nothing,
        Ok(Found::BeforeStart) | Err(_) => Met::Other,
    }
}

/// How many messages are read whole and in order, up to the first that is not.
fn count_whole(alloc: Global, queue: &Queue, tailer: &mut Tailer) -> u32
    requires { IsOf queue.now tailer.old.caller }
{
    let mut count = 0u32;
    for _ in 0..TURNS {
        match met_next(alloc, queue, tailer, byte_of(count)) {
            Met::Whole => count = count.wrapping_add(1),
            Met::Nothing => yield_now(),
            Met::Other => return count,
        }
        if count == COUNT {
            return count;
        }
    }
    count
}

/// Whether all messages were written, and how many were meanwhile read whole and in order.
fn write_and_read<R: Threads + Sync>(
    rt: &R,
    alloc: Global,
    queue: &Queue,
    appender: Appender,
    mut tailer: Tailer,
) -> (bool, u32)
    requires appender { IsOf queue.now appender }
    requires tailer { IsOf queue.now tailer.caller }
{
    join(
        rt,
        move || -> bool
            requires { IsOf queue.now appender }
        { write_messages(queue, appender) },
        move || -> u32
            requires { IsOf queue.now tailer.caller }
        { count_whole(alloc, queue, &mut tailer) },
    )
}

/// The same of a new queue.
fn whole_in_new<R: Threads + Sync>(rt: &R, alloc: Global) -> Result<(bool, u32), Fail> {
    let config = config_of(alloc, Shape::new(16384, 64, 1)?, 1)?;
    let (queue, mut caller) = Queue::create(alloc, config, 0)?;
    let appender = Appender::new(queue.split(&mut caller));
    let tailer = Tailer::new(queue.split(&mut caller));
    Ok(write_and_read(rt, alloc, &queue, appender, tailer))
}

#[test]
fn no_message_is_read_in_part(rt: HostRuntime) -> Result<(), Fail> {
    let (written, whole) = whole_in_new(&rt, rt.alloc())?;
    expect(written, "all messages are written")?;
    expect_row(whole == COUNT, u64::from(whole))
}
