//! Runs each caller of `cq_callers` once.

ghost use Rattle.std.specs.Prelude.{◌≡◌, None};
ghost use Rattle.cq_words.specs.Values.{IsOf};

use crate::calls::{Call, Calls, expect_calls};
use crate::new_queues::{new_endpoint, two_endpoints};
use cq_append::Appender;
use cq_callers::{
    append_beside, append_then_read, append_written, copied, count_to_end, drop_old,
    first_of_shelf, next_message, read_in, reopened, sent, start, take_next, work_in_threads,
};
use cq_cycle::Index;
use cq_endpoint::Endpoint;
use cq_fixtures::{
    DAY, expect, expect_row, expect_text, message_or_none, message_text, small_config,
};
use cq_tail::{Found, Tailer};
use cq_words::{Caller, Queue};
use std::alloc::Global;
use std::sync::Wait;
use std::test::Fail;
use std::thread::Threads;

/// What was read, as text.
fn found_text(alloc: Global, found: Found) -> Result<String, Fail> {
    match found {
        Found::Message(index, message) => message_text(alloc, index, &message),
        Found::NotYet | Found::BeforeStart => Ok(String::from_str(alloc, "none")?),
    }
}

#[test]
fn a_first_message_is_read(rt: HostRuntime) -> Result<(), Fail> {
    let alloc = rt.alloc();
    expect_text(found_text(alloc, start(alloc, 0)?)?, "0 hello")
}

#[test]
fn a_message_is_appended_and_read(rt: HostRuntime) -> Result<(), Fail> {
    let alloc = rt.alloc();
    let read = append_then_read(alloc, small_config(alloc, 4)?, 0, b"hello")?;
    expect_text(message_or_none(alloc, &read)?, "0 hello")
}

#[test]
fn a_message_is_sent_by_an_endpoint(rt: HostRuntime) -> Result<(), Fail> {
    let alloc = rt.alloc();
    let read = sent(alloc, small_config(alloc, 4)?, 0, b"hello")?;
    expect_text(message_or_none(alloc, &read)?, "0 hello")
}

/// What an endpoint reads next into a buffer.
fn push_read(endpoint: &mut Endpoint, room: &mut [u8], out: &mut String) -> Result<(), Fail> {
    match read_in(endpoint, room) {
        Some(message) => Ok(out.push_str(str::from_utf8(message)?)?),
        None => Ok(out.push_str("none ")?),
    }
}

/// What an endpoint reads next into a buffer of this many bytes.
fn push_read_in(
    alloc: Global,
    endpoint: &mut Endpoint,
    size: usize,
    out: &mut String,
) -> Result<(), Fail> {
    let mut room = Vec::from_elem(alloc, 0u8, size)?;
    push_read(endpoint, room.as_mut_slice(), out)
}

/// What an endpoint that appended a message reads into buffers of these lengths in bytes, one after the other.
fn rooms_text(alloc: Global, endpoint: &mut Endpoint, sizes: &[usize]) -> Result<String, Fail> {
    let _index = endpoint.append(0, b"hello")?;
    let mut out = String::new(alloc);
    for size in sizes {
        push_read_in(alloc, endpoint, *size, &mut out)?;
    }
    Ok(out)
}

/// The same of a new queue.
fn read_in_rooms(alloc: Global, sizes: &[usize]) -> Result<String, Fail> {
    let mut endpoint = new_endpoint(alloc)?;
    rooms_text(alloc, &mut endpoint, sizes)
}

#[test]
fn a_message_is_read_into_a_room(rt: HostRuntime) -> Result<(), Fail> {
    expect_text(read_in_rooms(rt.alloc(), &[4, 8])?, "none hello")
}

/// Calls of an endpoint that closes the queue after two messages.
const CLOSES: Calls = &[
    (Call::Append(0, "a"), "0"),
    (Call::Append(0, "b"), "1"),
    (Call::Close, "closed"),
];

/// How many messages an endpoint reads of a queue that another one closes after two of them.
fn counted(alloc: Global, one: &mut Endpoint, other: &mut Endpoint) -> Result<u64, Fail> {
    expect_calls(alloc, "the one that closes", one, CLOSES)?;
    Ok(count_to_end(alloc, other)?)
}

/// The same of a new queue.
fn counted_of_two(alloc: Global) -> Result<u64, Fail> {
    let (mut one, mut other) = two_endpoints(alloc)?;
    counted(alloc, &mut one, &mut other)
}

#[test]
fn messages_are_counted_to_the_end(rt: HostRuntime) -> Result<(), Fail> {
    expect_row(counted_of_two(rt.alloc())? == 2, 0)
}

#[test]
fn a_message_of_a_shelf_is_read(rt: HostRuntime) -> Result<(), Fail> {
    let alloc = rt.alloc();
    let read = match first_of_shelf(alloc, small_config(alloc, 1)?, 0)? {
        Some((position, message)) => Some((position.index, message)),
        None => None,
    };
    expect_text(message_or_none(alloc, &read)?, "0 hello")
}

/// Whether two threads append and read, with an endpoint of a new queue each.
fn worked_in_threads<R: Threads + Sync>(rt: &R, alloc: Global) -> Result<(bool, bool), Fail> {
    let (one, two) = two_endpoints(alloc)?;
    Ok(work_in_threads(rt, alloc, one, two, 0))
}

#[test]
fn endpoints_work_in_threads(rt: HostRuntime) -> Result<(), Fail> {
    let (one, two) = worked_in_threads(&rt, rt.alloc())?;
    expect(one && two, "both threads append and read")
}

/// What two threads and a caller that puts bytes make of a queue: whether each thread appended, and the index that
/// comes then.
fn appended<R: Threads + Wait + Sync>(
    rt: &R,
    queue: &Queue,
    caller: &mut Caller,
) -> (bool, bool, Option<Index>)
    requires { IsOf queue.now caller.old }
    ensures { IsOf queue.now caller.new }
{
    let (one, two) = append_beside(rt, queue, caller, 0);
    let appender = Appender::new(queue.split(caller));
    let (_appender, index) = append_written(queue, appender, 0, 20, b"last");
    (one, two, index)
}

/// What a tailer takes from a queue by the name "reader".
fn taken_text(alloc: Global, queue: &Queue, tailer: &mut Tailer) -> Result<String, Fail>
    requires { IsOf queue.now tailer.old.caller }
{
    let taken = take_next(alloc, queue, tailer, "reader")?;
    message_or_none(alloc, &taken)
}

/// What a tailer that is split off a caller takes first.
fn taken(alloc: Global, queue: &Queue, caller: &mut Caller) -> Result<String, Fail>
    requires { IsOf queue.now caller.old }
{
    let mut tailer = Tailer::new(queue.split(caller));
    taken_text(alloc, queue, &mut tailer)
}

/// What a tailer reads next, as text.
fn next_text(alloc: Global, queue: &Queue, tailer: &mut Tailer) -> Result<String, Fail>
    requires { IsOf queue.now tailer.old.caller }
    ensures { IsOf queue.now tailer.new.caller }
{
    let read = next_message(alloc, queue, tailer)?;
    message_or_none(alloc, &read)
}

/// What a caller reads first.
fn first_text(alloc: Global, queue: &Queue, caller: Caller) -> Result<String, Fail>
    requires of { IsOf queue.now caller }
    requires claim { caller.view.claim ≡ None }
{
    let mut tailer = Tailer::new(caller);
    next_text(alloc, queue, &mut tailer)
}

/// Appends "hello" by an appender that is split off a caller.
fn append_hello(queue: &Queue, caller: &mut Caller)
    requires { IsOf queue.now caller.old }
    ensures of { IsOf queue.now caller.new }
    ensures claim { caller.new.view.claim ≡ caller.old.view.claim }
{
    let appender = Appender::new(queue.split(caller));
    let (_appender, _index) = append_written(queue, appender, 0, 20, b"hello");
}

/// What two threads and a caller that puts bytes make of a queue, and what is taken from it then.
fn appended_and_taken<R: Threads + Wait + Sync>(
    rt: &R,
    alloc: Global,
    queue: &Queue,
    caller: &mut Caller,
) -> Result<(bool, bool, Option<Index>, String), Fail>
    requires { IsOf queue.now caller.old }
{
    let (one, two, index) = appended(rt, queue, caller);
    let text = taken(alloc, queue, caller)?;
    Ok((one, two, index, text))
}

/// The same of a new queue.
fn new_queue_taken<R: Threads + Wait + Sync>(
    rt: &R,
    alloc: Global,
) -> Result<(bool, bool, Option<Index>, String), Fail> {
    let (queue, mut caller) = Queue::create(alloc, small_config(alloc, 4)?, 0)?;
    appended_and_taken(rt, alloc, &queue, &mut caller)
}

#[test]
fn threads_append_and_one_message_is_taken(rt: HostRuntime) -> Result<(), Fail> {
    let (one, two, index, taken) = new_queue_taken(&rt, rt.alloc())?;
    expect(one && two, "both threads append")?;
    expect(index == Some(Index::new(0, 2)), "the index after theirs")?;
    expect_text(taken, "0 hello")
}

/// What is read first of a queue that was stopped and opened again.
fn read_again(alloc: Global, queue: Queue, caller: Caller) -> Result<String, Fail>
    requires { IsOf queue caller }
{
    let (queue, caller) = reopened(alloc, small_config(alloc, 4)?, queue, caller)?;
    first_text(alloc, &queue, caller)
}

/// The same of a new queue with one message.
fn new_queue_again(alloc: Global) -> Result<String, Fail> {
    let (queue, mut caller) = Queue::create(alloc, small_config(alloc, 4)?, 0)?;
    append_hello(&queue, &mut caller);
    read_again(alloc, queue, caller)
}

#[test]
fn a_queue_is_opened_again(rt: HostRuntime) -> Result<(), Fail> {
    expect_text(new_queue_again(rt.alloc())?, "0 hello")
}

/// What is read first of a copy that a tailer makes.
fn copy_text(alloc: Global, queue: &Queue, tailer: &mut Tailer) -> Result<String, Fail>
    requires { IsOf queue.now tailer.old.caller }
{
    let (copy, caller) = copied(alloc, small_config(alloc, 4)?, queue, tailer)?;
    first_text(alloc, &copy, caller)
}

/// What is read first of a copy of a queue.
fn read_copy(alloc: Global, queue: &Queue, caller: Caller) -> Result<String, Fail>
    requires of { IsOf queue.now caller }
    requires claim { caller.view.claim ≡ None }
{
    let mut tailer = Tailer::new(caller);
    copy_text(alloc, queue, &mut tailer)
}

/// The same of a new queue with one message.
fn new_queue_copy(alloc: Global) -> Result<String, Fail> {
    let (queue, mut caller) = Queue::create(alloc, small_config(alloc, 4)?, 0)?;
    append_hello(&queue, &mut caller);
    read_copy(alloc, &queue, caller)
}

#[test]
fn a_queue_is_copied(rt: HostRuntime) -> Result<(), Fail> {
    expect_text(new_queue_copy(rt.alloc())?, "0 hello")
}

/// Appends "old" and, in a later cycle, "new".
fn append_both(queue: &Queue, appender: &mut Appender) -> Result<(), Fail>
    requires { IsOf queue.now appender.old }
{
    let _old = appender.append(queue, 0, b"old")?;
    let _new = appender.append(queue, 5 * DAY, b"new")?;
    Ok(())
}

/// The same by an appender that is split off a caller.
fn append_old_and_new(queue: &Queue, caller: &mut Caller) -> Result<(), Fail>
    requires { IsOf queue.now caller.old }
    ensures of { IsOf queue.now caller.new }
    ensures claim { caller.new.view.claim ≡ caller.old.view.claim }
{
    let mut appender = Appender::new(queue.split(caller));
    append_both(queue, &mut appender)
}

/// Drops all cycles but the last of a queue, and reads what comes first then.
fn drop_and_read(alloc: Global, queue: &Queue, tailer: &mut Tailer) -> Result<(u32, String), Fail>
    requires { IsOf queue.now tailer.old.caller }
{
    let floor = drop_old(queue, tailer, 0);
    tailer.to_start();
    Ok((floor, next_text(alloc, queue, tailer)?))
}

/// The same by a tailer that a caller becomes.
fn read_after_drop(alloc: Global, queue: &Queue, caller: Caller) -> Result<(u32, String), Fail>
    requires of { IsOf queue.now caller }
    requires claim { caller.view.claim ≡ None }
{
    let mut tailer = Tailer::new(caller);
    drop_and_read(alloc, queue, &mut tailer)
}

/// The same of a new queue with a message in each of two cycles.
fn new_queue_dropped(alloc: Global) -> Result<(u32, String), Fail> {
    let (queue, mut caller) = Queue::create(alloc, small_config(alloc, 4)?, 0)?;
    append_old_and_new(&queue, &mut caller)?;
    read_after_drop(alloc, &queue, caller)
}

#[test]
fn old_cycles_are_dropped(rt: HostRuntime) -> Result<(), Fail> {
    let (floor, read) = new_queue_dropped(rt.alloc())?;
    expect_row(floor == 5, u64::from(floor))?;
    expect_text(read, "21474836480 new")
}
