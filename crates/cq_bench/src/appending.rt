//! Appending messages to a queue that others may write to.
ghost use Rattle.std.specs.Prelude.{◌≡◌, ◌+◌, ◌<◌, ◌≤◌, OnOk};
ghost use Rattle.cq_bench.specs.Counts.{messages_appended};
ghost use Rattle.cq_words.specs.Values.{IsOf};

use crate::fault::BenchFault;
use cq_append::{Appender, Backoff};
use cq_layout::Refusal;
use cq_words::Queue;

/// The moment of each append, in milliseconds of Unix time: all messages are in one cycle.
pub const MOMENT: u64 = 0;

/// The most tries of one call that is held back by another caller.
pub const MOST_TRIES: u32 = 1 << 30;

/// How an append is compiled into the measured loop.
#[derive(Clone, Copy)]
pub enum Appending {
    /// Its common case is code of the loop.
    Inlined,
    /// It is a function that the loop calls: its figure is compared with that of a call from C.
    Called,
}

/// Appends a message, and tries again if another caller writes.
#[inline(always)]
pub fn append_one(queue: &Queue, appender: &mut Appender, bytes: &[u8]) -> Result<(), BenchFault>
    requires { IsOf queue.now appender.old }
    ensures of { IsOf queue.now appender.new }
    ensures appended { OnOk result (messages_appended appender.old + 1 ≤ messages_appended appender.new) }
{
    append_among(queue, appender, &mut Backoff::new(), bytes)
}

/// Appends a message, and tries again if another caller writes, with waits that go on from one message to the next.
#[inline(always)]
fn append_among(
    queue: &Queue,
    appender: &mut Appender,
    backoff: &mut Backoff,
    bytes: &[u8],
) -> Result<(), BenchFault>
    requires { IsOf queue.now appender.old }
    ensures of { IsOf queue.now appender.new }
    ensures appended { OnOk result (messages_appended appender.old + 1 ≤ messages_appended appender.new) }
{
    match appender.append(queue, MOMENT, bytes) {
        Ok(_index) => Ok(()),
        Err(Refusal::Busy) => append_again(queue, appender, backoff, bytes),
        Err(refusal) => Err(BenchFault::Refused(refusal)),
    }
}

/// Tries again to append a message that another caller held back, with a wait before each try, as `append_waiting` does. It is a
/// function of its own, so that an append is one call if no other caller writes.
#[inline(never)]
fn append_again(
    queue: &Queue,
    appender: &mut Appender,
    backoff: &mut Backoff,
    bytes: &[u8],
) -> Result<(), BenchFault>
    requires { IsOf queue.now appender.old }
    ensures of { IsOf queue.now appender.new }
    ensures appended { OnOk result (messages_appended appender.old + 1 ≤ messages_appended appender.new) }
{
    for _ in 0..MOST_TRIES {
        backoff.pause();
        match appender.append(queue, MOMENT, bytes) {
            Ok(_index) => return Ok(()),
            Err(Refusal::Busy) => {}
            Err(refusal) => return Err(BenchFault::Refused(refusal)),
        }
    }
    Err(BenchFault::Refused(Refusal::Busy))
}

/// Appends a message `count` times. At least that many more of the caller's calls return an index, or it fails.
pub fn append_all(
    queue: &Queue,
    appender: &mut Appender,
    bytes: &[u8],
    count: u32,
) -> Result<(), BenchFault>
    requires { IsOf queue.now appender.old }
    ensures of { IsOf queue.now appender.new }
    ensures appended { OnOk result (messages_appended appender.old + count ≤ messages_appended appender.new) }
{
    for done in 0..count {
        match appender.append(queue, MOMENT, bytes) {
            Ok(_index) => {}
            Err(Refusal::Busy) => return append_rest(queue, appender, bytes, count - done),
            Err(refusal) => return Err(BenchFault::Refused(refusal)),
        }
    }
    Ok(())
}

/// The same if another caller held back the first one. It is a function of its own, so that nothing is kept for more
/// tries if no other caller writes.
#[cold]
#[inline(never)]
fn append_rest(
    queue: &Queue,
    appender: &mut Appender,
    bytes: &[u8],
    count: u32,
) -> Result<(), BenchFault>
    requires of { IsOf queue.now appender.old }
    requires some { 0 < count }
    ensures of { IsOf queue.now appender.new }
    ensures appended { OnOk result (messages_appended appender.old + count ≤ messages_appended appender.new) }
{
    let mut backoff = Backoff::new();
    append_again(queue, appender, &mut backoff, bytes)?;
    for _ in 1..count {
        append_among(queue, appender, &mut backoff, bytes)?;
        backoff.shorten();
    }
    Ok(())
}

/// Appends a message by a function that is not inlined.
#[inline(never)]
fn append_called(queue: &Queue, appender: &mut Appender, bytes: &[u8]) -> Result<(), BenchFault>
    requires { IsOf queue.now appender.old }
    ensures of { IsOf queue.now appender.new }
    ensures appended { OnOk result (messages_appended appender.old + 1 ≤ messages_appended appender.new) }
{
    append_one(queue, appender, bytes)
}

/// Appends a message this many times, each by a call.
fn append_all_called(
    queue: &Queue,
    appender: &mut Appender,
    bytes: &[u8],
    count: u32,
) -> Result<(), BenchFault>
    requires { IsOf queue.now appender.old }
    ensures of { IsOf queue.now appender.new }
    ensures appended { OnOk result (messages_appended appender.old + count ≤ messages_appended appender.new) }
{
    for _ in 0..count {
        append_called(queue, appender, bytes)?;
    }
    Ok(())
}

/// Appends a message this many times, in this way.
pub fn append_so(
    appending: Appending,
    queue: &Queue,
    appender: &mut Appender,
    bytes: &[u8],
    count: u32,
) -> Result<(), BenchFault>
    requires { IsOf queue.now appender.old }
    ensures of { IsOf queue.now appender.new }
    ensures appended { OnOk result (messages_appended appender.old + count ≤ messages_appended appender.new) }
{
    match appending {
        Appending::Inlined => append_all(queue, appender, bytes, count),
        Appending::Called => append_all_called(queue, appender, bytes, count),
    }
}
