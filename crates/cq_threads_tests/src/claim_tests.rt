//! Threads concurrently with a message that was begun, and with a cycle that begins.

ghost use Rattle.std.specs.Prelude.{◌≡◌, None};
ghost use Rattle.cq_words.specs.Values.{IsOf};

use cq_append::{Appender, Writing};
use cq_fixtures::{DAY, contents_text, expect, small_config};
use cq_shown::{Stopped, recover};
use cq_tail::{Found, Tailer};
use cq_words::{Caller, Queue};
use std::alloc::{AllocError, Global};
use std::sync::Wait;
use std::sync::atomic::{AtomicU64, Ordering};
use std::test::Fail;
use std::thread::{Threads, join, scope, scope_env, yield_now};

/// How often a thread looks for what another one does, before it gives up.
const TURNS: u32 = 10_000_000;

/// The stage at which a message was begun.
const BEGUN: u64 = 1;

/// The stage at which the other thread has looked for it.
const SEEN: u64 = 2;

/// The stage at which it was completed.
const COMPLETED: u64 = 3;

/// Waits for a stage. Returns whether it came.
fn has_come(stage: &AtomicU64, wanted: u64) -> bool {
    for _ in 0..TURNS {
        if stage.load(Ordering::SeqCst) == wanted {
            return true;
        }
        yield_now();
    }
    false
}

/// Puts "hello" into a message and completes it. Returns its index.
fn complete_hello(queue: &Queue, mut writing: Writing) -> Option<u64>
    requires { IsOf queue.now writing.caller }
{
    if writing.put(queue, b"hello").is_err() {
        return None;
    }
    match writing.complete(queue) {
        Ok((_appender, index)) => Some(index.value()),
        Err(_) => None,
    }
}

/// Completes "hello" once the other thread has looked for it. Returns its index.
fn complete_later(queue: &Queue, writing: Writing, stage: &AtomicU64) -> Option<u64>
    requires { IsOf queue.now writing.caller }
{
    stage.store(BEGUN, Ordering::SeqCst);
    if !has_come(stage, SEEN) {
        return None;
    }
    let index = complete_hello(queue, writing);
    stage.store(COMPLETED, Ordering::SeqCst);
    index
}

/// Begins "hello", and completes it once the other thread has looked for it. Returns its index.
fn write_hello(queue: &Queue, appender: Appender, stage: &AtomicU64) -> Option<u64>
    requires { IsOf queue.now appender }
{
    match appender.begin(queue, 0, 5) {
        Ok(writing) => complete_later(queue, writing, stage),
        Err(_) => None,
    }
}

/// Whether no message is there.
fn reads_nothing(alloc: Global, queue: &Queue, tailer: &mut Tailer) -> Result<bool, AllocError>
    requires { IsOf queue.now tailer.old.caller }
    ensures { IsOf queue.now tailer.new.caller }
{
    Ok(matches!(tailer.next(alloc, queue)?, Found::NotYet))
}

/// Returns the index of "hello", if that was read.
fn index_of_hello(found: &Found) -> Option<u64> {
    match found {
        Found::Message(index, message) => {
            if message.as_slice() == b"hello".as_slice() {
                return Some(index.value());
            }
            None
        }
        _ => None,
    }
}

/// Returns the index of "hello", if that is read.
fn read_hello(alloc: Global, queue: &Queue, tailer: &mut Tailer) -> Result<Option<u64>, AllocError>
    requires { IsOf queue.now tailer.old.caller }
{
    Ok(index_of_hello(&tailer.next(alloc, queue)?))
}

/// Whether no message was there while "hello" was begun, and the index of "hello" once it was completed.
type Beside = Result<(bool, Option<u64>), AllocError>;

/// Returns what a reader finds concurrently with "hello".
fn read_beside(alloc: Global, queue: &Queue, tailer: &mut Tailer, stage: &AtomicU64) -> Beside
    requires { IsOf queue.now tailer.old.caller }
{
    if !has_come(stage, BEGUN) {
        return Ok((false, None));
    }
    // The writer goes on even if the reader is out of memory.
    let looked = reads_nothing(alloc, queue, tailer);
    stage.store(SEEN, Ordering::SeqCst);
    let is_nothing = looked?;
    if !has_come(stage, COMPLETED) {
        return Ok((is_nothing, None));
    }
    Ok((is_nothing, read_hello(alloc, queue, tailer)?))
}

/// Returns what the writer of "hello" and a concurrent reader return, or `AllocError` if no thread could be made.
fn beside_claim<R: Threads + Wait + Sync>(
    rt: &R,
    alloc: Global,
    queue: &Queue,
    appender: Appender,
    mut tailer: Tailer,
    stage: &AtomicU64,
) -> Result<(Option<u64>, Beside), AllocError>
    requires appender { IsOf queue.now appender }
    requires tailer { IsOf queue.now tailer.caller }
{
    scope(
        scope_env(),
        rt,
        move |scope| -> Result<(Option<u64>, Beside), AllocError>
            requires { IsOf queue.now appender × IsOf queue.now tailer.caller }
        {
            let reader = scope.spawn(
                move || -> Beside
                    requires { IsOf queue.now tailer.caller }
                { read_beside(alloc, queue, &mut tailer, stage) },
            )?;
            let written = write_hello(queue, appender, stage);
            Ok((written, reader.join(rt)))
        },
    )
}

/// The same of an appender and a tailer that are split off a caller, as text.
fn beside_text<R: Threads + Wait + Sync>(
    rt: &R,
    alloc: Global,
    queue: &Queue,
    caller: &mut Caller,
) -> Result<String, Fail>
    requires { IsOf queue.now caller.old }
{
    let appender = Appender::new(queue.split(caller));
    let tailer = Tailer::new(queue.split(caller));
    let stage = AtomicU64::new(0);
    let answers = beside_claim(rt, alloc, queue, appender, tailer, &stage)?;
    Ok(format!(in alloc; "{answers:?}")?)
}

/// The same of a new queue.
fn beside_claim_text<R: Threads + Wait + Sync>(rt: &R, alloc: Global) -> Result<String, Fail> {
    let (queue, mut caller) = Queue::create(alloc, small_config(alloc, 1)?, 0)?;
    beside_text(rt, alloc, &queue, &mut caller)
}

#[test]
fn reader_beside_claim(rt: HostRuntime) -> Result<(), Fail> {
    let text = beside_claim_text(&rt, rt.alloc())?;
    assert_eq!(rt; text.as_str(), "(Some(0), Ok((true, Some(0))))");
    Ok(())
}

/// Appends a message at a moment. Returns whether it was not refused.
fn append_at<R: Wait>(
    rt: &R,
    queue: &Queue,
    mut appender: Appender,
    moment: u64,
    text: &str,
) -> bool
    requires { IsOf queue.now appender }
{
    appender
        .append_waiting(rt, queue, moment, text.as_bytes())
        .is_ok()
}

/// Appends of "a" on the fifth day and of "b" on the ninth, by two threads.
fn both_roll<R: Threads + Wait + Sync>(
    rt: &R,
    queue: &Queue,
    one: Appender,
    two: Appender,
) -> (bool, bool)
    requires one { IsOf queue.now one }
    requires two { IsOf queue.now two }
{
    join(
        rt,
        move || -> bool
            requires { IsOf queue.now one }
        { append_at(rt, queue, one, 5 * DAY, "a") },
        move || -> bool
            requires { IsOf queue.now two }
        { append_at(rt, queue, two, 9 * DAY, "b") },
    )
}

/// Gives what a stopped queue holds, if both appended.
fn held_text(alloc: Global, appended: (bool, bool), stopped: &Stopped) -> Result<String, Fail> {
    if appended != (true, true) {
        return Ok(String::from_str(alloc, "refused")?);
    }
    let contents = recover(alloc, stopped)?;
    contents_text(alloc, &contents)
}

/// The contents of a new queue once both have appended, as text.
fn rolled_text<R: Threads + Wait + Sync>(rt: &R, alloc: Global) -> Result<String, Fail> {
    let (queue, mut caller) = Queue::create(alloc, small_config(alloc, 4)?, 0)?;
    let one = Appender::new(queue.split(&mut caller));
    let two = Appender::new(queue.split(&mut caller));
    let appended = both_roll(rt, &queue, one, two);
    held_text(alloc, appended, &queue.stop(caller))
}

/// What a queue may hold once both have appended.
static ROLLED: [&str; 5] = [
    "0[] 5[a;] 9[b;] at [0]",
    "0[] 5[] 9[a;b;] at [0]",
    "0[] 5[] 9[b;a;] at [0]",
    "0[] 9[a;b;] at [0]",
    "0[] 9[b;a;] at [0]",
];

/// Whether this is one of them.
fn is_rolled(text: &str) -> bool {
    for wanted in &ROLLED {
        if text == *wanted {
            return true;
        }
    }
    false
}

#[test]
fn cycles_that_two_threads_begin_stand_once(rt: HostRuntime) -> Result<(), Fail> {
    for _ in 0..200u32 {
        let text = rolled_text(&rt, rt.alloc())?;
        expect(is_rolled(text.as_str()), text.as_str())?;
    }
    Ok(())
}
