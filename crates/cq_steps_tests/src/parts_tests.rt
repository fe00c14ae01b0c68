//! Messages that are dropped after some of their bytes were put, and such as are given up by a caller that is lost.
ghost use Rattle.std.specs.Prelude.{◌≡◌, None};
ghost use Rattle.cq_words.specs.Values.{IsOf};

use crate::queues::{Call, Lost, Measures, Outcome, left_text, new_queue, push_missed_lost};
use cq_append::{Appender, NoRoom, Writing};
use cq_fixtures::{expect_text, push_missed};
use cq_shown::Stopped;
use cq_words::{Caller, Queue};
use std::alloc::Global;
use std::test::Fail;

const MEASURES: Measures = (64, 8, 1);

/// The message of which a part is put.
static TEXT: [u8; 12] = *b"hello, world";

/// Puts these bytes in pieces of this size.
fn put_pieces(queue: &Queue, writing: &mut Writing, bytes: &[u8], size: usize) -> Result<(), NoRoom>
    requires { IsOf queue.now writing.old.caller }
{
    for piece in bytes.chunks(size.max(1)) {
        writing.put(queue, piece)?;
    }
    Ok(())
}

/// Begins the message, and puts these bytes of it in pieces of this size.
fn put_part(queue: &Queue, appender: Appender, bytes: &[u8], size: usize) -> Result<(), NoRoom>
    requires { IsOf queue.now appender }
{
    match appender.begin(queue, 0, TEXT.len() as u32) {
        Ok(mut writing) => put_pieces(queue, &mut writing, bytes, size),
        Err(_) => Ok(()),
    }
}

/// The same after "a", which it appends first.
fn put_behind(queue: &Queue, caller: Caller, bytes: &[u8], size: usize) -> Result<(), Fail>
    requires of { IsOf queue.now caller }
    requires idle { caller.view.claim ≡ None }
{
    let mut appender = Appender::new(caller);
    appender.append(queue, 0, b"a")?;
    Ok(put_part(queue, appender, bytes, size)?)
}

/// A queue that was stopped once an appender was lost that had put these bytes of a message after "a", in pieces of this size.
fn stopped_in_parts(alloc: Global, bytes: &[u8], size: usize) -> Result<Stopped, Fail> {
    let (queue, mut caller) = new_queue(alloc, MEASURES)?;
    let other = queue.split(&mut caller);
    put_behind(&queue, caller, bytes, size)?;
    Ok(queue.stop(other))
}

/// What is left of it.
fn left_of_parts(alloc: Global, bytes: &[u8], size: usize) -> Result<String, Fail> {
    let stopped = stopped_in_parts(alloc, bytes, size)?;
    left_text(alloc, MEASURES, &stopped)
}

/// Returns what differs from what is wanted, if the appender is lost after each number of bytes.
fn missed_parts(alloc: Global, size: usize) -> Result<String, Fail> {
    let mut missed = String::new(alloc);
    for count in 0..TEXT.len() + 1 {
        let left = left_of_parts(alloc, &TEXT[..count], size)?;
        push_missed(alloc, &mut missed, count, left.as_str(), "0[a;] at [0], 1")?;
    }
    Ok(missed)
}

/// The sizes of the pieces.
static SIZES: [usize; 3] = [1, 3, 12];

#[test]
fn a_message_of_which_a_part_is_put_is_lost(rt: HostRuntime) -> Result<(), Fail> {
    for size in &SIZES {
        expect_text(missed_parts(rt.alloc(), *size)?, "")?;
    }
    Ok(())
}

/// How many messages are there before, the message that is given up after them, how many steps it takes to give it up, and
/// what is left. Its caller is lost at each step in turn.
static GIVEN_UP: [(u32, &str, u32, &str); 3] = [
    // Three cells and the header: after the meta-data of the first message, after a message, and after a full table.
    (0, "hello, world", 4, "0[] at [0], 0"),
    (1, "hello, world", 4, "0[a;] at [0], 1"),
    (8, "hello, worl", 4, "0[a;a;a;a;a;a;a;a;] at [0], 8"),
];

/// Returns the results and remains that differ from what is wanted, if the caller is lost after each number of steps.
fn missed_of(alloc: Global, lost: &Lost<'_>, all: u32, left: &str) -> Result<String, Fail> {
    let mut missed = String::new(alloc);
    for steps in 0..all {
        push_missed_lost(alloc, lost, steps, (Outcome::Lost, left), &mut missed)?;
    }
    push_missed_lost(alloc, lost, all, (Outcome::Made, left), &mut missed)?;
    Ok(missed)
}

/// Loses the caller as it gives up each of these messages.
fn expect_given_up(alloc: Global) -> Result<(), Fail> {
    for (count, text, steps, left) in &GIVEN_UP {
        let lost = Lost {
            measures: MEASURES,
            count: *count,
            call: Call::GiveUp(text),
        };
        expect_text(missed_of(alloc, &lost, *steps, left)?, "")?;
    }
    Ok(())
}

#[test]
fn an_appender_that_gives_a_message_up_is_lost(rt: HostRuntime) -> Result<(), Fail> {
    expect_given_up(rt.alloc())
}
