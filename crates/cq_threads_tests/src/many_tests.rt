//! Four threads that append, concurrently with others that read or take, while cycles begin.

ghost use Rattle.cq_words.specs.Values.{IsOf};

use crate::shared::{SharedAppender, SharedQueue, SharedTailer};
use cq_append::Appender;
use cq_fixtures::{DAY, config_of, expect};
use cq_layout::Shape;
use cq_model::Config;
use cq_tail::{Found, Tailer, Take, TakeFault};
use cq_words::Queue;
use std::alloc::{AllocError, Global};
use std::sync::Wait;
use std::sync::atomic::{AtomicU64, Ordering};
use std::test::Fail;
use std::thread::{Threads, map_vec, yield_now};

/// How many messages each of the four threads appends, at most 10,000.
const EACH: u32 = 200;

/// How many messages all of them append.
const ALL: u32 = 4 * EACH;

/// How often a thread looks for messages, before it gives up.
const TURNS: u32 = 100_000_000;

/// A message: its writer, and its number in two bytes.
fn message_of(writer: u8, number: u32) -> [u8; 3] {
    let bytes = number.to_be_bytes();
    [writer, bytes[2], bytes[3]]
}

/// The moment of a message: the days of a writer rise from 0 to 7, and every other message is up to two days earlier.
fn moment_of(number: u32) -> u64 {
    let day = u64::from(number) * 8 / u64::from(EACH) % 8;
    if number % 2 == 0 {
        return day * DAY;
    }
    day.saturating_sub(2) * DAY
}

/// Appends all messages of a writer. Returns whether none was refused.
fn append_all<R: Wait>(rt: &R, queue: &Queue, appender: &mut Appender, writer: u8) -> bool
    requires { IsOf queue.now appender.old }
    ensures { IsOf queue.now appender.new }
{
    for number in 0..EACH {
        let message = message_of(writer, number);
        if appender
            .append_waiting(rt, queue, moment_of(number), message.as_slice())
            .is_err()
        {
            return false;
        }
    }
    true
}

/// What a reader has read.
#[derive(Clone, Copy, PartialEq, Eq)]
struct Tally {
    /// How many messages of each writer, which came in its order.
    read: [u32; 4],
    /// A sum over the writers and the indexes, which depends on their order.
    sum: u64,
}

/// Nothing.
fn no_tally() -> Tally {
    Tally {
        read: [0; 4],
        sum: 0,
    }
}

/// How many messages were read of this writer.
fn read_of(tally: &Tally, writer: u8) -> u32 {
    match tally.read.get(usize::from(writer)) {
        Some(count) => *count,
        None => 0,
    }
}

/// Counts a message of this writer.
fn count_of(tally: &mut Tally, writer: u8, index: u64) {
    if let Some(count) = tally.read.get_mut(usize::from(writer)) {
        *count = count.wrapping_add(1);
    }
    tally.sum = tally
        .sum
        .wrapping_mul(1_000_003)
        .wrapping_add(index)
        .wrapping_add(u64::from(writer));
}

/// Counts a message, if it is the next one of its writer. Returns whether it is.
fn is_counted(tally: &mut Tally, message: &[u8], index: u64) -> bool {
    let Some(writer) = message.first() else {
        return false;
    };
    if message != message_of(*writer, read_of(tally, *writer)).as_slice() {
        return false;
    }
    count_of(tally, *writer, index);
    true
}

/// Whether all messages were read.
fn is_all(tally: &Tally) -> bool {
    tally.read == [EACH; 4]
}

/// Counts what was read, if it is a message. Returns whether all is well.
fn is_read(found: &Result<Found, AllocError>, tally: &mut Tally) -> bool {
    match found {
        Ok(Found::Message(index, message)) => {
            is_counted(tally, message.as_slice(), index.value())
        }
        Ok(Found::NotYet) => {
            yield_now();
            true
        }
        Ok(Found::BeforeStart) | Err(_) => false,
    }
}

/// Reads the next message, if there is one. Returns whether all is well.
fn read_next(alloc: Global, queue: &Queue, tailer: &mut Tailer, tally: &mut Tally) -> bool
    requires { IsOf queue.now tailer.old.caller }
    ensures { IsOf queue.now tailer.new.caller }
{
    is_read(&tailer.next(alloc, queue), tally)
}

/// Reads all messages, or up to one that is not the next of its writer.
fn read_all(alloc: Global, queue: &Queue, tailer: &mut Tailer) -> Tally
    requires { IsOf queue.now tailer.old.caller }
    ensures { IsOf queue.now tailer.new.caller }
{
    let mut tally = no_tally();
    for _ in 0..TURNS {
        if is_all(&tally) || !read_next(alloc, queue, tailer, &mut tally) {
            return tally;
        }
    }
    tally
}

/// A queue of 8 cycles of a day each.
fn config(alloc: Global) -> Result<Config, Fail> {
    config_of(alloc, Shape::new(262_144, 256, 1)?, 8)
}

/// Keeps the index of what was taken, if it is a message. Returns whether it is.
fn is_kept(take: &Result<Take, TakeFault>, taken: &mut Vec<u64>) -> bool {
    match take {
        Ok(Take::Taken(index, _message)) => taken.push(index.value()).is_ok(),
        Ok(_) | Err(_) => false,
    }
}

/// Takes the next message, if there is one, and keeps its index. Returns whether it did.
pub fn take_next(alloc: Global, queue: &Queue, tailer: &mut Tailer, taken: &mut Vec<u64>) -> bool
    requires { IsOf queue.now tailer.old.caller }
    ensures { IsOf queue.now tailer.new.caller }
{
    is_kept(&tailer.take(alloc, queue, "reader"), taken)
}

/// The indexes of the messages that were taken until two takers have taken all.
fn take_all(alloc: Global, queue: &Queue, tailer: &mut Tailer, count: &AtomicU64) -> Vec<u64>
    requires { IsOf queue.now tailer.old.caller }
    ensures { IsOf queue.now tailer.new.caller }
{
    let mut taken = Vec::new(alloc);
    for _ in 0..TURNS {
        if take_next(alloc, queue, tailer, &mut taken) {
            count.fetch_add(1, Ordering::SeqCst);
        } else if count.load(Ordering::SeqCst) >= u64::from(ALL) {
            return taken;
        } else {
            yield_now();
        }
    }
    taken
}

/// Whether each index is above the one before it.
fn is_rising(indexes: &[u64]) -> bool {
    let mut least = 0u64;
    for index in indexes {
        if *index < least {
            return false;
        }
        least = index.wrapping_add(1);
    }
    true
}

/// Returns how many indexes are in just one of two rising lists, from the least on up to one that is in both.
fn count_once(one: &[u64], two: &[u64]) -> u32 {
    let mut a = 0usize;
    let mut b = 0usize;
    for count in 0..ALL {
        match (one.get(a), two.get(b)) {
            (Some(first), Some(second)) => {
                if first == second {
                    return count;
                }
                if first < second {
                    a = a.wrapping_add(1);
                } else {
                    b = b.wrapping_add(1);
                }
            }
            (Some(_), None) => a = a.wrapping_add(1),
            (None, Some(_)) => b = b.wrapping_add(1),
            (None, None) => return count,
        }
    }
    ALL
}

/// Whether two takers took all messages, each just once.
fn is_taken_once(one: &[u64], two: &[u64]) -> bool {
    if !is_rising(one) || !is_rising(two) {
        return false;
    }
    one.len().wrapping_add(two.len()) == ALL as usize && count_once(one, two) == ALL
}

/// What a thread does.
#[derive(Drop)]
enum Job {
    /// Appends all messages of a writer.
    Append(SharedAppender, u8),
    /// Reads all messages.
    Read(SharedTailer),
    /// Takes messages until all were taken.
    Take(SharedTailer),
}

/// What came of it.
#[derive(Drop)]
enum Outcome {
    /// Whether no message was refused.
    Appended(bool),
    /// What was read.
    Read(Tally),
    /// The indexes that were taken.
    Taken(Vec<u64>),
}

/// Does a job concurrently with others. Those that take count together.
fn done<R: Wait>(rt: &R, alloc: Global, job: Job, count: &AtomicU64) -> Outcome {
    match job {
        Job::Append(mut shared, writer) => {
            let shared = &mut shared;
            Outcome::Appended(append_all(rt, &shared.queue, &mut shared.appender, writer))
        }
        Job::Read(mut shared) => {
            let shared = &mut shared;
            Outcome::Read(read_all(alloc, &shared.queue, &mut shared.tailer))
        }
        Job::Take(mut shared) => {
            let shared = &mut shared;
            Outcome::Taken(take_all(alloc, &shared.queue, &mut shared.tailer, count))
        }
    }
}

/// Returns the results of jobs that run concurrently.
fn outcomes<R: Threads + Wait + Sync>(
    rt: &R,
    alloc: Global,
    jobs: Vec<Job>,
) -> Result<Vec<Outcome>, AllocError> {
    let count = AtomicU64::new(0);
    map_vec(
        rt,
        jobs,
        &|job: Job| -> Outcome { done(rt, alloc, job, &count) },
    )
}

/// Four writers.
fn push_writers(queue: &mut SharedQueue, jobs: &mut Vec<Job>) -> Result<(), AllocError> {
    for writer in 0..4u8 {
        jobs.push(Job::Append(queue.appender()?, writer))?;
    }
    Ok(())
}

/// Four readers.
fn push_readers(queue: &mut SharedQueue, jobs: &mut Vec<Job>) -> Result<(), AllocError> {
    for _ in 0..4u8 {
        jobs.push(Job::Read(queue.tailer()?))?;
    }
    Ok(())
}

/// Two takers of one name.
fn push_takers(queue: &mut SharedQueue, jobs: &mut Vec<Job>) -> Result<(), AllocError> {
    for _ in 0..2u8 {
        jobs.push(Job::Take(queue.tailer()?))?;
    }
    Ok(())
}

/// Four writers and four readers of a new queue.
fn writers_and_readers(alloc: Global) -> Result<Vec<Job>, Fail> {
    let mut queue = SharedQueue::new(alloc, config(alloc)?)?;
    let mut jobs = Vec::new(alloc);
    push_writers(&mut queue, &mut jobs)?;
    push_readers(&mut queue, &mut jobs)?;
    Ok(jobs)
}

/// Four writers and two takers of a new queue.
fn writers_and_takers(alloc: Global) -> Result<Vec<Job>, Fail> {
    let mut queue = SharedQueue::new(alloc, config(alloc)?)?;
    let mut jobs = Vec::new(alloc);
    push_writers(&mut queue, &mut jobs)?;
    push_takers(&mut queue, &mut jobs)?;
    Ok(jobs)
}

/// How many writers appended all their messages.
fn count_appended(outcomes: &[Outcome]) -> u32 {
    let mut count = 0u32;
    for outcome in outcomes {
        if matches!(outcome, Outcome::Appended(true)) {
            count = count.wrapping_add(1);
        }
    }
    count
}

/// How many readers read all messages, and in the same order as the last one.
fn count_alike(outcomes: &[Outcome]) -> u32 {
    let Some(Outcome::Read(last)) = outcomes.last() else {
        return 0;
    };
    let mut count = 0u32;
    for outcome in outcomes {
        if let Outcome::Read(tally) = outcome {
            if is_all(tally) && tally == last {
                count = count.wrapping_add(1);
            }
        }
    }
    count
}

/// Whether two takers took all messages of four writers, each just once.
fn are_taken_once(outcomes: &[Outcome]) -> bool {
    match (outcomes.get(4), outcomes.get(5)) {
        (Some(Outcome::Taken(one)), Some(Outcome::Taken(two))) => {
            is_taken_once(one.as_slice(), two.as_slice())
        }
        _ => false,
    }
}

#[test]
fn four_tailers_read_what_four_writers_append(rt: HostRuntime) -> Result<(), Fail> {
    let outcomes = outcomes(&rt, rt.alloc(), writers_and_readers(rt.alloc())?)?;
    expect(count_appended(&outcomes) == 4, "four writers append all")?;
    expect(
        count_alike(&outcomes) == 4,
        "four tailers read all, and the same",
    )
}

#[test]
fn two_takers_take_each_message_once(rt: HostRuntime) -> Result<(), Fail> {
    let outcomes = outcomes(&rt, rt.alloc(), writers_and_takers(rt.alloc())?)?;
    expect(count_appended(&outcomes) == 4, "four writers append all")?;
    expect(
        are_taken_once(&outcomes),
        "two takers take each message once",
    )
}
