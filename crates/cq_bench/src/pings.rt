//! How long it takes from an append of a message until another caller has read it.
ghost use Rattle.cq_words.specs.Values.{IsOf};

use crate::appending::{MOST_TRIES, append_one};
use crate::fault::BenchFault;
use crate::figures::{Figure, Label, print_line};
use crate::queues::{SharedAppender, SharedQueue, SharedTailer, message_count};
use crate::reading::read_copy;
use crate::running::{Gate, now};
use crate::settings::Settings;
use cq_append::Appender;
use cq_layout::Shape;
use cq_tail::Tailer;
use cq_words::Queue;
use std::alloc::Global;
use std::rt::Clock;
use std::thread::{Threads, join};
use std::time::{Duration, Instant};

/// The bytes of a message.
const LENGTH: u32 = 64;

/// How many messages are sent, if that many fit.
const MOST_PINGS: u32 = 10_000;

/// The times that half of the messages, and 99 of 100, take at most.
#[derive(Clone, Copy)]
struct Times {
    half: Duration,
    most: Duration,
}

/// Appends messages, each once the one before it was read, and keeps when each append began.
fn send_all<R: Clock>(
    rt: &R,
    read: &Gate,
    queue: &Queue,
    appender: &mut Appender,
    count: u32,
    sent: &mut Vec<Instant>,
) -> Result<(), BenchFault>
    requires { IsOf queue.now appender.old }
{
    for number in 0..count {
        // The first is sent once the tailer has come.
        if !read.wait(u64::from(number) + 1) {
            return Err(BenchFault::Missing);
        }
        let start = now(rt)?;
        append_one(queue, appender, &[b'x'; LENGTH as usize])?;
        if sent.push(start).is_err() {
            return Err(BenchFault::OutOfMemory);
        }
    }
    Ok(())
}

/// Appends messages, each once the one before it was read, and returns when each append began.
fn send<R: AllocGlobal + Clock>(
    rt: &R,
    read: &Gate,
    shared: SharedAppender,
    count: u32,
) -> Result<Vec<Instant>, BenchFault> {
    let SharedAppender {
        queue,
        mut appender,
    } = shared;
    let mut sent = Vec::with_capacity(rt.alloc(), count as usize)?;
    send_all(rt, read, &queue, &mut appender, count, &mut sent)?;
    Ok(sent)
}

/// Reads messages as they come, and keeps when each was read.
fn receive_all<R: AllocGlobal + Clock>(
    rt: &R,
    read: &Gate,
    queue: &Queue,
    tailer: &mut Tailer,
    count: u32,
    received: &mut Vec<Instant>,
) -> Result<(), BenchFault>
    requires { IsOf queue.now tailer.old.caller }
{
    read.come();
    for _ in 0..count {
        read_copy(rt.alloc(), queue, tailer, MOST_TRIES)?;
        let end = now(rt)?;
        read.come();
        if received.push(end).is_err() {
            return Err(BenchFault::OutOfMemory);
        }
    }
    Ok(())
}

/// Reads messages as they come, and returns when each was read.
fn receive<R: AllocGlobal + Clock>(
    rt: &R,
    read: &Gate,
    shared: SharedTailer,
    count: u32,
) -> Result<Vec<Instant>, BenchFault> {
    let SharedTailer { queue, mut tailer } = shared;
    let mut received = Vec::with_capacity(rt.alloc(), count as usize)?;
    receive_all(rt, read, &queue, &mut tailer, count, &mut received)?;
    Ok(received)
}

/// Makes an appender and a tailer of a new queue.
fn new_pair(alloc: Global, shape: Shape) -> Result<(SharedAppender, SharedTailer), BenchFault> {
    let mut shared = SharedQueue::new(alloc, shape)?;
    Ok((shared.appender()?, shared.tailer()?))
}

/// Returns when each of this many messages was sent and read, one at a time.
fn send_and_receive<R: AllocGlobal + Clock + Threads + Sync>(
    rt: &R,
    appender: SharedAppender,
    tailer: SharedTailer,
    count: u32,
) -> (
    Result<Vec<Instant>, BenchFault>,
    Result<Vec<Instant>, BenchFault>,
) {
    let read = Gate::new();
    join(
        rt,
        || -> Result<Vec<Instant>, BenchFault> { send(rt, &read, appender, count) },
        || -> Result<Vec<Instant>, BenchFault> { receive(rt, &read, tailer, count) },
    )
}

/// Measures the times of this many messages, one at a time.
fn ping_times<R: AllocGlobal + Clock + Threads + Sync>(
    rt: &R,
    shape: Shape,
    count: u32,
) -> Result<Times, BenchFault> {
    let (appender, tailer) = new_pair(rt.alloc(), shape)?;
    let (sent, received) = send_and_receive(rt, appender, tailer, count);
    let mut times = times_between(rt.alloc(), sent?.as_slice(), received?.as_slice())?;
    times.sort_unstable();
    times_of(times.as_slice())
}

/// Returns how long each message was on its way.
fn times_between(
    alloc: Global,
    sent: &[Instant],
    received: &[Instant],
) -> Result<Vec<Duration>, BenchFault> {
    let mut times = Vec::with_capacity(alloc, sent.len())?;
    for (start, end) in sent.iter().zip(received.iter()) {
        if times.push(end.duration_since(*start)).is_err() {
            return Err(BenchFault::OutOfMemory);
        }
    }
    Ok(times)
}

/// Returns these two of the given times, of which the shortest comes first.
fn times_of(times: &[Duration]) -> Result<Times, BenchFault> {
    match (
        times.get(times.len() / 2),
        times.get(times.len().saturating_sub(1) / 100 * 99),
    ) {
        (Some(half), Some(most)) => Ok(Times {
            half: *half,
            most: *most,
        }),
        (_, _) => Err(BenchFault::NoRoom),
    }
}

/// Measures messages that are sent one at a time.
pub fn print_pings<R: AllocGlobal + Clock + Print + Threads + Sync>(
    rt: &R,
    settings: &Settings,
) -> Result<(), BenchFault> {
    let count = message_count(settings.shape, LENGTH).min(MOST_PINGS);
    let mut best = Times {
        half: Duration::MAX,
        most: Duration::MAX,
    };
    for _ in 0..settings.repetitions {
        let Times { half, most } = ping_times(rt, settings.shape, count)?;
        best = Times {
            half: best.half.min(half),
            most: best.most.min(most),
        };
    }
    print_ping(rt, settings, "ping_p50", best.half)?;
    print_ping(rt, settings, "ping_p99", best.most)
}

fn print_ping<R: Print>(
    rt: &R,
    settings: &Settings,
    case: &str,
    time: Duration,
) -> Result<(), BenchFault> {
    let label = Label {
        case,
        payload: LENGTH,
        threads: "1to1",
    };
    print_line(rt, settings, label, Figure::nanos_each(1, time), "ns")
}
